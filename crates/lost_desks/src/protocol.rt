//! Connections that are no desk's, by their first bytes.
ghost use Rattle.std.specs.Prelude.{◌≡◌};
ghost use Rattle.lost_desks.specs.Protocol.{is_http as is_front_of_http, is_tls as is_front_of_tls, other_protocol as other_than_desks};

use crate::turn_end::TurnEnd;

/// After how many bytes no more are looked at.
pub(crate) const MOST_LOOKED_AT: usize = 8;

/// Why a turn with these first bytes is over, if they are no desk's.
pub(crate) fn other_protocol(front: &[u8]) -> Option<TurnEnd>
    ensures { result ≡ other_than_desks front.now }
{
    if is_http(front) {
        return Some(TurnEnd::SpeaksHttp);
    }
    if is_tls(front) {
        return Some(TurnEnd::SpeaksTls);
    }
    None
}

/// Whether the first bytes are those of an HTTP request: a method and a space (RFC 9112, section 3).
fn is_http(front: &[u8]) -> bool
    ensures { result ≡ is_front_of_http front.now }
{
    front.starts_with(b"GET ")
        || front.starts_with(b"POST ")
        || front.starts_with(b"HEAD ")
        || front.starts_with(b"PUT ")
        || front.starts_with(b"OPTIONS ")
        || front.starts_with(b"CONNECT ")
}

/// Whether the first bytes are those of a TLS handshake (RFC 8446, section 5.1).
fn is_tls(front: &[u8]) -> bool
    ensures { result ≡ is_front_of_tls front.now }
{
    front.starts_with(b"\x16\x03")
}
