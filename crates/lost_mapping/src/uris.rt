//! Which texts are URIs, and which lists of URIs a mapping may have.
ghost use Rattle.std.specs.Prelude.{◌≡◌, ◌==◌, map, position};
ghost use Rattle.std.specs.List.{list_all};
ghost use Rattle.lost_spec.specs.Text.{lowered, is_between, is_among, has_repeat};
ghost use Rattle.lost_spec.specs.Mapping.{is_uri as is_uri_text, are_uris as are_uri_texts, is_scheme as is_scheme_text, is_scheme_byte as is_scheme_byte_code, scheme_of as scheme_of_text};
ghost use Rattle.lost_mapping.specs.Texts.{schemes_of};

use crate::part_items::PartItems;

/// The most bytes that a URI has.
pub const MAX_URI_BYTES: usize = 2048;

/// The most URIs that a mapping has.
pub const MAX_URIS: usize = 16;

/// Whether there are 1 to 16 URIs, and no scheme stands twice, in any case (RFC 5222, section 5.8; the number is an
/// own rule). Schemes are compared only where the number is right, so the work stays linear in the bytes given.
#[tactic(auto, using(std::proofs::lemmas::Bool::Decides::nat_tests))]
pub(crate) fn are_uris<T: PartItems>(uris: &[T::Uri]) -> bool
    ensures { result ≡ are_uri_texts (map T.uri_of uris.now) }
{
    !uris.is_empty()
        && uris.len() <= MAX_URIS
        && each_is_uri::<T>(uris)
        && !repeats_scheme::<T>(uris)
}

fn each_is_uri<T: PartItems>(uris: &[T::Uri]) -> bool
    ensures { result ≡ list_all is_uri_text (map T.uri_of uris.now) }
{
    uris.iter().all(|uri| is_uri(T::uri(uri).as_bytes()))
}

/// Whether a text is a URI: a scheme, a colon and at least one more byte, all of them visible ASCII, and at most
/// 2,048 (RFC 3986, section 3.1; RFC 5222, section 5.8; the bounds are own rules).
#[tactic(auto, using(std::proofs::lemmas::Bool::Decides::nat_tests), unfolding(lost_spec::specs::Mapping::is_uri))]
pub(crate) fn is_uri(uri: &[u8]) -> bool
    ensures { result ≡ is_uri_text uri.now }
{
    let scheme = scheme_of(uri);
    if uri.len() > MAX_URI_BYTES || scheme.len() + 1 >= uri.len() {
        return false;
    }
    is_scheme(scheme) && is_visible(uri)
}

/// The text before the first colon, or the whole text where it has none.
fn scheme_of(uri: &[u8]) -> &[u8]
    ensures { result.now ≡ scheme_of_text uri.now }
{
    match position_of_colon(uri) {
        Some(end) => &uri[..end],
        None => uri,
    }
}

fn position_of_colon(uri: &[u8]) -> Option<usize>
    ensures { result ≡ position (λ b. b == 58) uri.now }
{
    uri.iter().position(|byte| *byte == b':')
}

fn is_visible(uri: &[u8]) -> bool
    ensures { result ≡ list_all (λ b. is_between 33 126 b) uri.now }
{
    uri.iter().all(|byte| byte.is_ascii_graphic())
}

fn is_scheme(scheme: &[u8]) -> bool
    ensures { result ≡ is_scheme_text scheme.now }
{
    let Some(first) = scheme.first() else {
        return false;
    };
    first.is_ascii_alphabetic() && has_only_scheme_bytes(scheme)
}

fn has_only_scheme_bytes(scheme: &[u8]) -> bool
    ensures { result ≡ list_all is_scheme_byte_code scheme.now }
{
    scheme.iter().all(|byte| is_scheme_byte(*byte))
}

fn is_scheme_byte(byte: u8) -> bool
    ensures { result ≡ is_scheme_byte_code byte }
{
    byte.is_ascii_alphanumeric() || matches!(byte, b'+' | b'-' | b'.')
}

/// Whether a scheme stands twice, in any case. The time is quadratic in the number of URIs.
fn repeats_scheme<T: PartItems>(uris: &[T::Uri]) -> bool
    ensures { result ≡ has_repeat (schemes_of (map T.uri_of uris.now)) }
{
    let mut rest = uris;
    while let Some((uri, others)) = rest.split_first() {
        if has_scheme::<T>(others, scheme_of(T::uri(uri).as_bytes())) {
            return true;
        }
        rest = others;
    }
    false
}

fn has_scheme<T: PartItems>(uris: &[T::Uri], scheme: &[u8]) -> bool
    ensures { result ≡ is_among (lowered scheme.now) (schemes_of (map T.uri_of uris.now)) }
{
    uris.iter().any(|uri| scheme.eq_ignore_ascii_case(scheme_of(T::uri(uri).as_bytes())))
}
