//! Bytes that stand in a JSON text as they are: all but a quote, a backslash and the control bytes.
ghost use Rattle.std.specs.Prelude.{◌≡◌, ◌≤◌, length};
ghost use Rattle.json.specs.Run.{is_plain};
ghost use Rattle.json.specs.Written.{PlainBetween};

/// The number of bytes at the front of a text that stand in a JSON text as they are (RFC 8259, section 7).
#[inline]
pub fn plain_len(text: &[u8]) -> usize
    ensures within { result ≤ length text.now }
    ensures plain { PlainBetween text.now 0 result }
{
    let mut at = 0;
    while at < text.len() && is_plain(text[at]) {
        at += 1;
    }
    at
}

/// Whether a byte stands in a JSON text as it is.
#[inline]
fn is_plain(byte: u8) -> bool
    ensures { result ≡ is_plain byte }
{
    byte != b'"' && byte != b'\\' && byte >= 0x20
}
