//! The text of a service, as it is kept.
ghost use Rattle.std.specs.Prelude.{◌≡◌, ◌==◌, IfOk, IsTrue, string_bytes};
ghost use Rattle.std.specs.List.{list_all};
ghost use Rattle.std.specs.Char.{to_ascii_lowercase};
ghost use Rattle.std.specs.Str.{IsAscii};
ghost use Rattle.lost_spec.specs.Text.{lowered};
ghost use Rattle.lost_urn.specs.Kept.{bytes_of};

use arrayvec::ArrayString;
use std::alloc::{AllocError, Global};

/// The most bytes of a text that lies in the value.
const SHORT: usize = 32;

/// A text: a short one, as most services have, lies in the value itself, and so near what else is looked at.
#[derive(Debug, Drop)]
pub(crate) enum ServiceText {
    /// A text of at most 32 bytes.
    Short(ArrayString<SHORT>),
    /// A longer one.
    Long(String),
}

impl ServiceText {
    /// This text.
    pub(crate) fn of(alloc: Global, text: &str) -> Result<ServiceText, AllocError>
        ensures { IfOk result (λ kept. bytes_of kept ≡ text.now) }
    {
        if let Ok(short) = ArrayString::from(text) {
            return Ok(ServiceText::Short(short));
        }
        Ok(ServiceText::Long(String::from_str(alloc, text)?))
    }

    /// This ASCII text, as it is.
    pub(crate) fn ascii(alloc: Global, text: &[u8]) -> Result<ServiceText, AllocError>
        requires { IsAscii text.now }
        ensures { IfOk result (λ kept. bytes_of kept ≡ text.now) }
    {
        ServiceText::of(alloc, read_ascii(text))
    }

    /// An ASCII text in lower case.
    pub(crate) fn lowercase(alloc: Global, text: &[u8]) -> Result<ServiceText, AllocError>
        requires { IsAscii text.now }
        ensures { IfOk result (λ kept. bytes_of kept ≡ lowered text.now) }
    {
        let text = read_ascii(text);
        if is_lowercase(text) {
            return ServiceText::of(alloc, text);
        }
        let lower = to_lowercase(alloc, text)?;
        ServiceText::of(alloc, lower.as_str())
    }

    /// The text.
    pub(crate) fn as_str(&self) -> &str
        ensures { result.now ≡ bytes_of self.now }
    {
        match self {
            ServiceText::Short(text) => text.as_str(),
            ServiceText::Long(text) => text.as_str(),
        }
    }
}

/// The text of ASCII bytes.
fn read_ascii(text: &[u8]) -> &str
    requires { IsAscii text.now }
    ensures { result.now ≡ text.now }
{
    str::from_utf8(text).unwrap()
}

/// Whether the text is in lower case already.
fn is_lowercase(text: &str) -> bool
    ensures { IsTrue result → lowered text.now ≡ text.now }
{
    are_own_lowercase(text.as_bytes())
}

/// Whether each byte is its own lower case.
fn are_own_lowercase(text: &[u8]) -> bool
    ensures { result ≡ list_all (λ b. to_ascii_lowercase b == b) text.now }
{
    text.iter().all(|byte| is_own_lowercase(*byte))
}

fn is_own_lowercase(byte: u8) -> bool
    ensures { result ≡ (to_ascii_lowercase byte == byte) }
{
    byte.to_ascii_lowercase() == byte
}

/// The text in lower case.
fn to_lowercase(alloc: Global, text: &str) -> Result<String, AllocError>
    ensures { IfOk result (λ s. string_bytes s ≡ lowered text.now) }
{
    let mut lower = String::from_str(alloc, text)?;
    lower.make_ascii_lowercase();
    Ok(lower)
}
