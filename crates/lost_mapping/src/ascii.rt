//! Texts of ASCII bytes.
ghost use Rattle.std.specs.Prelude.{◌≡◌, IfOk, string_bytes};
ghost use Rattle.std.specs.Str.{IsAscii};
ghost use Rattle.lost_spec.specs.Text.{lowered};

use std::alloc::{AllocError, Global};

/// The text of ASCII bytes.
pub(crate) fn to_text(alloc: Global, bytes: &[u8]) -> Result<String, AllocError>
    requires { IsAscii bytes.now }
    ensures { IfOk result (λ s. string_bytes s ≡ bytes.now) }
{
    String::from_str(alloc, str::from_utf8(bytes).unwrap())
}

/// The text of ASCII bytes, in lower case.
pub(crate) fn to_lowercase(alloc: Global, bytes: &[u8]) -> Result<String, AllocError>
    requires { IsAscii bytes.now }
    ensures { IfOk result (λ s. string_bytes s ≡ lowered bytes.now) }
{
    let mut lower = to_text(alloc, bytes)?;
    lower.make_ascii_lowercase();
    Ok(lower)
}
