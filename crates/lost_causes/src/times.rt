//! Codes 4 and 5: stamps.
use crate::quoting::quoted;
use crate::stop::{Stop, found};
use lost_mapping::Stamp;
use std::alloc::Global;

/// The first 19 bytes of a stamp. 0 stands for any digit.
const SHAPE: &[u8] = b"0000-00-00T00:00:00";

/// Why a text is no stamp.
pub(crate) fn stamp(alloc: Global, text: &str) -> Result<(), Stop> {
    if Stamp::is_stamp(text.as_bytes()) {
        return Ok(());
    }
    let shown = quoted(alloc, text)?;
    if has_shape(text.as_bytes()) {
        return Err(found(format!(in alloc; "lastUpdated: {shown}: there is no such day or time")));
    }
    Err(found(format!(in alloc; "lastUpdated: {shown} is not written as 2026-01-01T00:00:00Z")))
}

/// Why a text is neither a stamp nor one of the two words.
pub(crate) fn expires(alloc: Global, text: &str) -> Result<(), Stop> {
    let shown = quoted(alloc, text)?;
    if has_shape(text.as_bytes()) {
        return Err(found(format!(in alloc; "expires: {shown}: there is no such day or time")));
    }
    Err(found(format!(in alloc;
        "expires: {shown} is neither NO-CACHE nor NO-EXPIRATION, and is not written as 2026-01-01T00:00:00Z"
    )))
}

/// Whether a text has the digits and signs of a stamp in their places, whatever time they name.
fn has_shape(text: &[u8]) -> bool {
    let Some((front, end)) = text.split_at_checked(SHAPE.len()) else {
        return false;
    };
    SHAPE
        .iter()
        .zip(front)
        .all(|(sign, byte)| fits(*sign, *byte))
        && is_end(end)
}

fn fits(sign: u8, byte: u8) -> bool {
    if sign == b'0' {
        byte.is_ascii_digit()
    } else {
        byte == sign
    }
}

/// Whether bytes are `Z`, perhaps after a dot and 1 to 9 digits.
fn is_end(end: &[u8]) -> bool {
    match end.strip_suffix(b"Z") {
        Some(rest) => rest.is_empty() || is_fraction(rest),
        None => false,
    }
}

fn is_fraction(text: &[u8]) -> bool {
    match text.strip_prefix(b".") {
        Some(digits) => {
            !digits.is_empty()
                && digits.len() <= 9
                && digits.iter().all(|byte| byte.is_ascii_digit())
        }
        None => false,
    }
}
