//! The limits of a book, as a folder of sessions gives them.
use lost_book::Limits;
use std::rt::Files;
use std::{fs, io};
use test_parts::limits_of;

/// The limits that the file `NAME.limits` of a folder gives, as [`limits_of`] reads them; the widest where there is no
/// such file.
pub(crate) fn limits<R: Files + AllocGlobal>(
    rt: &R,
    folder: &str,
    name: &str,
) -> io::Result<Limits> {
    let file = format!(in rt.alloc(); "{folder}/{name}.limits")?;
    match fs::read(rt, file.as_str()) {
        Ok(text) => limits_in(text.as_slice()),
        Err(error) if error.kind() == io::ErrorKind::NotFound => Ok(Limits::widest()),
        Err(error) => Err(error),
    }
}

/// The limits that these bytes give.
fn limits_in(bytes: &[u8]) -> io::Result<Limits> {
    let text = std::str::from_utf8(bytes).unwrap_or("");
    match limits_of(text.trim_end()) {
        Some(limits) => Ok(limits),
        None => Err(io::ErrorKind::InvalidData.into()),
    }
}
