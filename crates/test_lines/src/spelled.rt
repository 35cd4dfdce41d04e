//! Texts in which line ends are spelled.
use std::alloc::AllocError;

/// Adds a text, in which `\n` and `\r` are spelled.
pub(crate) fn add_spelled(bytes: &mut Vec<u8>, spelled: &str) -> Result<(), AllocError> {
    let mut is_escaped = false;
    for byte in spelled.bytes() {
        if byte == b'\\' {
            is_escaped = true;
        } else {
            bytes.push(if is_escaped { escaped(byte) } else { byte })?;
            is_escaped = false;
        }
    }
    Ok(())
}

/// The byte that a byte stands for after a `\`.
fn escaped(byte: u8) -> u8 {
    match byte {
        b'n' => b'\n',
        b'r' => b'\r',
        other => other,
    }
}
