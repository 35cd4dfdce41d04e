//! The bytes of a file.
use std::alloc::AllocError;

/// Puts bytes at an offset. Zeros fill what is missing before it.
pub(crate) fn put(file: &mut Vec<u8>, at: usize, bytes: &[u8]) -> Result<(), AllocError> {
    let end = at.checked_add(bytes.len()).ok_or(AllocError)?;
    if end > file.len() {
        file.resize(end, 0)?;
    }
    file[at..end].copy_from_slice(bytes);
    Ok(())
}
