//! Why a file cannot be read.
use std::io::ErrorKind;

/// Why a file cannot be read, in words.
pub fn opening_failed(kind: ErrorKind) -> &'static str {
    match kind {
        ErrorKind::NotFound => "there is no such file",
        ErrorKind::PermissionDenied => "this user may not read it",
        ErrorKind::IsADirectory => "it is a folder",
        ErrorKind::OutOfMemory => "memory ran out",
        _ => "it could not be opened",
    }
}
