//! The end of a walk through a line.
use std::alloc::{AllocError, AllocFailed};

/// Why the walk through a line ends: the cause is found, or memory ran out.
#[derive(Drop)]
pub(crate) enum Stop {
    /// The cause, in words.
    Cause(String),
    /// Memory ran out.
    Memory,
}

impl From<AllocError> for Stop {
    fn from(_refused: AllocError) -> Stop {
        Stop::Memory
    }
}

impl<T: Drop> From<AllocFailed<T>> for Stop {
    fn from(_refused: AllocFailed<T>) -> Stop {
        Stop::Memory
    }
}

/// The cause in these words, unless memory ran out.
pub(crate) fn found(words: Result<String, AllocError>) -> Stop {
    match words {
        Ok(words) => Stop::Cause(words),
        Err(_) => Stop::Memory,
    }
}
