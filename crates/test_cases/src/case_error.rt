//! Why a case was not judged.
use std::alloc::{AllocError, AllocFailed};
use thiserror::Error;

/// Why a case was not judged.
#[derive(Clone, Copy, PartialEq, Eq, Debug, Error)]
pub(crate) enum CaseError {
    /// Memory ran out.
    #[error("memory ran out")]
    Memory,
    /// The line is no case: its call is unknown, or a field is missing or of another form.
    #[error("the line is no case")]
    NoCase,
}

impl From<AllocError> for CaseError {
    fn from(_refused: AllocError) -> CaseError {
        CaseError::Memory
    }
}

impl<T: Drop> From<AllocFailed<T>> for CaseError {
    fn from(_refused: AllocFailed<T>) -> CaseError {
        CaseError::Memory
    }
}
