//! Why a line is not kept.
use std::alloc::AllocError;
use std::io;
use thiserror::Error;

/// Why a line is not kept. Nothing that was kept before is changed.
#[derive(Clone, Copy, Debug, Error)]
pub enum NotKept {
    /// It is none that a journal has: an edit with a byte 10 or the beginning of a commit, or no commit.
    #[error("the line does not fit into a journal")]
    Line,
    /// The file would be longer than an offset can say.
    #[error("the journal is too long")]
    TooLong,
    #[error("memory ran out")]
    Memory,
    /// A flush has failed before. Nothing more is asked of the file.
    #[error("an earlier flush has failed")]
    Spent,
    /// The disk failed.
    #[error("the disk failed: {0}")]
    Disk(io::Error),
}

impl From<AllocError> for NotKept {
    fn from(_error: AllocError) -> NotKept {
        NotKept::Memory
    }
}

/// Why a journal cannot be read.
#[derive(Clone, Copy, Debug, Error)]
pub enum ReadFault {
    /// A line is longer than any that a journal has.
    #[error("a line is too long")]
    Line,
    #[error("memory ran out")]
    Memory,
    /// The disk failed.
    #[error("the disk failed: {0}")]
    Disk(io::Error),
}
