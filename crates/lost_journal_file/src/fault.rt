//! Why a journal's file is not opened, begun or put into its place.
use std::alloc::AllocError;
use std::fs::TryLockError;
use std::io;
use thiserror::Error;

/// Why a journal's file is not opened, begun or put into its place.
#[derive(Clone, Copy, Debug, Error)]
pub enum OpenFault {
    /// Another open of the file holds its lock, or another journal stands there, which may have been made meanwhile.
    #[error("the journal is in use, or another one stands in its place")]
    Busy,
    /// Something else has its name: a folder, a link, a device.
    #[error("the journal is not a regular file")]
    NotRegular,
    #[error("memory ran out")]
    Memory,
    /// The system refused a call.
    #[error("the journal's file failed: {0}")]
    Io(io::Error),
}

impl From<io::Error> for OpenFault {
    fn from(error: io::Error) -> OpenFault {
        OpenFault::Io(error)
    }
}

impl From<AllocError> for OpenFault {
    fn from(_error: AllocError) -> OpenFault {
        OpenFault::Memory
    }
}

impl From<TryLockError> for OpenFault {
    fn from(error: TryLockError) -> OpenFault {
        match error {
            TryLockError::WouldBlock => OpenFault::Busy,
            TryLockError::Error(error) => OpenFault::Io(error),
        }
    }
}
