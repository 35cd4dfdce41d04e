//! What is wrong with a run.
use lost_journal::{NotKept, ReadFault};
use lost_keeping::RecoveryFault;
use std::alloc::AllocError;
use std::io;
use thiserror::Error;

/// What is wrong.
#[derive(Clone, Copy, Debug, Error)]
pub(crate) enum Wrong {
    #[error("the replies are not those of a desk without a journal")]
    Replies,
    #[error("what is published or staged is not what a desk without a journal has")]
    Lists,
    #[error("what was answered as committed is not what is published")]
    Answered,
    #[error("a call failed and no line was refused, or the other way round")]
    Refusal,
    #[error("the cause of a refusal is not that the disk failed")]
    Cause,
    #[error("the journal was not opened: {0}")]
    NotOpened(RecoveryFault),
    #[error("the content is refused: {0}")]
    Refused(RecoveryFault),
    #[error("the content is opened")]
    Taken,
    #[error("the content is refused, and the file is changed")]
    Changed,
    #[error("another list is published than before the crash")]
    OtherList,
    #[error("the file is not cut where what is kept ends")]
    NotCut,
    #[error("a file at rest does not end with a commit")]
    NotAtRest,
    #[error("an opening with a failing call does not end in that failure: {0}")]
    OtherEnd(RecoveryFault),
    #[error("an opening with failing calls never ends")]
    NoEnd,
    #[error("a change of the file was not noted")]
    Gap,
}

/// Why the runs of a row end early.
#[derive(Clone, Copy, Debug)]
pub(crate) enum Fault {
    /// Something is wrong.
    Wrong(Wrong),
    /// Memory ran out, or a file or standard output failed.
    Io(io::Error),
}

/// Whether a journal was not opened because memory was refused. A disk in memory says so too.
pub(crate) fn is_memory(fault: RecoveryFault) -> bool {
    match fault {
        RecoveryFault::Memory
        | RecoveryFault::Unread(ReadFault::Memory)
        | RecoveryFault::Uncut(NotKept::Memory) => true,
        RecoveryFault::Unread(ReadFault::Disk(error))
        | RecoveryFault::Uncut(NotKept::Disk(error)) => error.kind() == io::ErrorKind::OutOfMemory,
        _ => false,
    }
}

impl From<Wrong> for Fault {
    fn from(wrong: Wrong) -> Fault {
        Fault::Wrong(wrong)
    }
}

impl From<io::Error> for Fault {
    fn from(error: io::Error) -> Fault {
        Fault::Io(error)
    }
}

impl From<AllocError> for Fault {
    fn from(error: AllocError) -> Fault {
        Fault::Io(error.into())
    }
}
