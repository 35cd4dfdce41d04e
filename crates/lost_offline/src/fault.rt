//! Why a journal was not read or written anew.
use lost_journal_file::OpenFault;
use lost_keeping::{RecoveryFault, Stopped};
use std::alloc::AllocError;
use std::io;

/// Why a journal was not read to its end.
#[derive(Clone, Copy, Debug)]
pub enum JournalFault {
    /// No file is there, or an empty one.
    Missing,
    /// Its file could not be opened.
    Unopened(OpenFault),
    /// Its reading stopped.
    NotRead(Stopped),
    /// Memory was refused.
    Memory,
}

impl From<AllocError> for JournalFault {
    fn from(_error: AllocError) -> JournalFault {
        JournalFault::Memory
    }
}

/// Why a journal was not written anew. Of what was to be written only a front may have been.
#[derive(Clone, Copy, Debug)]
pub enum CompactFault {
    /// It was not read.
    NotRead(JournalFault),
    /// The line of the mapping or trace with this number, from 1, traces first, is longer than a line may be.
    TooLong(u64),
    /// A reader of what is written would refuse the line of this number.
    Refused(u64, RecoveryFault),
    /// A reader of what is written would hold another map. The commit's line was not written, so nothing of it counts.
    OtherMap,
    /// The output failed.
    Write,
    /// Memory was refused.
    Memory,
}

impl From<AllocError> for CompactFault {
    fn from(_error: AllocError) -> CompactFault {
        CompactFault::Memory
    }
}

impl From<io::Error> for CompactFault {
    fn from(_error: io::Error) -> CompactFault {
        CompactFault::Write
    }
}

impl From<JournalFault> for CompactFault {
    fn from(fault: JournalFault) -> CompactFault {
        CompactFault::NotRead(fault)
    }
}
