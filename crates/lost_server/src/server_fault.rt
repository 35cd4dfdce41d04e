//! Why a server did not start, or stopped.
use crate::run_fault::RunFault;
use lost_answer_log::LogFault;
use lost_journal::NotKept;
use lost_journal_file::OpenFault;
use lost_keeping::Stopped;
use lost_sockets::ListenError;
use std::alloc::AllocError;
use std::io::ErrorKind;

/// Why a map was not loaded.
#[derive(Clone, Copy, PartialEq, Eq, Debug)]
pub enum MapFault {
    /// The file could not be opened.
    Unopened(ErrorKind),
    /// The map could not be read to its end.
    Unread,
    /// This many lines were refused, each of which was reported, and this many edits are not committed.
    Refused { refused: u64, pending: u64 },
    /// Memory was refused, so the pending edits could not be dropped.
    Memory,
}

/// Why a journal is not used.
#[derive(Clone, Copy, Debug)]
pub enum JournalFault {
    /// Its path is empty.
    NoPath,
    /// Its file could not be opened, begun or put into its place.
    Unopened(OpenFault),
    /// The reading of what it keeps stopped.
    NotRecovered(Stopped),
    /// It keeps this many edits, and a map is given too.
    Holds(u64),
    /// It could not keep the map.
    NotKept(NotKept),
    /// Memory was refused.
    Memory,
}

impl From<AllocError> for JournalFault {
    fn from(_error: AllocError) -> JournalFault {
        JournalFault::Memory
    }
}

/// Why a server did not start, or stopped before its end.
#[derive(Clone, Copy, Debug)]
pub enum ServerFault {
    /// Its map was not loaded. It listened only for its status.
    Map(MapFault),
    /// Its journal is not used. It listened only for its status.
    Journal(JournalFault),
    /// Its log of answers was not begun. It listened only for its status.
    Log(LogFault),
    /// The address of the option with this name cannot be listened on.
    Address(&'static str, ListenError),
    /// The caller could not be told that the server is ready.
    Ready,
    /// The fault that ended the run.
    Run(RunFault),
}

impl From<LogFault> for ServerFault {
    fn from(fault: LogFault) -> ServerFault {
        ServerFault::Log(fault)
    }
}

impl From<JournalFault> for ServerFault {
    fn from(fault: JournalFault) -> ServerFault {
        ServerFault::Journal(fault)
    }
}
