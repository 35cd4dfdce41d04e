//! The file that a journal is kept in, as a disk of `sqlite_disk`: how it is opened, begun and put into its place.
//!
//! Proved: the file keeps the record of calls and answers that `sqlite_disk` asks for, and a disk that is given can be
//! used, and a crash leaves what is read. Not proved, and so to be read or tried: that each method makes the call that it
//! tells, what `settle` flushes, locks, modes and names. `Unknown` says that the file was empty. That is so of one that is
//! begun here. Of one that is opened, clauses on contents hold only in code over any `Disk`, since at `JournalDisk` the
//! first byte that is read shows the disk as not clean.
#![tactic(auto)]

mod asked;
mod begin;
mod fault;
mod file_calls;
mod growth;
mod locked;
mod names;
mod open;
mod place;
mod settled;

pub use begin::begin_journal;
pub use fault::OpenFault;
pub use file_calls::FileCalls;
pub use growth::JournalLength;
pub use open::{look_at_journal, open_journal};
pub use place::place_journal;
use sqlite_disk::{Modelled, Unknown};

/// An open journal file, as a disk. Nobody else can open it as one until it is dropped.
pub type JournalDisk = Modelled<FileCalls, Unknown>;
