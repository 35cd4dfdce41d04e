//! Why an audit or an explanation ends early.
use lost_journal_file::OpenFault;
use lost_keeping::Stopped;
use lost_lines::ServeError;
use std::alloc::AllocError;

/// Why an audit or an explanation ends early.
#[derive(Clone, Copy, Debug)]
pub enum AuditFault {
    /// No journal is there, or an empty file.
    Missing,
    /// The journal's file could not be opened.
    Unopened(OpenFault),
    /// The reading of the journal stopped.
    NotRead(Stopped),
    /// No commit of the journal made this edition.
    NoEdition(u64),
    /// No commit of the journal was made so early.
    TooEarly,
    /// The input or the output ended in a fault.
    Stream(ServeError),
    /// Memory was refused.
    Memory,
}

impl From<AllocError> for AuditFault {
    fn from(_error: AllocError) -> AuditFault {
        AuditFault::Memory
    }
}
