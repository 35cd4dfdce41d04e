//! What is counted at the desk.
ghost use Rattle.std.specs.Prelude.{◌≡◌};
ghost use Rattle.lost_status.specs.Figures.{desk_counted, no_desk, refusal_counted};

use crate::numbers::count_at;

/// The greatest refusal code. Codes begin at 1.
pub(crate) const LAST_CODE: u8 = 23;

/// How many refusal codes there are.
pub(crate) const CODES: usize = 23;

/// What happens at the desk.
#[derive(Clone, Copy, PartialEq, Eq, Debug)]
pub enum DeskEvent {
    /// A line was refused with this code. A code that is not from 1 to 23 is not counted.
    Refused(u8),
    /// The desk committed at this second since 1970. Second 0 counts as none.
    Committed(u64),
    /// It holds this now.
    Holds {
        /// How many edits are published.
        edition: u64,
        /// How many mappings those leave.
        mappings: u64,
        /// How many edits are staged and not published.
        pending: u64,
        /// The digest of the mappings, as a number.
        digest: u128,
    },
    /// A desk has connected.
    Connected,
    /// The desk's connection has ended.
    Left,
    /// The journal can keep nothing more until the server is started again.
    JournalFailed,
}

/// What the desk holds, when it last committed, and which lines it refused.
#[derive(Clone, Copy)]
pub(crate) struct DeskFigures {
    /// How many edits are published.
    pub(crate) edition: u64,
    /// How many mappings are held.
    pub(crate) mappings: u64,
    /// How many edits are staged and not published.
    pub(crate) pending: u64,
    /// The digest of the mappings that are held, as a number.
    pub(crate) digest: u128,
    /// When the desk last committed, in seconds since 1970; 0 if it never did.
    pub(crate) last_commit: u64,
    /// Whether a desk is connected.
    pub(crate) is_open: bool,
    /// Whether the journal can keep nothing more until the server is started again.
    pub(crate) journal_failed: bool,
    /// How many lines were refused, by code, from code 1 on. A count that reaches 2^64 begins at 0 again.
    pub(crate) refusals: [u64; CODES],
}

impl DeskFigures {
    /// Nothing is held or counted, and no desk is connected.
    pub(crate) fn none() -> DeskFigures
        ensures { result ≡ no_desk }
    {
        DeskFigures {
            edition: 0,
            mappings: 0,
            pending: 0,
            digest: 0,
            last_commit: 0,
            is_open: false,
            journal_failed: false,
            refusals: [0; CODES],
        }
    }

    /// Counts an event.
    pub(crate) fn count(&mut self, event: DeskEvent)
        ensures { self.new ≡ desk_counted self.old event }
    {
        match event {
            DeskEvent::Refused(code) => count_refusal(&mut self.refusals, code),
            DeskEvent::Committed(second) => self.last_commit = second,
            DeskEvent::Holds {
                edition,
                mappings,
                pending,
                digest,
            } => {
                self.edition = edition;
                self.mappings = mappings;
                self.pending = pending;
                self.digest = digest;
            }
            DeskEvent::Connected => self.is_open = true,
            DeskEvent::Left => self.is_open = false,
            DeskEvent::JournalFailed => self.journal_failed = true,
        }
    }
}

/// Adds one to the count of a code, if it is one.
fn count_refusal(refusals: &mut [u64; CODES], code: u8)
    ensures { refusals.new ≡ refusal_counted refusals.old code }
{
    if code >= 1 && code <= LAST_CODE {
        count_at(refusals, usize::from(code) - 1);
    }
}
