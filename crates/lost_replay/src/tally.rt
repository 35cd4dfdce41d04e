//! Counts that grow line by line.
ghost use Rattle.std.specs.Prelude.{◌≡◌};
ghost use Rattle.lost_replay.specs.Tally.{Counted};

use crate::Outcome;

/// The counts so far. A count stays at its greatest value.
#[derive(Clone, Copy, PartialEq, Eq, Debug)]
pub(crate) struct Tally {
    pub(crate) lines: u64,
    pub(crate) refused: u64,
    pub(crate) bad_requests: u64,
    pub(crate) unjudged: u64,
}

impl Tally {
    /// No counts yet.
    pub(crate) fn new() -> Tally
        ensures { result ≡ record { lines = 0; refused = 0; bad_requests = 0; unjudged = 0 } }
    {
        Tally {
            lines: 0,
            refused: 0,
            bad_requests: 0,
            unjudged: 0,
        }
    }

    /// Counts a line by the outcome of its answer.
    pub(crate) fn count(&mut self, outcome: Outcome)
        ensures { Counted self.old self.new outcome }
    {
        self.lines = self.lines.saturating_add(1);
        match outcome {
            Outcome::Answered | Outcome::Staged(_) | Outcome::Committed(_) => {}
            Outcome::Refused(_) => self.refused = self.refused.saturating_add(1),
            Outcome::BadRequest => self.bad_requests = self.bad_requests.saturating_add(1),
            Outcome::Unjudged => self.unjudged = self.unjudged.saturating_add(1),
        }
    }
}
