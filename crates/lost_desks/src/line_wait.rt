//! How long a desk has gone without a whole line.
ghost use Rattle.std.specs.Prelude.{◌≡◌};
ghost use Rattle.lost_desks.specs.LineWait.{first_wait, wait_after_read, wait_before_read};

use std::time::Duration;

/// Since when a desk has sent no whole line, and whether it ever sent one.
#[derive(Clone, Copy, PartialEq, Eq, Debug)]
pub struct LineWait {
    /// When the wait for a whole line began.
    pub since: Duration,
    /// Whether a whole line has come.
    pub has_line: bool,
    /// Whether one ended in the last read.
    pub is_at_line: bool,
}

impl LineWait {
    /// That of a turn that begins at `now`.
    pub(crate) fn new(now: Duration) -> LineWait
        ensures { result ≡ first_wait now }
    {
        LineWait {
            since: now,
            has_line: false,
            is_at_line: false,
        }
    }

    /// Before a read at `now`: behind a whole line the wait begins again.
    pub(crate) fn before_read(self, now: Duration) -> LineWait
        ensures { result ≡ wait_before_read self now }
    {
        if !self.is_at_line {
            return self;
        }
        LineWait {
            since: now,
            has_line: self.has_line,
            is_at_line: false,
        }
    }

    /// After a read that gave these bytes.
    pub(crate) fn after_read(self, bytes: &[u8]) -> LineWait
        ensures { result ≡ wait_after_read self bytes.now }
    {
        if !bytes.contains(&b'\n') {
            return self;
        }
        LineWait {
            since: self.since,
            has_line: true,
            is_at_line: true,
        }
    }
}
