//! How a disk fails.
use std::fmt;
use std::fmt::{Display, Formatter, Write};

/// What a failing call does nevertheless.
#[derive(Clone, Copy, PartialEq, Eq, Debug)]
pub(crate) enum Effect {
    /// Nothing.
    Nothing,
    /// All that it should, where it changes or flushes the file.
    Whole,
}

/// One call that fails.
#[derive(Clone, Copy, PartialEq, Eq, Debug)]
pub(crate) struct Flaw {
    /// How many calls come before it, but for those that fill the disk.
    pub(crate) before: u64,
    pub(crate) effect: Effect,
}

/// How a disk fails in a run.
#[derive(Clone, Copy, PartialEq, Eq, Debug)]
pub(crate) struct Plan {
    /// The call that fails while those behind it do not, if there is one.
    pub(crate) flaw: Option<Flaw>,
    /// How many calls come before the one at which the disk stops for good, but for those that fill it.
    pub(crate) calls: u64,
}

impl Plan {
    /// No call fails.
    pub(crate) const SOUND: Plan = Plan {
        flaw: None,
        calls: u64::MAX,
    };

    /// Whether a call fails.
    pub(crate) fn fails(self) -> bool {
        self.flaw.is_some() || self.calls < u64::MAX
    }
}

impl Display for Plan {
    fn fmt<W: Write>(&self, formatter: &mut Formatter<W>) -> fmt::Result {
        match self.flaw {
            Some(flaw) => write!(formatter, "{} calls, one that fails", flaw.before)?,
            None => write!(formatter, "no call that fails")?,
        }
        if self.calls == u64::MAX {
            return Ok(());
        }
        write!(formatter, ", a stop after {} calls", self.calls)
    }
}
