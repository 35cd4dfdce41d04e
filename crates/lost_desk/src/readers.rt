//! The readers of a desk, each of which is taken once.
ghost use Rattle.std.specs.Prelude.{◌≡◌, ◌+◌, replicate, length, MatchOption};

use crate::reader::Reader;
use std::marker::Model;
use std::snapshot::Snapshot;

/// The readers that nobody has taken. Contracts see how many are left, and what each one is.
#[derive(Drop)]
pub struct Readers {
    readers: Vec<Reader>,
    each: Snapshot<Reader>,
}

impl Model for Readers {
    ghost use Rattle.std.specs.Prelude.{◌≡◌, length, replicate};
    ghost use Rattle.lost_desk.specs.Seen.{ReadersSeen};

    ghost Value = { ReadersSeen };

    ghost view = { λ r. record { left = length r.readers.items; each = r.each.value } };

    ghost invariant = { λ r. r.readers.items ≡ replicate (length r.readers.items) r.each.value };
}

impl Readers {
    /// These readers, which are all the same.
    pub(crate) fn of(readers: Vec<Reader>, each: Snapshot<Reader>) -> Readers
        requires { readers.items ≡ replicate (length readers.items) each.value }
        ensures left { result.left ≡ length readers.items }
        ensures each { result.each ≡ each.value }
    {
        Readers { readers, each }
    }

    /// A reader that nobody has taken; `None` if all were taken.
    pub fn take(&mut self) -> Option<Reader>
        ensures { MatchOption result
            ((self.old.left ≡ 0) × (self.new ≡ self.old))
            (λ reader. (reader ≡ self.old.each) × (self.new.each ≡ self.old.each) × (self.new.left + 1 ≡ self.old.left)) }
    {
        self.readers.pop()
    }
}
