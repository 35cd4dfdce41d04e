//! What a file was asked so far, for clauses alone: no memory holds it.
ghost use Rattle.std.specs.Prelude.{◌≡◌, List, [], ◌∷◌};
ghost use Rattle.std.specs.Borrow.{ftrue};
ghost use Rattle.sqlite_disk.specs.Events.{Event};
ghost use Rattle.lost_journal_file.specs.Told.{event_of};

use std::marker::{Model, PhantomData};

/// The calls on a file with their answers, the newest first. Its two functions do nothing when they run, and are proved
/// by hand: what is told here is true only if the caller made that call and got that answer.
#[derive(Drop)]
pub struct Asked {
    nothing: PhantomData<u8>,
    pub ghost events: { List Event },
}

impl Model for Asked {
    ghost also_owns = { λ _. ftrue };
}

impl Asked {
    /// Nothing yet.
    pub(crate) fn none() -> Asked
        ensures { result.events ≡ [] }
    {
        Asked {
            nothing: PhantomData,
        }
    }

    /// One call more: its kind, two numbers and whether it succeeded (1), then a key and a digest if it has these, and
    /// its bytes.
    pub(crate) fn tell(&mut self, _numbers: &[u64], _bytes: &[u8])
        ensures { self.new.events ≡ event_of _numbers.now _bytes.now ∷ self.old.events }
    {}
}
