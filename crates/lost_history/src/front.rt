//! Beginnings of a history.
ghost use Rattle.std.specs.Prelude.{◌≡◌, ◌<◌, [], length, MatchBool, OnOk, OnErr, IfErr};
ghost use Rattle.lost_spec.specs.Laws.{BeginsWith};
ghost use Rattle.lost_history.specs.History.{beginning, longer};

use crate::change::Change;
use crate::head::Head;
use crate::rule::{Aim, Nothing, Reaches, Rises};
use logbook::{Offer, Seen};
use std::marker::Model;

/// A beginning of a history. Contracts see its opening and its list of edits. At run time it is the list's length.
pub struct Front {
    count: u64,
    seen: Seen<Change, u64, Rises>,
}

impl Drop for Front {
    fn drop(self) {
        let Front { count: _, seen: _ } = self;
    }
}

impl Model for Front {
    ghost use Rattle.std.specs.Prelude.{◌≡◌, length};
    ghost use Rattle.lost_history.specs.History.{Beginning, beginning};

    ghost Value = { Beginning };

    ghost view = { λ f. beginning f.seen.book f.seen.log };

    ghost invariant = { λ f. f.count ≡ length f.seen.log };
}

impl Front {
    /// The front of a history that was just opened.
    pub(crate) fn first(seen: Seen<Change, u64, Rises>) -> Front
        requires { seen.log ≡ [] }
        ensures { result ≡ beginning seen.book [] }
    {
        Front { count: 0, seen }
    }

    /// The number of its edits.
    pub fn len(&self) -> u64
        ensures { result ≡ length self.now.list }
    {
        self.count
    }

    /// A copy. It takes no memory.
    pub fn again(&self) -> Front
        ensures { result ≡ self.now }
    {
        Front {
            count: self.count,
            seen: self.seen.again(),
        }
    }

    /// Becomes the longer of two fronts of one history. Both begin it.
    pub fn learn(&mut self, other: &Front)
        requires { other.now.opening ≡ self.old.opening }
        ensures longer { self.new ≡ beginning self.old.opening (longer self.old.list other.now.list) }
        ensures this { BeginsWith self.new.list self.old.list }
        ensures that { BeginsWith self.new.list other.now.list }
    {
        self.meet(other);
        if self.count < other.count {
            *self = other.again();
        }
    }

    /// Whether another front of one history is no longer, and so begins this one. If not, this one begins the other.
    pub fn has(&self, other: &Front) -> bool
        requires { other.now.opening ≡ self.now.opening }
        ensures { MatchBool result
            (BeginsWith self.now.list other.now.list)
            ((length self.now.list < length other.now.list) × BeginsWith other.now.list self.now.list) }
    {
        self.meet(other);
        other.count <= self.count
    }

    /// Shows to the proof that the longer of two fronts of one history begins with both.
    fn meet(&self, other: &Front)
        requires { other.now.opening ≡ self.now.opening }
        ensures this { BeginsWith (longer self.now.list other.now.list) self.now.list }
        ensures that { BeginsWith (longer self.now.list other.now.list) other.now.list }
    {
        let mut both = self.seen.again();
        both.learn(&other.seen);
    }

    /// Makes the history the list of an aim, which the front begins.
    ///
    /// # Errors
    ///
    /// A front that is longer than this one, if the history was longer. The owner of the only head never sees this.
    /// This front is then unchanged.
    pub fn reach<A: Aim>(&mut self, head: &Head, to: u64) -> Result<(), Front>
        requires opening { head.now ≡ self.old.opening }
        requires begins { BeginsWith A.list self.old.list }
        requires length { to ≡ length A.list }
        ensures reached { OnOk result (self.new ≡ beginning self.old.opening A.list) }
        ensures unchanged { OnErr result (self.new ≡ self.old) }
        ensures longer { IfErr result (λ longer. (longer.opening ≡ self.old.opening)
            × BeginsWith longer.list self.old.list × (length self.old.list < length longer.list)) }
    {
        let mut seen = self.seen.again();
        let mut offer: Offer<Change, u64, Rises, Nothing> = seen.plain::<Nothing, (), Reaches<A>>(
            &(),
        );
        let mut pen = seen.no_pen();
        let found = head
            .word
            .compare_exchange::<Reaches<A>, Nothing>(
                self.count, to, &mut seen, &mut offer, &mut pen,
            );
        if found != self.count {
            return Err(Front { count: found, seen });
        }
        *self = Front { count: to, seen };
        Ok(())
    }
}
