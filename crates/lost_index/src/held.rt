//! The held numbers with their regions.
ghost use Rattle.std.specs.Prelude.{◌≡◌, ◌≤◌, ◌++◌, ◌∷◌, [], Some, IfErr, OnOk, OnErr};
ghost use Rattle.std.specs.List.{slice_range};
ghost use Rattle.lost_index.specs.Chunks.{AreRising};
ghost use Rattle.lost_index.specs.Entries.{regions_of, IsHeld, IsAbove, HasRegions, with_number, without, is_holder};

use crate::entry::Entry;
use crate::indexed_region::IndexedRegion;
use crate::{chunks, entries};
use lost_profile::Profile;
use std::alloc::{AllocError, Global};
use std::marker::Model;

/// The held numbers, each with its regions, in chunks: a number more takes little more memory than its entry. Contracts
/// see it as the list of (number, regions), in rising order of the numbers.
pub(crate) struct Held<P: Profile> {
    alloc: Global,
    chunks: Vec<Vec<(u64, Entry<P>)>>,
}

impl<P: Profile> Drop for Held<P> {
    fn drop(self) {
        let Held {
            alloc: _,
            chunks: _,
        } = self;
    }
}

impl<P: Profile> Model for Held<P> {
    ghost use Rattle.std.specs.Prelude.{ℕ, List};
    ghost use Rattle.lost_index.specs.Chunks.{AreChunks, rows_of};

    ghost Value = { List (ℕ × List P.Region) };

    ghost view = { λ a. rows_of a.chunks.items };

    ghost invariant = { λ a. AreChunks a.chunks.items };
}

impl<P: Profile> Held<P> {
    /// No numbers. It takes no memory.
    pub(crate) fn new(alloc: Global) -> Held<P>
        ensures { result ≡ [] }
    {
        Held {
            alloc,
            chunks: Vec::new(alloc),
        }
    }

    /// Shows to a proof that the numbers rise.
    pub(crate) fn numbers_rise(&self)
        ensures { AreRising self.now }
    {
        let _chunks = &self.chunks;
    }

    /// The regions of a held number.
    pub(crate) fn kept_of(&self, number: u64) -> &[IndexedRegion<P>]
        requires { IsHeld number self.now }
        ensures { regions_of self.now number ≡ Some result.now }
    {
        match chunks::get(&self.chunks, number) {
            Some(entry) => entry.kept(),
            None => unreachable!(),
        }
    }

    /// Whether the number is held, with a region that contains the location.
    pub(crate) fn contains(&self, number: u64, location: &P::Location) -> bool
        ensures { result ≡ is_holder P.holds location.now self.now number }
    {
        match chunks::get(&self.chunks, number) {
            Some(entry) => entry.contains(location),
            None => false,
        }
    }

    /// Adds a number with its regions at the end. If memory is refused, nothing changes and the regions are given back.
    pub(crate) fn put(&mut self, number: u64, entry: Entry<P>) -> Result<(), Entry<P>>
        requires { IsAbove number self.old }
        ensures put { OnOk result (self.new ≡ self.old ++ (number, entry) ∷ []) }
        ensures refused { OnErr result (self.new ≡ self.old) }
        ensures given_back { IfErr result (λ back. back ≡ entry) }
    {
        chunks::put(&mut self.chunks, self.alloc, number, entry)
    }

    /// Adds regions to a held number. If memory is refused, nothing changes.
    pub(crate) fn append(&mut self, number: u64, more: &mut Entry<P>) -> Result<(), AllocError>
        requires { IsHeld number self.old }
        ensures appended { OnOk result (self.new ≡ with_number number (λ regions. regions ++ more.old) self.old) }
        ensures refused { OnErr result (self.new ≡ self.old) }
        ensures given_back { OnErr result (more.new ≡ more.old) }
    {
        entries::append(&mut self.chunks, number, more)
    }

    /// Keeps only the regions of a number at the positions from `from` up to before `to`. It takes no memory.
    pub(crate) fn cut(&mut self, number: u64, from: usize, to: usize)
        requires held { IsHeld number self.old }
        requires in_order { from ≤ to }
        requires within { HasRegions to number self.old }
        ensures { self.new ≡ with_number number (λ regions. slice_range regions from to) self.old }
    {
        entries::cut(&mut self.chunks, number, from, to);
    }

    /// Removes a held number. It takes no memory.
    pub(crate) fn remove(&mut self, number: u64) -> Entry<P>
        requires { IsHeld number self.old }
        ensures entry { regions_of self.old number ≡ Some result }
        ensures rest { self.new ≡ without number self.old }
        ensures rising { AreRising self.old }
    {
        chunks::remove(&mut self.chunks, number)
    }
}
