//! The index.
ghost use Rattle.std.specs.Prelude.{◌≡◌, ◌≤◌, ◌++◌, ◌∷◌, ℕ, [], All, Contains, IfOk, OnOk, OnErr};
ghost use Rattle.std.specs.List.{slice_range};
ghost use Rattle.std.specs.List.Sorted.{IsStrictlyIncreasing};
ghost use Rattle.lost_index.specs.Entries.{numbers, IsHeld, IsAbove, HasRegions, with_number, without, holders};
ghost use Rattle.lost_index.specs.Notes.{covers, TakesBack, TakesOut};

use crate::cell::Cell;
use crate::entry::Entry;
use crate::held::Held;
use crate::indexed_region::IndexedRegion;
use crate::kinds::Kinds;
use crate::{kinds, notes, search};
use lost_profile::Profile;
use std::alloc::{AllocError, Global};
use std::collections::HashMap;
use std::marker::Model;

/// Numbers with their regions, to find the numbers of a location. Contracts see it as the list of (number, regions), in
/// rising order of the numbers. Invariant: each region is noted in the cells of its cover's keys, and nothing else is;
/// the kinds of these keys are marked.
pub struct Index<P: Profile> {
    alloc: Global,
    held: Held<P>,
    cells: HashMap<P::Key, Cell<P>>,
    kinds: Kinds,
}

impl<P: Profile> Drop for Index<P> {
    fn drop(self) {
        let Index {
            alloc: _,
            held: _,
            cells: _,
            kinds: _,
        } = self;
    }
}

impl<P: Profile> Model for Index<P> {
    ghost use Rattle.std.specs.Prelude.{ℕ, List};
    ghost use Rattle.lost_index.specs.Kinds.{IsMarked};
    ghost use Rattle.lost_index.specs.Notes.{IsIndexed};

    ghost Value = { List (ℕ × List P.Region) };

    ghost view = { λ a. a.held };

    ghost invariant = { λ a. IsIndexed (IsMarked P.is_region P.cover_of P.kind_of a.kinds) P.cover_of P.outline_of P.Key.eq P.Outline.eq a.held a.cells };
}

impl<P: Profile> Index<P> {
    /// An empty index. It takes no memory.
    pub fn new(alloc: Global) -> Index<P>
        ensures { result ≡ [] }
    {
        Index {
            alloc,
            held: Held::new(alloc),
            cells: HashMap::new(alloc),
            kinds: Kinds::none(),
        }
    }

    /// Adds a number, above all that are held, with its regions. If memory is refused, the list is unchanged and the
    /// regions are dropped.
    pub fn put(&mut self, number: u64, regions: Vec<P::Region>) -> Result<(), AllocError>
        requires { IsAbove number self.old }
        ensures put { OnOk result (self.new ≡ self.old ++ (number, regions.items) ∷ []) }
        ensures refused { OnErr result (self.new ≡ self.old) }
    {
        let entry = Entry::new(self.alloc, regions)?;
        notes::add_notes(
            &mut self.cells,
            self.alloc,
            number,
            entry.kept(),
            none(entry.kept()),
        )?;
        kinds::mark_covers(&mut self.kinds, entry.kept());
        hold(&mut self.held, &mut self.cells, number, entry)
    }

    /// Adds regions to a held number. If memory is refused, the list is unchanged and the new regions are dropped.
    pub fn add(&mut self, number: u64, regions: Vec<P::Region>) -> Result<(), AllocError>
        requires { IsHeld number self.old }
        ensures added { OnOk result (self.new ≡ with_number number (λ held. held ++ regions.items) self.old) }
        ensures refused { OnErr result (self.new ≡ self.old) }
    {
        let mut entry = Entry::new(self.alloc, regions)?;
        let remaining = self.held.kept_of(number);
        notes::add_notes(&mut self.cells, self.alloc, number, entry.kept(), remaining)?;
        kinds::mark_covers(&mut self.kinds, entry.kept());
        if let Err(refused) = self.held.append(number, &mut entry) {
            let remaining = self.held.kept_of(number);
            notes::remove_notes(&mut self.cells, number, entry.kept(), remaining);
            return Err(refused);
        }
        Ok(())
    }

    /// Keeps only the regions of a held number at the positions from `from` up to before `to`, which is at most their
    /// number. It takes no memory.
    pub fn cut(&mut self, number: u64, from: usize, to: usize)
        requires held { IsHeld number self.old }
        requires in_order { from ≤ to }
        requires within { HasRegions to number self.old }
        ensures { self.new ≡ with_number number (λ held. slice_range held from to) self.old }
    {
        let kept = self.held.kept_of(number);
        notes::remove_rest_notes(&mut self.cells, number, kept, from, to);
        self.held.cut(number, from, to);
    }

    /// Removes a held number with its regions. It takes no memory.
    pub fn take(&mut self, number: u64)
        requires { IsHeld number self.old }
        ensures { self.new ≡ without number self.old }
    {
        let entry = self.held.remove(number);
        notes::remove_notes(&mut self.cells, number, entry.kept(), none(entry.kept()));
    }

    /// Numbers with a region whose outline may contain the location, rising, each once. Each number with a region that
    /// contains it is among them. No region is asked.
    pub fn near(&self, location: &P::Location) -> Result<Vec<u64>, AllocError>
        ensures holders { IfOk result (λ near. (number : ℕ)
            → Contains (holders P.holds location.now self.now) number → Contains near.items number) }
        ensures held { IfOk result (λ near. All (λ number. IsHeld number self.now) near.items) }
        ensures rising { IfOk result (λ near. IsStrictlyIncreasing near.items) }
        ensures is_location { P.is_location location.now }
    {
        self.held.numbers_rise();
        let mut near = search::found(&self.cells, &self.kinds, self.alloc, location)?;
        near.sort_unstable();
        near.dedup();
        Ok(near)
    }

    /// The numbers with a region that contains the location, rising, each once.
    pub fn holding(&self, location: &P::Location) -> Result<Vec<u64>, AllocError>
        ensures holding { IfOk result (λ found. found.items ≡ holders P.holds location.now self.now) }
        ensures rising { IfOk result (λ found. IsStrictlyIncreasing found.items) }
    {
        self.held.numbers_rise();
        let mut found = self.near(location)?;
        found.retain(|number| self.held.contains(*number, location));
        Ok(found)
    }
}

/// None of the regions.
fn none<P: Profile>(kept: &[IndexedRegion<P>]) -> &[IndexedRegion<P>]
    ensures { result.now ≡ [] }
{
    &kept[..0]
}

/// Holds a number, above all that are held, with its regions, under whose keys it was noted. If memory is refused, the
/// number is not held, and its notes are removed.
fn hold<P: Profile>(
    held: &mut Held<P>,
    cells: &mut HashMap<P::Key, Cell<P>>,
    number: u64,
    entry: Entry<P>,
) -> Result<(), AllocError>
    requires { IsAbove number held.old }
    ensures put { OnOk result (held.new ≡ held.old ++ (number, entry) ∷ []) }
    ensures noted { OnOk result (cells.new ≡ cells.old) }
    ensures refused { OnErr result (held.new ≡ held.old) }
    ensures taken { OnErr result (TakesOut P.Key.eq P.Outline.eq P.cover_of P.outline_of number []
        (covers P.Key.eq P.cover_of entry) cells.old cells.new) }
    ensures fewer { OnErr result (TakesBack P.Key.eq P.Outline.eq cells.old cells.new) }
{
    let Err(entry) = held.put(number, entry) else {
        return Ok(());
    };
    notes::remove_notes(cells, number, entry.kept(), none(entry.kept()));
    Err(AllocError)
}
