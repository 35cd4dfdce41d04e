//! The numbers noted under one key.
ghost use Rattle.std.specs.Prelude.{◌≡◌, ◌≢◌, ◌≤◌, ◌<◌, ◌-◌, ◌∷◌, ℕ, [], length, slice_index_or, IfOk, OnOk, OnErr, IsTrue, ◌↔◌};
ghost use Rattle.std.specs.List.Sorted.{IsNonDecreasing};
ghost use Rattle.lost_tables.specs.Lists.{Stands, Lacks, HaveTheSame, KeepsOthersIn};

use smallvec::SmallVec;
use std::alloc::{AllocError, Global};
use std::marker::Model;

/// One in this many numbers may repeat the one before.
const SHARE: usize = 64;

/// The numbers noted under one key, rising. Contracts see it as their list. The next number takes the room of a removed
/// one, and then stands there twice. If more than one in 64 may be such a repetition, all repetitions go. So a removal
/// seldom moves the numbers behind, however many there are.
#[derive(Drop)]
pub(crate) struct Cell {
    numbers: SmallVec<u64, 1>,
    /// An upper bound on the numbers that repeat the one before.
    repeated: usize,
}

impl Model for Cell {
    ghost use Rattle.std.specs.Prelude.{ℕ, List};
    ghost use Rattle.std.specs.List.Sorted.{IsNonDecreasing};

    ghost Value = { List ℕ };

    ghost view = { λ a. a.numbers.items };

    ghost invariant = { λ a. IsNonDecreasing a.numbers.items };
}

impl Cell {
    /// A cell of one number, which takes no memory of its own.
    pub(crate) fn of(alloc: Global, number: u64) -> Result<Cell, AllocError>
        ensures { IfOk result (λ cell. cell ≡ number ∷ []) }
    {
        let mut numbers = SmallVec::new(alloc);
        numbers.push(number)?;
        Ok(Cell {
            numbers,
            repeated: 0,
        })
    }

    /// The numbers.
    pub(crate) fn numbers(&self) -> &[u64]
        ensures { result.now ≡ self.now }
    {
        &self.numbers
    }

    /// Whether no number is noted.
    pub(crate) fn is_empty(&self) -> bool
        ensures { IsTrue result ↔ (self.now ≡ []) }
    {
        self.numbers.is_empty()
    }

    /// Adds the number, unless it is there. If memory is refused, nothing changes.
    pub(crate) fn add(&mut self, number: u64) -> Result<(), AllocError>
        ensures added { OnOk result (Stands number self.new) }
        ensures keeps { (other : _) → Stands other self.old → Stands other self.new }
        ensures refused { OnErr result (self.new ≡ self.old) }
    {
        if is_past(&self.numbers, number) {
            return Ok(self.numbers.push(number)?);
        }
        if let Err(position) = self.numbers.binary_search(&number) {
            self.numbers.insert(position, number)?;
        }
        Ok(())
    }

    /// Removes the number.
    pub(crate) fn remove(&mut self, number: u64)
        ensures others { KeepsOthersIn number self.old self.new }
        ensures gone { Lacks number self.new }
    {
        if let Ok(position) = self.numbers.binary_search(&number) {
            leave_room(&mut self.numbers, number, position);
            self.repeated = self.repeated.saturating_add(1);
            self.drop_repeated();
        }
    }

    /// Drops the repetitions if there may be too many.
    fn drop_repeated(&mut self)
        ensures { HaveTheSame self.old self.new }
    {
        if self.repeated > self.numbers.len() / SHARE {
            self.numbers.dedup();
            self.repeated = 0;
        }
    }
}

/// Whether a number is above the last of these.
fn is_past(numbers: &[u64], number: u64) -> bool
    ensures { IsTrue result → 0 < length numbers.now → slice_index_or numbers.now (length numbers.now - 1) 0 < number }
{
    match numbers.last() {
        Some(last) => *last < number,
        None => true,
    }
}

/// Gives the room of the number at a position to the next number. The last number's room goes.
fn leave_room(numbers: &mut SmallVec<u64, 1>, number: u64, position: usize)
    requires within { position < length numbers.old.items }
    requires there { slice_index_or numbers.old.items position 0 ≡ number }
    requires rising { IsNonDecreasing numbers.old.items }
    ensures others { KeepsOthersIn number numbers.old.items numbers.new.items }
    ensures gone { Lacks number numbers.new.items }
    ensures rising { IsNonDecreasing numbers.new.items }
{
    let end = end_of(numbers, number, position);
    match numbers.get(end) {
        Some(next) => {
            let next = *next;
            write_over(numbers, number, next, end);
        }
        None => pop_all(numbers, number),
    }
}

/// The end of a number's run, from a position in the run.
fn end_of(numbers: &[u64], number: u64, position: usize) -> usize
    requires within { position < length numbers.now }
    requires there { slice_index_or numbers.now position 0 ≡ number }
    ensures some { 0 < result }
    ensures within { result ≤ length numbers.now }
    ensures last { slice_index_or numbers.now (result - 1) 0 ≡ number }
    ensures ends { result < length numbers.now → slice_index_or numbers.now result 0 ≢ number }
{
    let mut end = position + 1;
    while end < numbers.len() && numbers[end] == number {
        end += 1;
    }
    end
}

/// Writes another number over each copy of a number that stands before a position. Before the position no number is
/// greater. From there on none is less than the other.
fn write_over(numbers: &mut [u64], number: u64, other: u64, end: usize)
    requires within { end ≤ length numbers.old }
    requires rising { IsNonDecreasing numbers.old }
    requires below { (k : ℕ) → k < end → slice_index_or numbers.old k 0 ≤ number }
    requires less { number < other }
    requires above { (k : ℕ) → end ≤ k → k < length numbers.old → other ≤ slice_index_or numbers.old k 0 }
    ensures others { KeepsOthersIn number numbers.old numbers.new }
    ensures gone { Lacks number numbers.new }
    ensures rising { IsNonDecreasing numbers.new }
{
    let mut start = end;
    while start > 0 && numbers[start - 1] == number {
        start -= 1;
        numbers[start] = other;
    }
}

/// Removes each copy of a number from the end. No number is greater.
fn pop_all(numbers: &mut SmallVec<u64, 1>, number: u64)
    requires rising { IsNonDecreasing numbers.old.items }
    requires below { (k : ℕ) → k < length numbers.old.items → slice_index_or numbers.old.items k 0 ≤ number }
    ensures others { KeepsOthersIn number numbers.old.items numbers.new.items }
    ensures gone { Lacks number numbers.new.items }
    ensures rising { IsNonDecreasing numbers.new.items }
{
    while numbers.last() == Some(&number) {
        numbers.pop();
    }
}
