//! Picks the mappings that pass a test. Only those with their number among candidates are tested.
ghost use Rattle.std.specs.Prelude.{◌≡◌, Bool, position, nat_eq, length, IfOk, filter_map, slice_get};
ghost use Rattle.std.specs.Fn.{FnReturnsAt};
ghost use Rattle.std.specs.List.{list_any};
ghost use Rattle.std.specs.List.Sorted.{IsStrictlySortedBy};
ghost use Rattle.std.specs.Ordering.{nat_cmp};
ghost use Rattle.lost_spec.specs.Mapping as spec;
ghost use Rattle.lost_spec.specs.Positions.{positions};
ghost use Rattle.lost_tables.specs.Picks.{Covers, AreBelow, AreAbove, passing, lesser as lesser_of};

use crate::numbered::NumberedMappings;
use lost_mapping::Mapping;
use smallvec::SmallVec;
use std::alloc::{AllocError, Global};

/// The numbers of mappings that are put one after another are this far apart, so that a number can also tell something
/// of its mapping.
pub const SPREAD: u64 = 64;

/// How far below the place that it names a number is looked for, step by step.
const REACHES: [usize; 5] = [1, 8, 64, 512, 4_096];

/// The position of a number among rising numbers. It takes no memory.
pub fn position_of(rows: &NumberedMappings, number: u64) -> Option<usize>
    requires rising { IsStrictlySortedBy nat_cmp rows.now.numbers }
    ensures { result ≡ position (nat_eq number) rows.now.numbers }
{
    let likely = likely_position(rows, number);
    match rows.number(likely) {
        Some(there) if there == number => Some(likely),
        _ => searched_position(rows, number),
    }
}

/// The likely position of a number among rising numbers; the caller checks it. A number names the place `number /
/// SPREAD`. Where the numbers were put one after another, the position is at most that, lower by the count of numbers
/// left out below it: mostly few. So the search begins there and reaches down, which reads fewer far parts of a long
/// list than halving does.
fn likely_position(rows: &NumberedMappings, number: u64) -> usize
    requires rising { IsStrictlySortedBy nat_cmp rows.now.numbers }
{
    let place = (number / SPREAD) as usize;
    let end = rows.len().min(place.saturating_add(1));
    for reach in REACHES {
        let start = end.saturating_sub(reach);
        let Some(first) = rows.number(start) else {
            return end;
        };
        if first == number {
            return start;
        }
        if first < number {
            return halved(rows, number, start, end);
        }
    }
    end
}

/// The position of a number among rising numbers, by a search of all of them.
fn searched_position(rows: &NumberedMappings, number: u64) -> Option<usize>
    requires rising { IsStrictlySortedBy nat_cmp rows.now.numbers }
    ensures { result ≡ position (nat_eq number) rows.now.numbers }
{
    let found = halved(rows, number, 0, rows.len());
    match rows.number(found) {
        Some(there) if there == number => Some(found),
        _ => None,
    }
}

/// The end of the numbers below a number, among rising numbers from `start` to `end`.
fn halved(rows: &NumberedMappings, number: u64, start: usize, end: usize) -> usize
    requires rising { IsStrictlySortedBy nat_cmp rows.now.numbers }
    ensures below { AreBelow number rows.now.numbers start → AreBelow number rows.now.numbers result }
    ensures above { AreAbove number rows.now.numbers end → AreAbove number rows.now.numbers result }
{
    let mut low = start;
    let mut high = end;
    while low < high {
        let middle = low + (high - low) / 2;
        match rows.number(middle) {
            Some(there) if there < number => low = middle + 1,
            _ => high = middle,
        }
    }
    low
}

/// The positions, rising, of the mappings that pass a test. The numbers rise. The candidates contain the
/// number of each mapping that passes, in any order, and may contain others. Up to two positions take no memory.
pub fn select<F: Fn(&Mapping) -> bool>(
    alloc: Global,
    rows: &NumberedMappings,
    candidates: &[u64],
    passes: F,
) -> Result<SmallVec<usize, 2>, AllocError>
    requires callable { F.IsAlwaysCallable passes }
    requires rising { IsStrictlySortedBy nat_cmp rows.now.numbers }
    ensures { (test : spec.Mapping → Bool) → ((m : spec.Mapping) (r : Bool) → FnReturnsAt F.Fn passes m r → r ≡ test m)
        → Covers test rows.now.numbers rows.now.mappings candidates.now
        → IfOk result (λ found. found.items ≡ positions test rows.now.mappings) }
{
    are_paired(rows);
    let mut found = SmallVec::new(alloc);
    for candidate in candidates {
        if let Some(position) = passing_position(rows, *candidate, &passes) {
            found.push(position)?;
        }
    }
    found.as_mut_slice().sort_unstable();
    found.dedup();
    Ok(found)
}

/// The position of the first mapping that passes a test. The numbers rise. The candidates contain the
/// number of each mapping that passes, in any order, and may contain others. It takes no memory.
pub fn first<F: Fn(&Mapping) -> bool>(
    rows: &NumberedMappings,
    candidates: &[u64],
    passes: F,
) -> Option<usize>
    requires callable { F.IsAlwaysCallable passes }
    requires rising { IsStrictlySortedBy nat_cmp rows.now.numbers }
    ensures { (test : spec.Mapping → Bool) → ((m : spec.Mapping) (r : Bool) → FnReturnsAt F.Fn passes m r → r ≡ test m)
        → Covers test rows.now.numbers rows.now.mappings candidates.now
        → result ≡ position test rows.now.mappings }
{
    are_paired(rows);
    let mut least = None;
    for candidate in candidates {
        least = lesser(least, passing_position(rows, *candidate, &passes));
    }
    least
}

/// The position of a mapping that passes a test, the first by the order of the candidates. The numbers of the rows
/// rise. It takes no memory.
pub fn one<F: Fn(&Mapping) -> bool>(
    rows: &NumberedMappings,
    candidates: &[u64],
    passes: F,
) -> Option<usize>
    requires callable { F.IsAlwaysCallable passes }
    requires rising { IsStrictlySortedBy nat_cmp rows.now.numbers }
    ensures { (test : spec.Mapping → Bool) → ((m : spec.Mapping) (r : Bool) → FnReturnsAt F.Fn passes m r → r ≡ test m)
        → result ≡ slice_get (filter_map (passing test rows.now.numbers rows.now.mappings) candidates.now) 0 }
{
    for candidate in candidates {
        let position = passing_position(rows, *candidate, &passes);
        if position.is_some() {
            return position;
        }
    }
    None
}

/// Whether some mapping passes a test. The numbers rise. The candidates contain the number of each mapping
/// that passes, in any order, and may contain others. It takes no memory.
pub fn any<F: Fn(&Mapping) -> bool>(rows: &NumberedMappings, candidates: &[u64], passes: F) -> bool
    requires callable { F.IsAlwaysCallable passes }
    requires rising { IsStrictlySortedBy nat_cmp rows.now.numbers }
    ensures { (test : spec.Mapping → Bool) → ((m : spec.Mapping) (r : Bool) → FnReturnsAt F.Fn passes m r → r ≡ test m)
        → Covers test rows.now.numbers rows.now.mappings candidates.now
        → result ≡ list_any test rows.now.mappings }
{
    are_paired(rows);
    for candidate in candidates {
        if passing_position(rows, *candidate, &passes).is_some() {
            return true;
        }
    }
    false
}

/// The position of the mapping with a number, if it passes a test.
fn passing_position<F: Fn(&Mapping) -> bool>(
    rows: &NumberedMappings,
    number: u64,
    passes: &F,
) -> Option<usize>
    requires callable { F.IsAlwaysCallable passes.now }
    requires rising { IsStrictlySortedBy nat_cmp rows.now.numbers }
    ensures { (test : spec.Mapping → Bool) → ((m : spec.Mapping) (r : Bool) → FnReturnsAt F.Fn passes.now m r → r ≡ test m)
        → result ≡ passing test rows.now.numbers rows.now.mappings number }
{
    are_paired(rows);
    let position = position_of(rows, number)?;
    if passes(rows.at(position)) {
        Some(position)
    } else {
        None
    }
}

/// There are as many numbers as mappings.
fn are_paired(rows: &NumberedMappings)
    ensures { length rows.now.numbers ≡ length rows.now.mappings }
{
    let _len = rows.len();
}

/// The lesser of two positions, if there are any.
fn lesser(one: Option<usize>, other: Option<usize>) -> Option<usize>
    ensures { result ≡ lesser_of one other }
{
    match (one, other) {
        (Some(one), Some(other)) => Some(if one < other { one } else { other }),
        (Some(one), None) => Some(one),
        (None, other) => other,
    }
}
