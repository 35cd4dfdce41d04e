//! Adding notes of a number under the keys of its regions, and removing them.
ghost use Rattle.std.specs.Prelude.{◌≤◌, ◌&&◌, true, length, All, OnOk, OnErr};
ghost use Rattle.std.specs.List.{list_any, slice_range};
ghost use Rattle.lost_index.specs.Notes.{HasNote, IsUnder, KeepsNotes, KeepsOthers, KeepsUnder, HaveNotes, AddsAtMost, TakesBack, IsNotedOnlyFor, TakesOut, covers, covers_with};

use crate::cell::Cell;
use crate::cells;
use crate::indexed_region::IndexedRegion;
use crate::note::Note;
use lost_profile::Profile;
use std::alloc::{AllocError, Global};
use std::collections::HashMap;

/// Notes a number under the keys of new regions. If memory is refused, no new note is left. The notes of other numbers
/// stay, and so do those under the keys of `remaining`.
pub(crate) fn add_notes<P: Profile>(
    cells: &mut HashMap<P::Key, Cell<P>>,
    alloc: Global,
    number: u64,
    new: &[IndexedRegion<P>],
    remaining: &[IndexedRegion<P>],
) -> Result<(), AllocError>
    ensures added { OnOk result (HaveNotes P.Key.eq P.Outline.eq P.cover_of P.outline_of number new.now cells.new) }
    ensures others { KeepsOthers P.Key.eq P.Outline.eq number cells.old cells.new }
    ensures remaining { KeepsUnder P.Key.eq P.Outline.eq (IsUnder P.cover_of P.outline_of remaining.now) cells.old cells.new }
    ensures only { OnOk result (AddsAtMost P.Key.eq P.Outline.eq number
        (covers_with P.Key.eq P.Outline.eq P.cover_of P.outline_of new.now) cells.old cells.new) }
    ensures refused { OnErr result (AddsAtMost P.Key.eq P.Outline.eq number
        (covers_with P.Key.eq P.Outline.eq P.cover_of P.outline_of remaining.now) cells.old cells.new) }
{
    if add_all_notes(cells, alloc, number, new).is_err() {
        remove_notes(cells, number, new, remaining);
        return Err(AllocError);
    }
    Ok(())
}

/// Notes a number under the keys of regions. Earlier notes stay. If memory is refused, some new ones may be left.
fn add_all_notes<P: Profile>(
    cells: &mut HashMap<P::Key, Cell<P>>,
    alloc: Global,
    number: u64,
    new: &[IndexedRegion<P>],
) -> Result<(), AllocError>
    ensures added { OnOk result (HaveNotes P.Key.eq P.Outline.eq P.cover_of P.outline_of number new.now cells.new) }
    ensures keeps { KeepsNotes P.Key.eq P.Outline.eq cells.old cells.new }
    ensures only { AddsAtMost P.Key.eq P.Outline.eq number
        (covers_with P.Key.eq P.Outline.eq P.cover_of P.outline_of new.now) cells.old cells.new }
{
    for one in new {
        let note = Note {
            number,
            outline: one.outline(),
        };
        add_notes_under(cells, alloc, note, one)?;
    }
    Ok(())
}

/// Adds a note under the keys of a region. Earlier notes stay. If memory is refused, some new ones may be left.
fn add_notes_under<P: Profile>(
    cells: &mut HashMap<P::Key, Cell<P>>,
    alloc: Global,
    note: Note<P::Outline>,
    one: &IndexedRegion<P>,
) -> Result<(), AllocError>
    ensures added { OnOk result (All (λ key. HasNote P.Key.eq P.Outline.eq cells.new key note.number note.outline) (P.cover_of one.now)) }
    ensures keeps { KeepsNotes P.Key.eq P.Outline.eq cells.old cells.new }
    ensures only { AddsAtMost P.Key.eq P.Outline.eq note.number
        (λ key outline. P.Outline.eq outline note.outline && list_any (P.Key.eq key) (P.cover_of one.now)) cells.old cells.new }
{
    for position in 0..one.key_room() {
        let Some(key) = one.key_at(position) else {
            return Ok(());
        };
        cells::add_note(cells, alloc, key, note)?;
    }
    Ok(())
}

/// Removes the notes of a number under the keys of regions, other than those with the outline of one of `remaining`
/// that has the key in its cover too.
pub(crate) fn remove_notes<P: Profile>(
    cells: &mut HashMap<P::Key, Cell<P>>,
    number: u64,
    gone: &[IndexedRegion<P>],
    remaining: &[IndexedRegion<P>],
)
    ensures taken { TakesOut P.Key.eq P.Outline.eq P.cover_of P.outline_of number remaining.now
        (covers P.Key.eq P.cover_of gone.now) cells.old cells.new }
    ensures fewer { TakesBack P.Key.eq P.Outline.eq cells.old cells.new }
{
    for one in gone {
        remove_notes_under(cells, number, one, remaining);
    }
}

/// Removes the notes of a number under the keys of regions, but keeps those of the regions from position `from` up to
/// before `to`.
pub(crate) fn remove_rest_notes<P: Profile>(
    cells: &mut HashMap<P::Key, Cell<P>>,
    number: u64,
    kept: &[IndexedRegion<P>],
    from: usize,
    to: usize,
)
    requires in_order { from ≤ to }
    requires within { to ≤ length kept.now }
    ensures others { KeepsOthers P.Key.eq P.Outline.eq number cells.old cells.new }
    ensures remaining { KeepsUnder P.Key.eq P.Outline.eq (IsUnder P.cover_of P.outline_of (slice_range kept.now from to)) cells.old cells.new }
    ensures fewer { TakesBack P.Key.eq P.Outline.eq cells.old cells.new }
    ensures gone { IsNotedOnlyFor P.Key.eq P.Outline.eq P.cover_of P.outline_of number kept.now (λ key. true) cells.old
        → IsNotedOnlyFor P.Key.eq P.Outline.eq P.cover_of P.outline_of number (slice_range kept.now from to) (λ key. true) cells.new }
{
    let remaining = &kept[from..to];
    remove_notes(cells, number, &kept[..from], remaining);
    remove_notes(cells, number, &kept[to..], remaining);
}

/// Removes the notes of a number under the keys of a region, but keeps those of the regions `remaining`.
fn remove_notes_under<P: Profile>(
    cells: &mut HashMap<P::Key, Cell<P>>,
    number: u64,
    one: &IndexedRegion<P>,
    remaining: &[IndexedRegion<P>],
)
    ensures taken { TakesOut P.Key.eq P.Outline.eq P.cover_of P.outline_of number remaining.now
        (λ key. list_any (P.Key.eq key) (P.cover_of one.now)) cells.old cells.new }
    ensures fewer { TakesBack P.Key.eq P.Outline.eq cells.old cells.new }
{
    for position in 0..one.key_room() {
        let Some(key) = one.key_at(position) else {
            return;
        };
        cells::remove_note(cells, &key, number, remaining);
    }
}
