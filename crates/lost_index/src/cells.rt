//! The cells: the notes under each key.
ghost use Rattle.std.specs.Prelude.{◌≡◌, ◌≢◌, ◌&&◌, [], None, false, OnOk, IfSome, IsTrue, IsFalse};
ghost use Rattle.std.specs.HashMap.{get};
ghost use Rattle.lost_index.specs.Notes.{notes_of, HasNote, KeepsNotes, AddsAtMost, TakesBack, TakesOut};

use crate::cell::Cell;
use crate::indexed_region::IndexedRegion;
use crate::note::Note;
use lost_profile::Profile;
use std::alloc::{AllocError, Global};
use std::collections::HashMap;

/// Adds a note under a key. Earlier notes stay.
pub(crate) fn add_note<P: Profile>(
    cells: &mut HashMap<P::Key, Cell<P>>,
    alloc: Global,
    key: P::Key,
    note: Note<P::Outline>,
) -> Result<(), AllocError>
    ensures added { OnOk result (HasNote P.Key.eq P.Outline.eq cells.new key note.number note.outline) }
    ensures keeps { KeepsNotes P.Key.eq P.Outline.eq cells.old cells.new }
    ensures only { AddsAtMost P.Key.eq P.Outline.eq note.number (λ other outline. P.Outline.eq outline note.outline && P.Key.eq other key) cells.old cells.new }
{
    if let Some(cell) = cells.get_mut(&key) {
        return cell.add(note);
    }
    insert_cell(cells, alloc, key, note)
}

/// Adds a cell of one note under a key that has none.
fn insert_cell<P: Profile>(
    cells: &mut HashMap<P::Key, Cell<P>>,
    alloc: Global,
    key: P::Key,
    note: Note<P::Outline>,
) -> Result<(), AllocError>
    requires { get P.Key.eq cells.old key ≡ None }
    ensures added { OnOk result (HasNote P.Key.eq P.Outline.eq cells.new key note.number note.outline) }
    ensures keeps { KeepsNotes P.Key.eq P.Outline.eq cells.old cells.new }
    ensures only { AddsAtMost P.Key.eq P.Outline.eq note.number (λ other outline. P.Outline.eq outline note.outline && P.Key.eq other key) cells.old cells.new }
{
    cells.insert(key, Cell::of(alloc, note)?)?;
    Ok(())
}

/// Removes the notes of a number under a key, other than those of the regions `remaining`, and the cell if it is then
/// empty.
pub(crate) fn remove_note<P: Profile>(
    cells: &mut HashMap<P::Key, Cell<P>>,
    key: &P::Key,
    number: u64,
    remaining: &[IndexedRegion<P>],
)
    ensures taken { TakesOut P.Key.eq P.Outline.eq P.cover_of P.outline_of number remaining.now (λ other. P.Key.eq other key.now) cells.old cells.new }
    ensures fewer { TakesBack P.Key.eq P.Outline.eq cells.old cells.new }
{
    if remove_from_cell(cells, key, number, remaining) {
        cells.remove(key);
    }
}

/// Removes the notes of a number from the cell of a key, other than those of the regions `remaining`, and says whether
/// the cell is then empty.
fn remove_from_cell<P: Profile>(
    cells: &mut HashMap<P::Key, Cell<P>>,
    key: &P::Key,
    number: u64,
    remaining: &[IndexedRegion<P>],
) -> bool
    ensures taken { TakesOut P.Key.eq P.Outline.eq P.cover_of P.outline_of number remaining.now (λ other. P.Key.eq other key.now) cells.old cells.new }
    ensures noted { KeepsNotes P.Key.eq P.Outline.eq cells.new cells.old }
    ensures elsewhere { (other : _) → P.Key.eq key.now other ≡ false → get P.Key.eq cells.new other ≡ get P.Key.eq cells.old other }
    ensures empty { IsTrue result → notes_of (get P.Key.eq cells.new key.now) ≡ [] }
    ensures some { IsFalse result → IfSome (get P.Key.eq cells.new key.now) (λ notes. notes ≢ []) }
{
    let Some(cell) = cells.get_mut(key) else {
        return false;
    };
    cell.remove(number, key, remaining);
    cell.is_empty()
}
