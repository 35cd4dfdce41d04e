//! Finding the numbers with a region whose outline may contain a location.
ghost use Rattle.std.specs.Prelude.{◌≡◌, ◌++◌, filter, IfOk, OnOk};
ghost use Rattle.std.specs.HashMap.{get};
ghost use Rattle.std.specs.List.{flat_map};
ghost use Rattle.lost_index.specs.Kinds.{has_kind};
ghost use Rattle.lost_index.specs.Notes.{notes_of, numbers_near};

use crate::cell::Cell;
use crate::kinds::Kinds;
use crate::note::Note;
use lost_profile::Profile;
use std::alloc::{AllocError, Global};
use std::collections::HashMap;
use std::convert::AsSlice;

/// The numbers that are noted under the probes of marked kinds with an outline that may contain the location, in the
/// order of the probes. A number may come twice.
pub(crate) fn found<P: Profile>(
    cells: &HashMap<P::Key, Cell<P>>,
    kinds: &Kinds,
    alloc: Global,
    location: &P::Location,
) -> Result<Vec<u64>, AllocError>
    ensures found { IfOk result (λ found. found.items ≡ flat_map
        (λ key. numbers_near (λ outline. P.may_hold outline location.now) (notes_of (get P.Key.eq cells.now key)))
        (filter (λ key. has_kind kinds.now (P.kind_of key)) (P.probes_of location.now))) }
    ensures is_location { P.is_location location.now }
{
    let mut found = Vec::new(alloc);
    let keys = P::probes(alloc, location)?;
    for key in keys.as_slice() {
        if !kinds.has(P::key_kind(key)) {
            continue;
        }
        collect_under(cells, key, location, &mut found)?;
    }
    Ok(found)
}

/// Adds the numbers that are noted under the key with an outline that may contain the location.
fn collect_under<P: Profile>(
    cells: &HashMap<P::Key, Cell<P>>,
    key: &P::Key,
    location: &P::Location,
    found: &mut Vec<u64>,
) -> Result<(), AllocError>
    ensures { OnOk result (found.new.items ≡ found.old.items ++ numbers_near
        (λ outline. P.may_hold outline location.now) (notes_of (get P.Key.eq cells.now key.now))) }
{
    match cells.get(key) {
        Some(cell) => collect::<P>(cell.notes(), location, found),
        None => Ok(()),
    }
}

/// Adds the number of each note whose outline may contain the location.
fn collect<P: Profile>(
    notes: &[Note<P::Outline>],
    location: &P::Location,
    found: &mut Vec<u64>,
) -> Result<(), AllocError>
    ensures { OnOk result (found.new.items ≡ found.old.items ++ numbers_near
        (λ outline. P.may_hold outline location.now) notes.now) }
{
    for note in notes {
        if !P::is_near(&note.outline, location) {
            continue;
        }
        found.push(note.number)?;
    }
    Ok(())
}
