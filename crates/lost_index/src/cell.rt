//! The notes under one key.
ghost use Rattle.std.specs.Prelude.{◌≡◌, ◌≤◌, ◌<◌, ◌∷◌, [], true, false, if◌then◌else◌, length, filter, insert, remove, slice_get, IfOk, IfSome, OnOk, OnErr, IsTrue, ◌↔◌};
ghost use Rattle.std.specs.List.Sorted.{IsPartitionPoint};
ghost use Rattle.std.specs.Option.{option_map_or};
ghost use Rattle.lost_index.specs.Notes.{number_of, is_note, has_note, stays};

use crate::entry;
use crate::indexed_region::IndexedRegion;
use crate::note::Note;
use lost_profile::Profile;
use std::alloc::{AllocError, Global};
use std::marker::Model;

/// The notes under one key: their numbers rise, and no two of one number have equal outlines. Contracts see it as their
/// list.
pub(crate) struct Cell<P: Profile> {
    notes: Vec<Note<P::Outline>>,
}

impl<P: Profile> Drop for Cell<P> {
    fn drop(self) {
        let Cell { notes: _ } = self;
    }
}

impl<P: Profile> Model for Cell<P> {
    ghost use Rattle.std.specs.Prelude.{List};
    ghost use Rattle.lost_index.specs.declared.note.Note.{Note};
    ghost use Rattle.lost_index.specs.Notes.{IsCell};

    ghost Value = { List (Note P.Outline) };

    ghost view = { λ a. a.notes.items };

    ghost invariant = { λ a. IsCell P.Outline.eq a.notes.items };
}

impl<P: Profile> Cell<P> {
    /// A cell of one note.
    pub(crate) fn of(alloc: Global, note: Note<P::Outline>) -> Result<Cell<P>, AllocError>
        ensures { IfOk result (λ cell. cell ≡ note ∷ []) }
    {
        let mut notes = Vec::with_capacity(alloc, 1)?;
        notes.push(note)?;
        Ok(Cell { notes })
    }

    /// The notes.
    pub(crate) fn notes(&self) -> &[Note<P::Outline>]
        ensures { result.now ≡ self.now }
    {
        &self.notes
    }

    /// Whether there is no note.
    pub(crate) fn is_empty(&self) -> bool
        ensures { IsTrue result ↔ (self.now ≡ []) }
    {
        self.notes.is_empty()
    }

    /// Adds the note, unless the cell has one of its number with an equal outline. If memory is refused, nothing
    /// changes.
    pub(crate) fn add(&mut self, note: Note<P::Outline>) -> Result<(), AllocError>
        ensures added { OnOk result (has_note P.Outline.eq note.number note.outline self.new ≡ true) }
        ensures keeps { (number : _) (outline : _) → has_note P.Outline.eq number outline self.old ≡ true
            → has_note P.Outline.eq number outline self.new ≡ true }
        ensures only { (number : _) (outline : _) → has_note P.Outline.eq number outline self.new ≡ true
            → has_note P.Outline.eq number outline (note ∷ self.old) ≡ true }
        ensures refused { OnErr result (self.new ≡ self.old) }
    {
        if self.has(&note) {
            return Ok(());
        }
        let position = self.end_of(note.number);
        insert_note(&mut self.notes, position, note)?;
        Ok(())
    }

    /// Removes the notes of a number, other than those with the outline of one of `remaining` whose cover has the key.
    pub(crate) fn remove(&mut self, number: u64, key: &P::Key, remaining: &[IndexedRegion<P>])
        ensures { self.new ≡ filter (stays P.Key.eq P.Outline.eq P.cover_of P.outline_of number remaining.now key.now) self.old }
    {
        let start = self.start_of(number);
        let end = self.end_of(number);
        for position in (start..end).rev() {
            self.remove_at(position, number, key, remaining);
        }
    }

    /// Removes the note at a position, if [`Cell::remove`] removes it.
    fn remove_at(
        &mut self,
        position: usize,
        number: u64,
        key: &P::Key,
        remaining: &[IndexedRegion<P>],
    )
        ensures { IfSome (slice_get self.old position) (λ note. self.new
            ≡ (if stays P.Key.eq P.Outline.eq P.cover_of P.outline_of number remaining.now key.now note then self.old else remove self.old position)) }
    {
        let Some(note) = self.notes.get(position) else {
            return;
        };
        if !is_kept(note, number, key, remaining) {
            self.notes.remove(position);
        }
    }

    /// Whether the cell has a note of the same number with an equal outline.
    fn has(&self, note: &Note<P::Outline>) -> bool
        ensures { result ≡ has_note P.Outline.eq note.now.number note.now.outline self.now }
    {
        let start = self.start_of(note.number);
        let end = self.end_of(note.number);
        for position in start..end {
            if self.has_at(position, note) {
                return true;
            }
        }
        false
    }

    /// Whether the note at a position is of the same number, with an equal outline.
    fn has_at(&self, position: usize, note: &Note<P::Outline>) -> bool
        ensures { result ≡ option_map_or (is_note P.Outline.eq note.now.number note.now.outline) (slice_get self.now position) false }
    {
        let Some(here) = self.notes.get(position) else {
            return false;
        };
        note.number == here.number && note.outline == here.outline
    }

    /// Where the notes of a number begin, or would.
    fn start_of(&self, number: u64) -> usize
        ensures { IsPartitionPoint (λ note. number_of note < number) (λ note. number ≤ number_of note) self.now result }
    {
        self.notes.partition_point(|note| note.number < number)
    }

    /// Where the notes of a number end, or would.
    fn end_of(&self, number: u64) -> usize
        ensures within { result ≤ length self.now }
        ensures point { IsPartitionPoint (λ note. number_of note ≤ number) (λ note. number < number_of note) self.now result }
    {
        self.notes.partition_point(|note| note.number <= number)
    }
}

/// Whether a note stays where [`Cell::remove`] removes those of the number.
fn is_kept<P: Profile>(
    note: &Note<P::Outline>,
    number: u64,
    key: &P::Key,
    remaining: &[IndexedRegion<P>],
) -> bool
    ensures { result ≡ stays P.Key.eq P.Outline.eq P.cover_of P.outline_of number remaining.now key.now note.now }
{
    number != note.number || entry::covers_with(remaining, key, &note.outline)
}

/// Inserts a note at a position. A full list grows by a quarter, since most cells get few notes. If memory is refused,
/// nothing changes.
fn insert_note<O: Copy>(
    notes: &mut Vec<Note<O>>,
    position: usize,
    note: Note<O>,
) -> Result<(), AllocError>
    requires { position ≤ length notes.old.items }
    ensures items { OnOk result (notes.new.items ≡ insert notes.old.items position note) }
    ensures refused { OnErr result (notes.new.items ≡ notes.old.items) }
{
    if notes.len() == notes.capacity() {
        notes.reserve_exact(notes.len() / 4 + 2)?;
    }
    notes.insert(position, note)?;
    Ok(())
}
