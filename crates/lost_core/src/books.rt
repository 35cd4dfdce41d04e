//! Books from lists of edits.
ghost use Rattle.std.specs.Prelude.{◌≡◌, map, take, IfOk, OnOk};
ghost use Rattle.lost_spec.specs.Book.{after, book_of as book_meant};
ghost use Rattle.lost_mapping.specs.Edit.{edit_of};

use lost_book::{Book, Edit, EditError, Limits};
use std::alloc::{AllocError, Global};

/// The book of a list of edits within these limits, made from the empty one.
pub(crate) fn book_of(alloc: Global, limits: Limits, edits: &[Edit]) -> Result<Book, AllocError>
    ensures { IfOk result (λ book. book ≡ book_meant limits (map edit_of edits.now)) }
{
    let mut book = Book::new(alloc, limits)?;
    for edit in edits {
        absorb(&mut book, edit.clone()?)?;
    }
    Ok(book)
}

/// The book of the first `count` edits of a list, or of all if there are fewer.
pub(crate) fn book_of_first(
    alloc: Global,
    limits: Limits,
    edits: &[Edit],
    count: u64,
) -> Result<Book, AllocError>
    ensures { IfOk result (λ book. book ≡ book_meant limits (take count (map edit_of edits.now))) }
{
    book_of(alloc, limits, front(edits, count))
}

/// Applies an edit to a book. A book that refuses the edit stays as it was.
fn absorb(book: &mut Book, edit: Edit) -> Result<(), AllocError>
    ensures { OnOk result (book.new ≡ after book.old (edit_of edit)) }
{
    match book.apply(edit) {
        Err(error) if error == EditError::Memory => Err(AllocError),
        _ => Ok(()),
    }
}

/// The first `count` edits, or all if there are fewer.
fn front(edits: &[Edit], count: u64) -> &[Edit]
    ensures { result.now ≡ take count edits.now }
{
    if count >= edits.len() as u64 {
        return edits;
    }
    &edits[..count as usize]
}
