//! The edits of the input, each applied to two books.
use crate::asking::answers;
use crate::kinds::Kind;
use crate::traces::Publishes;
use lost_book::{Edit, EditError, Limits};
use lost_json::{DeskLine, read_desk};
use lost_spec::Coded;
use std::alloc::{AllocError, Global};
use std::io;
use test_parts::limits_of;

/// Applies the edits of the input to two books. Each line `limits` begins both anew.
pub(crate) fn edit_books<R: Input + Print + AllocGlobal, A: Kind, B: Kind>(
    rt: &R,
) -> io::Result<()> {
    let publishes = Publishes::new(rt.alloc())?;
    let mut limits = Limits::widest();
    for _ in 0..u64::MAX {
        match edit_anew::<R, A, B>(rt, limits, &publishes)? {
            Some(next) => limits = next,
            None => break,
        }
    }
    Ok(())
}

/// Applies the edits to two new books of these limits, as [`edit_both`] does.
fn edit_anew<R: Input + Print + AllocGlobal, A: Kind, B: Kind>(
    rt: &R,
    limits: Limits,
    publishes: &Publishes,
) -> io::Result<Option<Limits>> {
    let mut first = A::empty(rt.alloc(), limits)?;
    let mut second = B::empty(rt.alloc(), limits)?;
    edit_both(rt, &mut first, &mut second, publishes)
}

/// Applies the edits up to a line that begins both books anew, and gives their limits. At the end of the input, prints
/// how many edits were accepted, and gives `None`.
fn edit_both<R: Input + Print + AllocGlobal, A: Kind, B: Kind>(
    rt: &R,
    first: &mut A,
    second: &mut B,
    publishes: &Publishes,
) -> io::Result<Option<Limits>> {
    let mut line = String::new(rt.alloc());
    for _ in 0..u64::MAX {
        line.clear();
        if rt.read_line(&mut line)? == 0 {
            break;
        }
        let order = line.trim_end();
        match order.strip_prefix("limits ") {
            Some(numbers) => {
                if let Some(limits) = new_limits(rt, numbers)? {
                    return Ok(Some(limits));
                }
            }
            None => edit_each(rt, first, second, publishes, order.as_bytes())?,
        }
    }
    println!(rt; "{} and {} edits", first.edition(), second.edition())?;
    Ok(None)
}

/// The limits of a line, which it prints; or prints that they are not allowed.
fn new_limits<R: Print>(rt: &R, numbers: &str) -> io::Result<Option<Limits>> {
    let limits = limits_of(numbers);
    match limits {
        Some(_) => println!(rt; "limits {numbers}")?,
        None => println!(rt; "not allowed: {numbers}")?,
    }
    Ok(limits)
}

/// Applies the edit of a desk line to each book.
fn edit_each<R: Print + AllocGlobal, A: Kind, B: Kind>(
    rt: &R,
    first: &mut A,
    second: &mut B,
    publishes: &Publishes,
    line: &[u8],
) -> io::Result<()> {
    edit_one(rt, first, publishes, line)?;
    edit_one(rt, second, publishes, line)
}

/// Applies the edit of a desk line. Prints the outcome and the answers after it.
fn edit_one<R: Print + AllocGlobal, K: Kind>(
    rt: &R,
    book: &mut K,
    publishes: &Publishes,
    line: &[u8],
) -> io::Result<()> {
    let mut outcome = book.apply(edit_of(rt.alloc(), line)?);
    if outcome == Err(EditError::Memory) {
        print_refused(rt, book, publishes)?;
        outcome = book.apply(edit_of(rt.alloc(), line)?);
    }
    print_outcome(rt, book, publishes, outcome)
}

/// Prints that memory was refused for an edit, and what the book then answers.
fn print_refused<R: Print + AllocGlobal, K: Kind>(
    rt: &R,
    book: &K,
    publishes: &Publishes,
) -> io::Result<()> {
    let answers = answered(rt, book, publishes)?;
    println!(rt; "{} ran out of memory: {answers}", K::NAME)
}

/// Prints the outcome of an edit, and what the book then answers.
fn print_outcome<R: Print + AllocGlobal, K: Kind>(
    rt: &R,
    book: &K,
    publishes: &Publishes,
    outcome: Result<(), EditError>,
) -> io::Result<()> {
    let answers = answered(rt, book, publishes)?;
    match outcome {
        Ok(()) => println!(rt; "{} accepted: {answers}", K::NAME),
        Err(error) => println!(rt; "{} refused {}: {answers}", K::NAME, error.code()),
    }
}

/// The answers to all questions. If memory is refused for one, prints that and asks all again.
fn answered<R: Print + AllocGlobal, K: Kind>(
    rt: &R,
    book: &K,
    publishes: &Publishes,
) -> io::Result<String> {
    if let Ok(text) = all_answers(rt.alloc(), book, publishes) {
        return Ok(text);
    }
    println!(rt; "asked again")?;
    Ok(all_answers(rt.alloc(), book, publishes)?)
}

/// The answers to all questions, and which identities are remembered as withdrawn.
fn all_answers<K: Kind>(
    alloc: Global,
    book: &K,
    publishes: &Publishes,
) -> Result<String, AllocError> {
    let mut text = answers(alloc, book)?;
    publishes.add_last_refused(&mut text, book)?;
    Ok(text)
}

/// The edit of a desk line. If memory is refused, reads the line once more.
pub(crate) fn edit_of(alloc: Global, line: &[u8]) -> Result<Edit, AllocError> {
    for _ in 0..2u8 {
        if let Ok(Some(DeskLine::Edit(edit))) = read_desk(alloc, line) {
            return Ok(edit);
        }
    }
    Err(AllocError)
}
