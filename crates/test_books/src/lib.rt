//! Commands of rows_gate: rows of edits over the plain book and the indexed one.
//!
//! `edits` applies the edits of standard input, which are desk lines, to both books. It prints the answers of each, with
//! the identities whose publish it refuses as withdrawn. A line `limits` begins both anew with these limits. If memory
//! is refused for an edit, it prints what the book then answers, and applies the edit again; if for a question, it asks
//! it again.
#![tactic(auto)]

mod asking;
mod calls;
mod edits;
mod kinds;
mod traces;

use lost_book::Book;
use lost_routing::Routing;
use std::io;
use std::rt::Files;

/// Applies the edits of standard input to both books, and prints the answers of each.
///
/// # Errors
/// Those of standard input and output, `OutOfMemory`, and `InvalidData` for a row that is not as it should be.
pub fn print_edits<R: Input + Print + AllocGlobal>(rt: &R) -> io::Result<()> {
    edits::edit_books::<R, Book, Routing>(rt)
}

/// Makes values and the books of the table `calls.lines`. If `are_made`, makes the calls on them that take no memory
/// too, and prints their answers.
///
/// # Errors
/// Those of the table and of standard output, `OutOfMemory`, and `InvalidData` for a table that is not as it should be.
pub fn print_calls<R: Files + Print + AllocGlobal>(rt: &R, are_made: bool) -> io::Result<()> {
    calls::print_calls::<R, Book, Routing>(rt, are_made)
}
