//! Commands of rows_gate: rows of the index and of the crates below it.
//!
//! - `covers`: the cells of rings, and those under which a point is looked up.
//! - `index`: a row of edits of the map's index. A step to which memory is refused is made again.
//! - `keys`: the questions of the table `keys.rows` on civic keys.
//! - `chunks`: a list in chunks, edited beside a plain list.
//! - `sets`: the same row as `index` over token sets, and which numbers hold each of some tokens.
#![tactic(auto)]

mod calls;
mod chunks;
mod covers;
mod keys;
mod reading;
mod rings;
mod row;
mod sets;

use lost_grid::Geodetic2d;
use lost_profile::Tokens;
use std::io;
use std::rt::Files;

/// Runs a command. Says whether a list in chunks is as a plain one.
///
/// # Errors
/// Those of files and of standard output, `OutOfMemory`, and `InvalidData` for a row that is not as it should be.
pub fn run<R: Files + Print + AllocGlobal>(rt: &R, command: &str) -> io::Result<bool> {
    if command == "chunks" {
        return chunks::print_edits(rt);
    }
    print_answers(rt, command)?;
    Ok(true)
}

/// Runs a command that judges nothing, and only prints answers.
fn print_answers<R: Files + Print + AllocGlobal>(rt: &R, command: &str) -> io::Result<()> {
    match command {
        "covers" => covers::print_all(rt),
        "index" => row::print_all::<R, Geodetic2d>(rt),
        "keys" => keys::print_answers(rt),
        _ => print_sets(rt),
    }
}

/// The row of an index over token sets, and which numbers hold each of some tokens.
fn print_sets<R: Print + AllocGlobal>(rt: &R) -> io::Result<()> {
    row::print_all::<R, Tokens>(rt)?;
    sets::print_all(rt)
}

/// Makes indexes. If `are_made`, makes the calls on them that take no memory too, and prints their answers.
///
/// # Errors
/// Those of standard output, and `OutOfMemory`.
pub fn print_calls<R: Print + AllocGlobal>(rt: &R, are_made: bool) -> io::Result<()> {
    calls::print_all(rt, are_made)
}
