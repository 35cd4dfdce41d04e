//! Rows of an operator's requests. A row begins after an empty line, and each of its lines begins with a mark.
//!
//! | Mark | What follows it |
//! |---|---|
//! | `#` | the name of the row |
//! | `!` | an event at the server before the request ([`events`] lists them) |
//! | `$` | a line of the request, which ends in CRLF; `$` alone is the empty line |
//! | `*` | how many bytes are put in front of the end of the line before |
//! | `=` | the expected first line of the answer |
//! | `:` | an expected field of the answer, among others |
//! | `>` | an expected line of the answer's text, which has no other lines |
//! | `~` | a line that the answer's text must have; its other lines are then not compared |
mod events;
mod row;
mod scenes;
mod watch;

use std::random::RandomSource;
use std::rt::Files;
use std::thread::Threads;
use std::{fs, io};

/// Runs the rows, and prints how each went, and then the scenes.
pub(crate) fn run<R: Files + Print + RandomSource + Threads + AllocGlobal + Sync>(
    rt: &R,
) -> io::Result<()> {
    let rows = fs::read_to_string(rt, "status.rows")?;
    for row in rows.as_str().split("\n\n") {
        row::run(rt, row)?;
    }
    println!(rt; "-- scenes")?;
    scenes::play(rt)
}
