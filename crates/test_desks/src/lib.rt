//! Commands of rows_gate: rows of a desk and its readers.
//!
//! - `sessions`: each session of the folder `sessions` is answered by a desk and a reader that keeps 1, 2 and 1,024
//!   places. `NAME.jsonl` has the lines, `NAME.expected` the replies. A desk has the limits that the file `NAME.limits`
//!   gives, or the widest. (`tools/test` has the program replay these sessions.)
//! - `worlds`: runs the worlds of `worlds.lines`, and prints the events of their steps, one a line. A line
//!   `world W LIMITS` begins a world of so many workers, and each line after it is a step, until the next world:
//!   `stage EDIT`, `publish`, `enter W`, `tell W N` or `answer W REQUEST`, with an edit and a request as lines of JSON.
//!   (Own format.)
//! - `desk`: the lines of `desk.lines`, for a desk and one reader. A desk line goes to the desk, `tell` has the reader
//!   learn what the desk tells, and any other line goes to the reader.
//! - `cache`: the lines of `cache.lines`, for a desk and two readers: one has a cache, the other counts what it finds.
//!   A desk line goes to the desk, any other line to both. The line `next` ends a session, and the next one has a desk
//!   of its own.
//!
//! Limits are three numbers: the most mappings held, edits accepted and withdrawn identities remembered.
#![tactic(auto)]

mod cache;
mod calls;
mod counting;
mod desk;
mod limits;
mod orders;
mod rows;
mod sessions;
mod worlds;

use std::io;
use std::rt::Files;
use std::sync::Wait;

/// Has each session answered. Prints and returns whether all replies are as expected.
///
/// # Errors
/// Those of files and of standard output, and `OutOfMemory`.
pub fn print_sessions<R: Files + Wait + Print + AllocGlobal + Clone + Drop>(
    rt: &R,
) -> io::Result<bool> {
    sessions::print_sessions(rt)
}

/// Runs another command, whose output alone says whether all is as expected.
///
/// # Errors
/// Those of files and of standard output, and `OutOfMemory`.
pub fn run<R: Files + Wait + Print + AllocGlobal>(rt: &R, command: &str) -> io::Result<()> {
    match command {
        "worlds" => worlds::print_worlds(rt),
        "desk" => desk::run(rt),
        _ => cache::run(rt),
    }
}

/// Makes the desks of the table `calls.lines`. If `are_made`, makes the calls on them and on their readers that take no
/// memory too, and prints their answers.
///
/// # Errors
/// Those of the table and of standard output, and `OutOfMemory`.
pub fn print_calls<R: Files + Wait + Print + AllocGlobal>(
    rt: &R,
    are_made: bool,
) -> io::Result<()> {
    calls::run(rt, are_made)
}
