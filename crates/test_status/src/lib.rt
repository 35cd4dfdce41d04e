//! Commands of rows_gate: what a server is ordered, and what it shows.
//!
//! - `orders`: each row of `orders.rows` is a command line that orders a server. Prints the order, and then the texts of
//!   exit reasons.
//! - `status`: each row of `status.rows` is an HTTP request to a server after some events. The answer is compared with
//!   the row ([`status`] says how a row is written). Then come clients that are cut off, and two workers that count at
//!   once.
#![tactic(auto)]

mod orders;
mod status;

use std::io;
use std::random::RandomSource;
use std::rt::Files;
use std::thread::Threads;

/// Runs a command, whose output alone says whether all is as expected.
///
/// # Errors
/// Those of files and of standard output, and `OutOfMemory`.
pub fn run<R: Files + Input + Print + Eprint + RandomSource + Threads + Sync + AllocGlobal>(
    rt: &R,
    command: &str,
) -> io::Result<()> {
    match command {
        "orders" => orders::run(rt),
        _ => status::run(rt),
    }
}
