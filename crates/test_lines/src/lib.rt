//! Commands of rows_gate: streams of lines.
//!
//! - `streams`: the script `streams.lines`, over a desk and two readers that stay. `desk` serves a stream by the desk,
//!   `queries` by a reader, and `workers` by two workers whose first line waits until another was answered. `bursts
//!   NUMBER` serves it in bursts, cut at every byte, by an output that takes so many bytes at a time, and `cut NUMBER`
//!   cut at one place; `in turn` has one worker serve two connections in turn while the desk commits.
//! - `hostile`: the script `hostile.lines`, over readers and writers that fail. A command that begins with `replay`,
//!   `desk` or `queries` has a stream served by a replay, by a desk or by a reader of a desk: `whole`; `bytes`, a byte
//!   at a time; `reads NUMBER`, in pieces of so many bytes, once for each read, which fails; `writes`, once for each
//!   write, which fails or takes no byte; `prefixes`, each proper prefix alone; `spaces`, where spaces come for ever.
//!   `worker` has one worker serve it twice, first where the first read fails. `faults` prints the texts of all faults,
//!   and `marks` the answers where memory is refused.
//! - `lines`: the script `lines.lines`, whose lines are answered by their lengths. [`lines`] says how it is written.
//!
//! Other lines of `streams.lines` and `hostile.lines` prepare the next stream. `line TEXT`, `last TEXT` (without byte
//! 10), `long NUMBER` (so many bytes), `byte NUMBER`, `filled NUMBER TEXT` (with spaces after it, so many bytes in all)
//! and `each NUMBER TEXT` (so many times, with the number of the time for `#`) add to it. `turns LINES` says how many
//! lines are answered at most. `refuse LINE` has the gate refuse a line and all after it.
#![tactic(auto)]

mod always;
mod bursts;
mod by;
mod faults;
mod hostile;
mod in_turn;
mod lengths;
mod lines;
mod plan;
mod recording_gate;
mod sipping;
mod spelled;
mod stream;
mod streams;
mod sweeps;
mod telling;
mod worker;
mod workers;

use std::rt::Files;
use std::sync::Wait;
use std::thread::Threads;
use std::time::Clock;
use std::{fs, io};

/// Runs the script of a command. Its output alone says whether all is as expected.
///
/// # Errors
/// Those of files and of standard output, and `OutOfMemory`.
pub fn run<R: Files + Threads + Wait + Clock + Sync + Print + AllocGlobal>(
    rt: &R,
    command: &str,
) -> io::Result<()> {
    let script = fs::read_to_string(rt, format!(in rt.alloc(); "{command}.lines")?.as_str())?;
    match command {
        "streams" => streams::run(rt, script.as_str()),
        "hostile" => hostile::run(rt, script.as_str()),
        _ => lines::run(rt, script.as_str()),
    }
}
