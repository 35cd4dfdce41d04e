//! Commands of rows_gate: rows of a journal, over disks in memory that fail and that a crash tears.
//!
//! Each row is lines of a desk: those of a session of the folder `sessions`, or those that the steps `stage` and
//! `publish` of a world of `worlds.lines` order, and a commit behind them. A desk answers them whose edits a journal
//! keeps.
//!
//! `journal` runs each row again and again:
//!
//! - The disk stops for good at its first call, at its second one, and so on, up to the run with no failure.
//! - One call fails, and those behind it do not. It does nothing in some runs, and all that it should in others. So that
//!   a crash comes behind each repair too, the disk stops for good with that call, or 1 to 7 calls later, or never.
//!
//! After each run these must hold:
//!
//! - The replies, and what is published and staged, are those of a desk without a journal that is given the same lines
//!   but for those that were refused with code 23. Some line was refused if a call failed, and none was if not.
//! - Each content that a crash may leave then (`Crash`) opens as a journal. What is published is then what was published
//!   in the run, which is all that was answered `committed`; or it is that with the commit behind it that was being kept.
//!   All that is no part of it is cut off the file. A file whose last gate is neither the old nor the new byte is
//!   refused, and so is one with a whole commit behind it whose gate is open.
//! - Each call of such an opening fails in turn. The opening ends in that failure, and what it leaves opens as before.
//!
//! The line of a row says how much was run. Where something is wrong, it says `wrong`, and what, instead.
//!
//! `kept` runs each row once, with no failure, for a growth of memory that is refused anywhere: the lines that are
//! refused for want of memory, or that could not be kept, are as though they had not been there, and what a crash leaves
//! opens as above. Its own growths end the program.
#![tactic(auto)]

mod account;
mod allowed;
mod content;
mod contents;
mod crash;
mod filling;
mod flaw;
mod judging;
mod listed;
mod noted;
mod once;
mod plain;
mod record;
mod reopening;
mod row;
mod rows;
mod running;
mod spare;
mod sums;
mod sweep;
mod verdict;

use std::io;
use std::rt::Files;
use std::sync::Wait;
use std::time::Clock;

/// Runs a command, and prints a line of each row. Prints and returns whether all is as expected.
///
/// # Errors
/// Those of files and of standard output, and `OutOfMemory`.
pub fn run<R: Files + Wait + Clock + Print + AllocGlobal + Clone + Drop>(
    rt: &R,
    command: &str,
) -> io::Result<bool> {
    match command {
        "journal" => sweep::run_rows(rt),
        _ => spare::run_rows(rt),
    }
}
