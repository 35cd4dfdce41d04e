//! Tables of cases of public calls. A table is a file whose name ends in `.cases`. Each line is a case: a call, its
//! arguments and its result, with `|` between each two. Empty lines and lines that begin with `#` are skipped.
#![tactic(auto)]

mod book_cases;
mod case;
mod case_error;
mod civic_cases;
mod descriptions;
mod digest_cases;
mod fields;
mod gathered;
mod geo_cases;
mod line_cases;
mod mapping_cases;
mod numbered_cases;
mod place_cases;
mod spelling;
mod stamp_cases;
mod token_cases;
mod tokens_cases;
mod urn_cases;
mod words;

use book_cases::Shelf;
use case::judge;
use case_error::CaseError;
use std::rt::Files;
use std::{fs, io};

/// Runs the table of this file name. Prints each case that gives something else than it should, the first line that is no
/// case, and how many cases are right. Says whether all are.
///
/// # Errors
/// Those of files and of standard output, and `OutOfMemory`.
pub fn print_table<R: Files + Print + AllocGlobal>(rt: &R, name: &str) -> io::Result<bool> {
    let table = fs::read_to_string(rt, name)?;
    judge_lines(rt, name, table.as_str(), &mut Shelf::new())
}

/// Runs the lines of a table, and prints the results.
fn judge_lines<R: Print + AllocGlobal>(
    rt: &R,
    name: &str,
    table: &str,
    shelf: &mut Shelf,
) -> io::Result<bool> {
    let (mut all, mut count) = (true, 0u32);
    for (number, line) in table.lines().enumerate() {
        if line.is_empty() || line.starts_with('#') {
            continue;
        }
        let line_number = number.saturating_add(1);
        match judge(rt.alloc(), shelf, line) {
            Ok(None) => count = count.saturating_add(1),
            Ok(Some(said)) => {
                print_other(rt, name, line_number, said.as_str())?;
                all = false;
            }
            Err(error) => return print_unjudged(rt, name, line_number, error),
        }
    }
    println!(rt; "{count} as wanted")?;
    Ok(all)
}

/// Prints what a case gives that should give something else.
fn print_other<R: Print>(rt: &R, name: &str, line_number: usize, said: &str) -> io::Result<()> {
    println!(rt; "{name}, line {line_number}, gives {said}")
}

/// Prints why a case was not judged. So not all are right.
fn print_unjudged<R: Print>(
    rt: &R,
    name: &str,
    line_number: usize,
    error: CaseError,
) -> io::Result<bool> {
    println!(rt; "{name}, line {line_number}: {error}")?;
    Ok(false)
}
