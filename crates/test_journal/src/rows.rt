//! The rows: sessions and worlds.
use crate::row::Row;
use lost_book::Limits;
use std::alloc::{AllocError, Global};
use std::rt::Files;
use std::{fs, io};
use test_parts::limits_of;

/// The folder of the sessions.
const FOLDER: &str = "sessions";

/// The ending of the name of a session's file of lines.
const LINES: &str = ".jsonl";

/// All rows, each with a commit behind its lines.
pub(crate) fn rows<R: Files + AllocGlobal + Clone + Drop>(rt: &R) -> io::Result<Vec<Row>> {
    let mut rows = Vec::new(rt.alloc());
    for name in &names(rt)? {
        rows.push(session(rt, name.as_str())?)?;
    }
    add_worlds(rt, &mut rows)?;
    for row in &mut rows {
        row.add_commit()?;
    }
    Ok(rows)
}

/// The names of the sessions, in order.
fn names<R: Files + AllocGlobal + Clone + Drop>(rt: &R) -> io::Result<Vec<String>> {
    let mut names = Vec::new(rt.alloc());
    for entry in fs::read_dir(rt, FOLDER)? {
        let entry = entry?;
        add_name(rt.alloc(), &mut names, entry.file_name())?;
    }
    names.sort()?;
    Ok(names)
}

/// Adds the name of a session, if a file has its lines.
fn add_name(alloc: Global, names: &mut Vec<String>, file: &str) -> Result<(), AllocError> {
    if let Some(name) = file.strip_suffix(LINES) {
        names.push(String::from_str(alloc, name)?)?;
    }
    Ok(())
}

/// The row of a session.
fn session<R: Files + AllocGlobal>(rt: &R, name: &str) -> io::Result<Row> {
    let file = format!(in rt.alloc(); "{FOLDER}/{name}{LINES}")?;
    let text = fs::read(rt, file.as_str())?;
    let name = String::from_str(rt.alloc(), name)?;
    let mut row = Row::new(rt.alloc(), name, Limits::widest());
    row.add_all(rt.alloc(), text.as_slice())?;
    Ok(row)
}

/// Adds the rows of the worlds.
fn add_worlds<R: Files + AllocGlobal>(rt: &R, rows: &mut Vec<Row>) -> io::Result<()> {
    let text = fs::read_to_string(rt, "worlds.lines")?;
    for line in text.as_str().lines() {
        take(rt.alloc(), rows, line)?;
    }
    Ok(())
}

/// Takes a line of the worlds: one begins a row, and others are behind the lines of the last row.
fn take(alloc: Global, rows: &mut Vec<Row>, line: &str) -> Result<(), AllocError> {
    let (word, rest) = line.split_once(' ').unwrap_or((line, ""));
    if word == "world" {
        return add_world(alloc, rows, rest);
    }
    let Some(row) = rows.last_mut() else {
        return Ok(());
    };
    match word {
        "stage" => row.add(alloc, rest.as_bytes()),
        "publish" => row.add_commit(),
        _ => Ok(()),
    }
}

/// Adds a row whose name is a world's number of workers and its limits.
fn add_world(alloc: Global, rows: &mut Vec<Row>, words: &str) -> Result<(), AllocError> {
    let (_workers, numbers) = words.split_once(' ').unwrap_or((words, ""));
    let limits = limits_of(numbers.trim_end()).unwrap_or(Limits::widest());
    let name = format!(in alloc; "world {words}")?;
    rows.push(Row::new(alloc, name, limits))?;
    Ok(())
}
