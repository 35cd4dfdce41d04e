//! One row.
use super::events::Threads;
use super::watch::{STARTED, Watch};
use lost_status::{Status, serve_status};
use std::alloc::{AllocError, Global};
use std::hash::RandomState;
use std::io;
use std::random::RandomSource;
use std::time::{Clock, Duration};
use test_parts::{Feed, Sink};

/// How many workers the server of a row has.
const WORKERS: u32 = 2;

/// The answer of a server.
#[derive(Drop)]
struct Answer {
    /// Its first line, and then its fields.
    head: String,
    /// Its text.
    text: String,
}

/// Asks the server of a row, and prints whether it answers as the row expects.
pub(crate) fn run<R: Print + RandomSource + AllocGlobal>(rt: &R, row: &str) -> io::Result<()> {
    let answer = answer_of(rt.alloc(), RandomState::new(rt)?, row)?;
    if is_wanted(rt.alloc(), row, &answer)? {
        return say(rt, row, "as wanted");
    }
    println!(rt; "{}\n{}", answer.head, answer.text)?;
    say(rt, row, "differs")
}

/// Prints how a row went, after its name.
fn say<R: Print>(rt: &R, row: &str, how: &str) -> io::Result<()> {
    println!(rt; "{}: {how}", marked(row, "# ").unwrap_or(""))
}

/// What follows a mark in the first line of a row that begins with it.
fn marked<'r>(row: &'r str, mark: &str) -> Option<&'r str> {
    for line in row.lines() {
        let rest = line.strip_prefix(mark);
        if rest.is_some() {
            return rest;
        }
    }
    None
}

/// The answer of the server of a row to its request, after its events.
fn answer_of(alloc: Global, keys: RandomState, row: &str) -> io::Result<Answer> {
    let watch = Watch::new();
    let status = Status::new(alloc, WORKERS, Duration::from_secs(STARTED))?;
    let mut threads = Threads::of(alloc, &status, WORKERS)?;
    for line in row.lines() {
        if let Some(event) = line.strip_prefix("! ") {
            threads.happen(alloc, event, &watch)?;
        }
    }
    let request = request_of(alloc, row)?;
    answer_to(alloc, keys, &status, &watch, request.as_bytes())
}

/// The bytes of a row's request.
fn request_of(alloc: Global, row: &str) -> Result<String, AllocError> {
    let filler = marked(row, "* ")
        .unwrap_or("")
        .parse::<usize>()
        .unwrap_or(0);
    let mut request = String::new(alloc);
    for line in row.lines() {
        if let Some(line) = line.strip_prefix('$') {
            add_line(&mut request, line.strip_prefix(' ').unwrap_or(line), filler)?;
        }
    }
    Ok(request)
}

/// Adds a line to a request. If it ends in `=`, so many bytes come before its end.
fn add_line(request: &mut String, line: &str, filler: usize) -> Result<(), AllocError> {
    request.push_str(line)?;
    if line.ends_with('=') {
        fill(request, filler)?;
    }
    request.push_str("\r\n")
}

/// Adds so many bytes.
fn fill(request: &mut String, count: usize) -> Result<(), AllocError> {
    for _ in 0..count {
        request.push('a')?;
    }
    Ok(())
}

/// The answer of a server to the bytes of a request. It reads and writes at most seven bytes at a time.
fn answer_to(
    alloc: Global,
    keys: RandomState,
    status: &Status,
    watch: &Watch,
    request: &[u8],
) -> io::Result<Answer> {
    let mut input = Feed::of(request, 7);
    let mut output = Sink::new(alloc, 7)?;
    let now = status.snapshot(watch.since_1970()?);
    serve_status(alloc, keys, &now, &mut input, &mut output);
    answer_in(alloc, output.text.as_slice())
}

/// The answer that these bytes are.
fn answer_in(alloc: Global, bytes: &[u8]) -> io::Result<Answer> {
    let Ok(all) = std::str::from_utf8(bytes) else {
        return Err(io::Error::from(io::ErrorKind::InvalidData));
    };
    let (head, text) = all.split_once("\r\n\r\n").unwrap_or((all, ""));
    Ok(Answer {
        head: String::from_str(alloc, head)?,
        text: String::from_str(alloc, text)?,
    })
}

/// Whether an answer is as a row expects.
fn is_wanted(alloc: Global, row: &str, answer: &Answer) -> Result<bool, AllocError> {
    let head = answer.head.as_str();
    if head.lines().next() != marked(row, "= ") || !has_marked(row, ": ", head) {
        return Ok(false);
    }
    is_text(alloc, row, answer.text.as_str())
}

/// Whether the text of an answer is as a row expects: exactly its lines, or its lines among others.
fn is_text(alloc: Global, row: &str, text: &str) -> Result<bool, AllocError> {
    if row.contains("\n~ ") {
        return Ok(has_marked(row, "~ ", text));
    }
    match wanted_text(alloc, row) {
        Ok(wanted) => Ok(wanted.as_str() == text),
        Err(error) => Err(error),
    }
}

/// The text of the lines that a row expects.
fn wanted_text(alloc: Global, row: &str) -> Result<String, AllocError> {
    let mut wanted = String::new(alloc);
    for line in row.lines() {
        if let Some(line) = line.strip_prefix("> ") {
            wanted.push_str(line)?;
            wanted.push('\n')?;
        }
    }
    Ok(wanted)
}

/// Whether a text has each line that a row gives with a mark.
fn has_marked(row: &str, mark: &str, text: &str) -> bool {
    for line in row.lines() {
        if let Some(wanted) = line.strip_prefix(mark) {
            if !has_line(text, wanted) {
                return false;
            }
        }
    }
    true
}

/// Whether a text has a line.
fn has_line(text: &str, wanted: &str) -> bool {
    for line in text.lines() {
        if line == wanted {
            return true;
        }
    }
    false
}
