//! Prints how a stream was served.
use lost_spec::Coded;
use lost_worker::{Counts, ServeError};
use std::io;
use test_parts::Event;

/// Prints what was written, and how it ended.
pub(crate) fn tell<R: Print>(
    rt: &R,
    written: &[u8],
    outcome: Result<Counts, ServeError>,
) -> io::Result<()> {
    tell_text(rt, written)?;
    match outcome {
        Ok(counts) => tell_counts(rt, counts),
        Err(fault) => println!(rt; "fault {}", fault.code()),
    }
}

/// Prints what was written.
pub(crate) fn tell_text<R: Print>(rt: &R, written: &[u8]) -> io::Result<()> {
    match std::str::from_utf8(written) {
        Ok(text) => print!(rt; "{text}"),
        Err(_) => Ok(()),
    }
}

/// Prints the lines that were written.
pub(crate) fn tell_lines<R: Print>(rt: &R, written: &[u8]) -> io::Result<()> {
    for line in std::str::from_utf8(written).unwrap_or("no text").lines() {
        println!(rt; "{line}")?;
    }
    Ok(())
}

/// Prints counts.
pub(crate) fn tell_counts<R: Print>(rt: &R, counts: Counts) -> io::Result<()> {
    println!(rt;
        "lines {} long {} memory {} faults {}",
        counts.lines, counts.long_lines, counts.memory, counts.faults
    )
}

/// Prints what was written. A line that comes several times in a row is printed once, with how often.
pub(crate) fn tell_folded<R: Print>(rt: &R, written: &[u8]) -> io::Result<()> {
    let Ok(text) = std::str::from_utf8(written) else {
        return Ok(());
    };
    let mut last: &[u8] = b"";
    let mut count = 0u64;
    for line in text.lines() {
        if line.as_bytes() != last {
            tell_repeated(rt, last, count)?;
            last = line.as_bytes();
            count = 0;
        }
        count = count.saturating_add(1);
    }
    tell_repeated(rt, last, count)
}

/// Prints a line that comes so many times in a row.
fn tell_repeated<R: Print>(rt: &R, line: &[u8], count: u64) -> io::Result<()> {
    let Ok(line) = std::str::from_utf8(line) else {
        return Ok(());
    };
    match count {
        0 => Ok(()),
        1 => println!(rt; "{line}"),
        _ => println!(rt; "{line} ({count} times)"),
    }
}

/// Prints what happened, in order, on one line.
pub(crate) fn tell_events<R: Print>(rt: &R, events: &[Event]) -> io::Result<()> {
    print!(rt; "events:")?;
    for event in events {
        tell_event(rt, event)?;
    }
    println!(rt)
}

/// Prints one thing that happened.
fn tell_event<R: Print>(rt: &R, event: &Event) -> io::Result<()> {
    match event {
        Event::Read => print!(rt; " read"),
        Event::Sent(bytes) => print!(rt; " sent-{bytes}"),
        Event::Asked(line) => print!(rt; " asked-{line}"),
        Event::Told(line) => print!(rt; " told-{line}"),
    }
}
