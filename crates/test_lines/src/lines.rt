//! The commands of the script of lines. Each line is answered by its length.
//!
//! `text TEXT` begins a stream, in which `\n` and `\r` are spelled, and `add NUMBER TEXT` adds a text to it so many
//! times. The stream stays for the commands after it. `serve` serves it as its words say, and prints what was written,
//! how it ended, and the flags that were left. `note` also prints what happened, in order: each read, how many bytes a
//! flush has sent in all, and each line that the gate was asked for and told of. The words of a command are
//!
//! - `whole`, which changes nothing; `reading=N`, to read at most so many bytes at once; `pieces=N`, to write so too;
//! - `read-fails=N`, `read-interrupted=N`, `write-fails=N`, `write-takes-none=N`, `flush-fails=N`: which call fails;
//! - `lines=N`, `reads=N`: how many lines are answered, and how many reads are made, at most;
//! - `refuse=N`, for a gate that refuses a line and all after it, and `gate`, for one that refuses none;
//! - `spaces`: spaces that come for ever are served in place of the stream.
use crate::lengths::Lengths;
use crate::plan::Plan;
use crate::recording_gate::RecordingGate;
use crate::spelled::add_spelled;
use crate::stream::no_command;
use crate::telling::{tell_events, tell_folded};
use lost_lines::{Counts, Gate, NoGate, ServeError, Turns, Watched, run_lines};
use lost_spec::Coded;
use std::alloc::{AllocError, Global};
use std::io;
use std::io::Read;
use test_parts::{Diary, Recorded, Sink, Spaces};

/// How a stream was served, what was written, how many reads were made, and the flags that were left.
#[derive(Drop)]
struct Outcome {
    result: Result<Counts, ServeError>,
    text: Vec<u8>,
    reads: u64,
    is_input_failed: bool,
    is_input_ended: bool,
    is_output_failed: bool,
}

/// Runs the script.
pub(crate) fn run<R: Print + AllocGlobal>(rt: &R, script: &str) -> io::Result<()> {
    let mut bytes = Vec::new(rt.alloc());
    for line in script.lines() {
        run_line(rt, &mut bytes, line)?;
    }
    Ok(())
}

/// Runs a line of the script, over the stream so far.
fn run_line<R: Print + AllocGlobal>(rt: &R, bytes: &mut Vec<u8>, line: &str) -> io::Result<()> {
    match line.split_once(' ').unwrap_or((line, "")) {
        ("text", spelled) => {
            bytes.clear();
            add(bytes, 1, spelled)
        }
        ("add", rest) => {
            let (count, spelled) = rest.split_once(' ').unwrap_or((rest, ""));
            add(bytes, count.parse::<u64>().unwrap_or(0), spelled)
        }
        _ => command(rt, bytes.as_slice(), line),
    }
}

/// Adds a text so many times; `\n` and `\r` are spelled in it.
fn add(bytes: &mut Vec<u8>, count: u64, spelled: &str) -> io::Result<()> {
    for _ in 0..count {
        add_spelled(bytes, spelled)?;
    }
    Ok(())
}

/// Prints a command, and serves a stream as it says.
fn command<R: Print + AllocGlobal>(rt: &R, bytes: &[u8], line: &str) -> io::Result<()> {
    println!(rt; "-- {line}")?;
    let (word, rest) = line.split_once(' ').unwrap_or((line, "whole"));
    match Plan::of(rest) {
        Some(plan) => serve(rt, bytes, word, plan),
        None => no_command(rt),
    }
}

/// Serves a stream, and prints what a command wants.
fn serve<R: Print + AllocGlobal>(rt: &R, bytes: &[u8], word: &str, plan: Plan) -> io::Result<()> {
    let diary = Diary::new(rt.alloc());
    let outcome = served(rt.alloc(), bytes, plan, &diary)?;
    tell(rt, &outcome)?;
    match word {
        "serve" => Ok(()),
        "note" => tell_events(rt, diary.into_events().as_slice()),
        _ => no_command(rt),
    }
}

/// Serves a stream.
fn served(alloc: Global, bytes: &[u8], plan: Plan, diary: &Diary) -> Result<Outcome, AllocError> {
    let mut sink = Sink::new(alloc, usize::MAX)?;
    plan.spoil(&mut sink);
    if plan.is_endless {
        return Ok(run_through(alloc, Spaces, sink, diary, &NoGate, plan.turns));
    }
    let feed = plan.feed(bytes);
    Ok(match plan.refused {
        Some(refused) => {
            let gate = RecordingGate { diary, refused };
            run_through(alloc, feed, sink, diary, &gate, plan.turns)
        }
        None => run_through(alloc, feed, sink, diary, &NoGate, plan.turns),
    })
}

/// Serves a stream through a gate, and notes what happens.
fn run_through<R: Read + Drop, G: Gate>(
    alloc: Global,
    source: R,
    sink: Sink,
    diary: &Diary,
    gate: &G,
    turns: Turns,
) -> Outcome {
    let mut input = Watched::new(Recorded::new(source, diary));
    let mut output = Watched::new(Recorded::new(sink, diary));
    let result = run_lines(alloc, &mut input, &mut output, &mut Lengths, gate, turns);
    let is_output_failed = output.failed();
    Outcome {
        result,
        text: output.into_inner().into_inner().text,
        reads: input.reads(),
        is_input_failed: input.failed(),
        is_input_ended: input.ended(),
        is_output_failed,
    }
}

/// Prints what was written, how a stream ended, and the flags that were left.
fn tell<R: Print>(rt: &R, outcome: &Outcome) -> io::Result<()> {
    tell_folded(rt, outcome.text.as_slice())?;
    tell_end(rt, outcome.result)?;
    print!(rt; "; {} reads, {} bytes", outcome.reads, outcome.text.len())?;
    tell_flags(rt, outcome)
}

/// Prints how a stream ended.
fn tell_end<R: Print>(rt: &R, end: Result<Counts, ServeError>) -> io::Result<()> {
    match end {
        Ok(counts) => print!(rt;
            "lines {} long {} memory {} faults {}",
            counts.lines, counts.long_lines, counts.memory, counts.faults
        ),
        Err(fault) => print!(rt; "fault {}", fault.code()),
    }
}

/// Prints the flags that were left, and ends the line.
fn tell_flags<R: Print>(rt: &R, outcome: &Outcome) -> io::Result<()> {
    for (is_set, what) in [
        (outcome.is_input_ended, "input ended"),
        (outcome.is_input_failed, "input failed"),
        (outcome.is_output_failed, "output failed"),
    ] {
        if is_set {
            print!(rt; ", {what}")?;
        }
    }
    println!(rt)
}
