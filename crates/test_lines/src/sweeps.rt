//! A stream over each reader and writer that fails.
use crate::by::{By, Outcome, served};
use crate::telling::{tell_counts, tell_folded, tell_text};
use lost_spec::Coded;
use lost_worker::{ServeError, Turns};
use std::alloc::AllocError;
use std::io;
use std::sync::Wait;
use test_parts::{Feed, NEVER, Setting, Sink, Spaces};

/// The server of a stream, and the stream's bytes.
#[derive(Drop)]
pub(crate) struct Sweep<'a> {
    pub(crate) setting: &'a Setting,
    pub(crate) by: By,
    pub(crate) bytes: &'a [u8],
}

/// How many runs ended in the fault that they should, and how many wrote a front of the text of the run with no fault.
#[derive(Drop)]
struct Sums {
    faults: u64,
    fronts: u64,
}

impl Sums {
    /// No run.
    fn new() -> Sums {
        Sums {
            faults: 0,
            fronts: 0,
        }
    }

    /// Counts a run.
    fn add(&mut self, is_fault: bool, is_front: bool) {
        self.faults = self.faults.saturating_add(u64::from(is_fault));
        self.fronts = self.fronts.saturating_add(u64::from(is_front));
    }
}

/// Serves a stream with no fault, in pieces of at most so many bytes, and prints what was written.
pub(crate) fn whole<R: Wait + Print + AllocGlobal>(
    rt: &R,
    sweep: &Sweep,
    most: usize,
) -> io::Result<()> {
    let feed = Feed::of(sweep.bytes, most);
    tell(rt, &run(rt, sweep, feed, most, NEVER, false)?)
}

/// Serves a stream in pieces of at most so many bytes, once for each read: that read fails.
pub(crate) fn reads<R: Wait + Print + AllocGlobal>(
    rt: &R,
    sweep: &Sweep,
    most: usize,
) -> io::Result<()> {
    let good = run(
        rt,
        sweep,
        Feed::of(sweep.bytes, most),
        usize::MAX,
        NEVER,
        false,
    )?;
    let sums = fail_reads(rt, sweep, most, &good)?;
    println!(rt;
        "{} reads fail: {} faults at that read, {} fronts",
        good.reads, sums.faults, sums.fronts
    )
}

/// Serves a stream once for each read of the run with no fault: that read fails.
fn fail_reads<R: Wait + AllocGlobal>(
    rt: &R,
    sweep: &Sweep,
    most: usize,
    good: &Outcome,
) -> io::Result<Sums> {
    let mut sums = Sums::new();
    for failing in 1..good.reads.saturating_add(1) {
        let mut feed = Feed::of(sweep.bytes, most);
        feed.failing = failing;
        let outcome = run(rt, sweep, feed, usize::MAX, NEVER, false)?;
        let is_there = outcome.result == Err(ServeError::Read) && outcome.reads == failing;
        sums.add(is_there, good.text.starts_with(outcome.text.as_slice()));
    }
    Ok(sums)
}

/// Serves a stream twice for each write: once it fails, once it takes no byte. After a failed write the input is not
/// read to its end.
pub(crate) fn writes<R: Wait + Print + AllocGlobal>(rt: &R, sweep: &Sweep) -> io::Result<()> {
    let feed = Feed::of(sweep.bytes, PIECE);
    let good = run(rt, sweep, feed, usize::MAX, NEVER, false)?;
    for takes_none in [false, true] {
        let sums = fail_writes(rt, sweep, takes_none, &good)?;
        let how = if takes_none { "take nothing" } else { "fail" };
        println!(rt;
            "{} writes {how}: {} faults before the end, {} fronts",
            good.writes, sums.faults, sums.fronts
        )?;
    }
    Ok(())
}

/// Serves a stream once for each write of the run with no fault: that write fails, or takes no byte.
fn fail_writes<R: Wait + AllocGlobal>(
    rt: &R,
    sweep: &Sweep,
    takes_none: bool,
    good: &Outcome,
) -> io::Result<Sums> {
    let mut sums = Sums::new();
    for failing in 1..good.writes.saturating_add(1) {
        let feed = Feed::of(sweep.bytes, PIECE);
        let outcome = run(rt, sweep, feed, usize::MAX, failing, takes_none)?;
        let is_early = outcome.result == Err(ServeError::Write) && outcome.reads < good.reads;
        sums.add(is_early, good.text.starts_with(outcome.text.as_slice()));
    }
    Ok(sums)
}

/// Serves each proper prefix of a stream as a stream of its own. Prints what was written in all, how many lines were
/// answered, and for how many prefixes nothing was written.
pub(crate) fn prefixes<R: Wait + Print + AllocGlobal>(rt: &R, sweep: &Sweep) -> io::Result<()> {
    let mut text = Vec::new(rt.alloc());
    let (mut lines, mut silent) = (0u64, 0u64);
    for length in 0..sweep.bytes.len() {
        let feed = Feed::of(&sweep.bytes[..length], usize::MAX);
        let outcome = run(rt, sweep, feed, usize::MAX, NEVER, false)?;
        if let Ok(counts) = outcome.result {
            lines = lines.saturating_add(counts.lines);
        }
        silent = silent.saturating_add(u64::from(outcome.text.is_empty()));
        text.extend_from_slice(outcome.text.as_slice())?;
    }
    tell_folded(rt, text.as_slice())?;
    println!(rt;
        "{} prefixes, {lines} lines, {silent} with no output",
        sweep.bytes.len()
    )
}

/// Serves spaces that never end, for at most 10 lines and 1,000 reads.
pub(crate) fn spaces<R: Wait + Print + AllocGlobal>(rt: &R, sweep: &Sweep) -> io::Result<()> {
    let turns = Turns {
        lines: 10,
        reads: 1_000,
    };
    let alloc = rt.alloc();
    let sink = Sink::new(alloc, usize::MAX)?;
    match served(rt, alloc, sweep.setting, sweep.by, Spaces, sink, turns) {
        Some(outcome) => tell(rt, &outcome),
        None => Err(AllocError.into()),
    }
}

/// The most bytes of a read where writes fail.
const PIECE: usize = 100;

/// Serves a stream as it is read, over a writer that takes at most so many bytes at once and fails, or takes nothing,
/// at one of its writes.
fn run<R: Wait + AllocGlobal>(
    rt: &R,
    sweep: &Sweep,
    feed: Feed,
    most: usize,
    failing: u64,
    takes_none: bool,
) -> io::Result<Outcome> {
    let alloc = rt.alloc();
    let mut sink = Sink::new(alloc, most)?;
    sink.failing_write = failing;
    sink.takes_none = takes_none;
    match served(rt, alloc, sweep.setting, sweep.by, feed, sink, Turns::USUAL) {
        Some(outcome) => Ok(outcome),
        None => Err(AllocError.into()),
    }
}

/// Prints what was written, and how it ended.
fn tell<R: Print>(rt: &R, outcome: &Outcome) -> io::Result<()> {
    tell_text(rt, outcome.text.as_slice())?;
    match outcome.result {
        Ok(counts) => tell_counts(rt, counts),
        Err(fault) => println!(rt; "fault {} after {} reads", fault.code(), outcome.reads),
    }
}
