//! `lostd replay`: answers standard input on standard output.
use crate::exit_reason::ExitReason;
use crate::given::begin;
use crate::outcome::replay_outcome;
use crate::summary::{Summary, Summing};
use clap::ArgMatches;
use lost_mapping::{Moment, Source};
use lost_replay::{Turns, Watched, replay};
use std::io;

/// Answers standard input on standard output as the arguments say. If asked, or if standard error is a terminal, as
/// `is_terminal` says, the counts are written there at the end.
pub(crate) fn replay_standard_streams<R: Print + Eprint + Input + AllocGlobal>(
    rt: &R,
    given: &ArgMatches<'_>,
    is_terminal: bool,
) -> Result<(), ExitReason> {
    let (name, moment) = begun(rt, given)?;
    let turns = turns_of(given);
    let mut input = Watched::new(rt.reader());
    if !is_terminal && !given.get_flag("summary") {
        let mut output = Watched::new(io::writer(rt));
        let replayed = replay(rt.alloc(), &mut input, &mut output, &name, &moment, turns);
        return replay_outcome(replayed);
    }
    let mut output = Watched::new(Summing::new(io::writer(rt)));
    let replayed = replay(rt.alloc(), &mut input, &mut output, &name, &moment, turns);
    if let Ok(counts) = replayed {
        say_summary(rt, counts.lines, output.inner().summary());
    }
    replay_outcome(replayed)
}

/// Writes the counts of a replay to standard error.
fn say_summary<R: Eprint>(rt: &R, lines: u64, summary: Summary) {
    // If standard error fails, the exit status still tells.
    let _said = eprintln!(rt;
        "lostd: done lines={lines} refused={} edition={}",
        summary.refused, summary.edition
    );
}

/// The server's name and the moment of every answer in the arguments. Mistakes in them are reported.
pub(crate) fn begun<R: Eprint + AllocGlobal>(
    rt: &R,
    given: &ArgMatches<'_>,
) -> Result<(Source, Moment), ExitReason> {
    let name = given.get_str("name").unwrap_or("");
    let now = given.get_str("now").unwrap_or("");
    match begin(rt.alloc(), name, now) {
        Ok(begun) => Ok(begun),
        Err(reason) => Err(said_of(rt, reason, name, now)),
    }
}

/// How many lines are read at most, as the arguments say, and how many reads are made: 100 for each line, as in
/// [`Turns::USUAL`], and no fewer than there.
pub(crate) fn turns_of(given: &ArgMatches<'_>) -> Turns {
    match given.get_one::<u32>("lines") {
        Some(lines) => Turns {
            lines: u64::from(lines),
            reads: u64::from(lines).saturating_mul(100).max(Turns::USUAL.reads),
        },
        None => Turns::USUAL,
    }
}

/// Reports a bad name or a bad moment with its word, and gives the reason of a mistake that was reported already; any
/// other reason is given unchanged.
pub(crate) fn said_of<R: Eprint>(rt: &R, reason: ExitReason, name: &str, now: &str) -> ExitReason {
    if reason == ExitReason::Name {
        let text = reason.text();
        // If standard error fails, the exit status still tells.
        let _said = eprintln!(rt; "lostd: --name '{name}' {text}");
        return ExitReason::CommandLine;
    }
    said_of_time(rt, reason, "now", now)
}

/// Reports a bad moment with its option and its word, as [`said_of`] does.
pub(crate) fn said_of_time<R: Eprint>(
    rt: &R,
    reason: ExitReason,
    option: &str,
    time: &str,
) -> ExitReason {
    if reason != ExitReason::Now {
        return reason;
    }
    let text = reason.text();
    // If standard error fails, the exit status still tells.
    let _said = eprintln!(rt; "lostd: --{option} '{time}' {text}");
    ExitReason::CommandLine
}
