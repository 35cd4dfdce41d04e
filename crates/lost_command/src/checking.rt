//! `lostd check`: reports on standard output the lines that `replay` would refuse.
use crate::exit_reason::ExitReason;
use crate::opening::opening_failed;
use crate::outcome::check_outcome;
use crate::progress::Progress;
use crate::replaying::{begun, turns_of};
use clap::ArgMatches;
use lost_mapping::{Moment, Source};
use lost_replay::{Counts, Findings, ServeError, Turns, Watched, check_lines};
use std::fs::Files;
use std::io::{ErrorKind, Read, Write};
use std::{fs, io};

/// Checks the files that the arguments name, each by itself, or else standard input. What is found goes to standard
/// output line by line, and then one line of counts. If standard error is a terminal, as `is_terminal` says, the
/// progress of a long input is written there.
pub(crate) fn check_as_ordered<R: Print + Eprint + Input + Files + AllocGlobal>(
    rt: &R,
    given: &ArgMatches<'_>,
    is_terminal: bool,
) -> Result<(), ExitReason> {
    let (name, moment) = begun(rt, given)?;
    let checking = Checking {
        rt,
        name,
        moment,
        progress: Progress {
            rt,
            is_shown: is_terminal,
        },
        turns: turns_of(given),
        is_quiet: given.get_flag("quiet"),
    };
    match given.get_strs("files") {
        Some(files) if !files.is_empty() => checking.check_files(files),
        _ => checking.check(rt.reader()),
    }
}

/// How inputs are checked.
#[derive(Drop)]
struct Checking<'r, R> {
    rt: &'r R,
    name: Source,
    moment: Moment,
    progress: Progress<'r, R>,
    turns: Turns,
    /// Whether only counts are printed.
    is_quiet: bool,
}

impl<R: Print + Eprint + Files + AllocGlobal> Checking<'_, R> {
    /// Checks each file, in order. If there are several, the name of each stands before what is found in it.
    fn check_files(&self, files: &[&str]) -> Result<(), ExitReason> {
        let mut outcome = Ok(());
        for file in files {
            if files.len() > 1 {
                println!(self.rt; "{file}:").map_err(unwritten)?;
            }
            match self.check_file(file) {
                Ok(()) => {}
                Err(ExitReason::Found) => outcome = Err(ExitReason::Found),
                Err(reason) => return Err(reason),
            }
        }
        outcome
    }

    /// Checks a file. If it cannot be read, that is reported.
    fn check_file(&self, file: &str) -> Result<(), ExitReason> {
        if self.is_folder(file) {
            return self.say_unopened(file, ErrorKind::IsADirectory);
        }
        match fs::open(self.rt, file) {
            Ok(opened) => match self.check(opened) {
                Err(ExitReason::Run(ServeError::Read)) => self.say_unread(file),
                outcome => outcome,
            },
            Err(error) => self.say_unopened(file, error.kind()),
        }
    }

    /// Whether a path leads to a folder.
    fn is_folder(&self, path: &str) -> bool {
        fs::metadata(self.rt, path).is_ok_and(|metadata| metadata.is_dir())
    }

    /// Reports a file that cannot be opened.
    fn say_unopened(&self, file: &str, kind: ErrorKind) -> Result<(), ExitReason> {
        let cause = opening_failed(kind);
        // If standard error fails, the exit status still tells.
        let _said = eprintln!(self.rt; "lostd: '{file}' cannot be read: {cause}");
        Err(ExitReason::File)
    }

    /// Reports a file whose read failed.
    fn say_unread(&self, file: &str) -> Result<(), ExitReason> {
        // If standard error fails, the exit status still tells.
        let _said = eprintln!(self.rt; "lostd: '{file}' could not be read to the end");
        Err(ExitReason::File)
    }

    /// Checks an input.
    fn check<I: Read + Drop>(&self, input: I) -> Result<(), ExitReason> {
        let mut found = Findings::default();
        let checked = if self.is_quiet {
            self.check_to(input, io::sink(), &mut found)
        } else {
            self.check_to(input, io::writer(self.rt), &mut found)
        };
        if let Ok(counts) = checked {
            self.say_counts(counts.lines, &found)?;
        }
        check_outcome(checked, found.is_nothing())
    }

    /// Checks an input, and writes the reports on its lines to `output`.
    fn check_to<I: Read + Drop, W: Write + Drop>(
        &self,
        input: I,
        output: W,
        found: &mut Findings,
    ) -> Result<Counts, ServeError> {
        let mut input = Watched::new(input);
        let mut output = Watched::new(output);
        check_lines(
            self.rt.alloc(),
            &mut input,
            &mut output,
            &self.name,
            &self.moment,
            &self.progress,
            self.turns,
            found,
        )
    }

    /// Prints the counts.
    fn say_counts(&self, lines: u64, found: &Findings) -> Result<(), ExitReason> {
        println!(self.rt;
            "done lines={lines} refused={} badRequest={} internalError={} edition={}",
            found.refused, found.bad_requests, found.unjudged, found.edition
        )
        .map_err(unwritten)
    }
}

/// Standard output failed.
fn unwritten(_error: io::Error) -> ExitReason {
    ExitReason::Run(ServeError::Write)
}
