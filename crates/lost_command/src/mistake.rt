//! The output of the command line's parser: help, the version, and mistakes.
use crate::exit_reason::ExitReason;
use clap::Error;
use clap::error::ErrorKind as ClapKind;
use lost_lines::ServeError;
use std::alloc::{AllocError, Global};

/// Prints the output of the command line's parser. `command` is the first word. Help and the version go to standard
/// output and end the program well. A mistake is one line on standard error.
pub(crate) fn show<R: Print + Eprint>(
    rt: &R,
    alloc: Global,
    command: Option<&str>,
    error: &Error,
) -> Result<(), ExitReason> {
    match error.kind() {
        ClapKind::OutOfMemory => Err(ExitReason::MEMORY),
        ClapKind::DisplayHelp | ClapKind::DisplayVersion => {
            error
                .print(rt)
                .map_err(|_| ExitReason::Run(ServeError::Write))
        }
        _ => {
            let Ok(line) = mistake_line(alloc, error) else {
                return Err(ExitReason::MEMORY);
            };
            let hint = hint_of(command, error.kind(), line.as_str());
            // If standard error fails too, the exit status still tells.
            let _said = eprintln!(rt; "lostd: {line}; {hint}");
            Err(ExitReason::CommandLine)
        }
    }
}

/// What to do about a mistake on the command line, whose first word is `command`.
fn hint_of(command: Option<&str>, kind: ClapKind, line: &str) -> &'static str {
    match (kind, command) {
        (ClapKind::MissingSubcommand | ClapKind::InvalidSubcommand, _) => "see `lostd --help`",
        (_, Some("serve")) => "see `lostd serve --help`",
        (ClapKind::UnknownArgument, _) if !line.starts_with("unexpected argument '-") => {
            "lines come from standard input: use `< FILE`"
        }
        (_, Some("check")) => "see `lostd check --help`",
        _ => "see `lostd replay --help`",
    }
}

/// A mistake on one line: the first paragraph of its text, without the word `error:` before it, and the closest name if a
/// name is unknown.
fn mistake_line(alloc: Global, error: &Error) -> Result<String, AllocError> {
    let text = format!(in alloc; "{error}")?;
    let mut line = String::new(alloc);
    for word in first_paragraph(text.as_str())
        .split_ascii_whitespace()
        .skip(1)
    {
        if !line.is_empty() {
            line.push(' ')?;
        }
        line.push_str(word)?;
    }
    if let Some(name) = closest_name(text.as_str()) {
        let question = format!(in alloc; " (did you mean {name}?)")?;
        line.push_str(question.as_str())?;
    }
    Ok(line)
}

/// The name that the parser found closest to an unknown one, in quotes.
fn closest_name(text: &str) -> Option<&str> {
    let (_, tip) = text.split_once("tip: a similar ")?;
    let (_, name) = tip.split_once(" exists: ")?;
    match name.split_once('\n') {
        Some((name, _)) => Some(name),
        None => Some(name),
    }
}

/// A text up to its first empty line.
fn first_paragraph(text: &str) -> &str {
    match text.split_once("\n\n") {
        Some((first, _)) => first,
        None => text,
    }
}
