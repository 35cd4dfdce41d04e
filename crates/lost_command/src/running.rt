//! Runs what the command line says.
use crate::arguments::command;
use crate::checking::check_as_ordered;
use crate::exit_reason::ExitReason;
use crate::mistake::show;
use crate::order::{Order, audit_order_of, expired_at_of, explain_order_of, order_of};
use crate::replaying::replay_standard_streams;
use clap::ArgMatches;
use std::fs::Files;

/// Runs what the command line of the program of this version says. What needs a server or a journal it does not do, but
/// gives the order to do it (own rule). `is_terminal` says whether standard error is a terminal.
///
/// # Errors
/// The reason for an early end. If its text is empty, it was reported on standard error; else the caller reports it.
pub fn run<'a, R: Print + Eprint + Input + Files + AllocGlobal>(
    rt: &R,
    words: &'a [String],
    version: &'static str,
    is_terminal: bool,
) -> Result<Option<Order<'a>>, ExitReason> {
    let Ok(command) = command(rt.alloc(), version) else {
        return Err(ExitReason::MEMORY);
    };
    match command.try_get_matches_from(words) {
        Ok(matches) => match matches.subcommand() {
            Some((first, given)) => run_command(rt, first, given, is_terminal),
            None => Err(ExitReason::Words),
        },
        Err(error) => {
            let first = words.get(1).map(|word| word.as_str());
            show(rt, rt.alloc(), first, &error)?;
            Ok(None)
        }
    }
}

/// Runs the command that is the first word.
fn run_command<'a, R: Print + Eprint + Input + Files + AllocGlobal>(
    rt: &R,
    first: &str,
    given: &ArgMatches<'a>,
    is_terminal: bool,
) -> Result<Option<Order<'a>>, ExitReason> {
    match first {
        "replay" => replay_standard_streams(rt, given, is_terminal)?,
        "check" => {
            if let Some(journal) = given.get_str("journal") {
                return Ok(Some(Order::CheckJournal(journal)));
            }
            check_as_ordered(rt, given, is_terminal)?;
        }
        "audit" => return Ok(Some(Order::Audit(audit_order_of(rt, given)?))),
        "explain" => return Ok(Some(Order::Explain(explain_order_of(rt, given)?))),
        "compact" => {
            let expired_at = expired_at_of(rt, given)?;
            let journal = given.get_str("journal").unwrap_or("");
            return Ok(Some(Order::Compact(journal, expired_at)));
        }
        "serve" => return Ok(Some(Order::Serve(order_of(rt, given)?))),
        _ => return Err(ExitReason::Words),
    }
    Ok(None)
}
