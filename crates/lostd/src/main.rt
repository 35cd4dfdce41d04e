//! `lostd`: a LoST server (RFC 5222) of JSON lines. `lostd replay` answers standard input on standard output,
//! `lostd check` reports the lines that `replay` would refuse or what a journal keeps, `lostd compact` writes a journal
//! anew, `lostd audit` judges a log of answers, `lostd explain` answers as of an edition, and `lostd serve` answers
//! connections.
#![tactic(auto)]

mod accounting;
mod journal_reasons;
mod offline;
mod serving;

use accounting::{audit_as_ordered, explain_as_ordered};
use lost_command::{ExitReason, Order, end};
use lost_server::{System, VERSION};
use offline::{check_as_ordered, compact_as_ordered};
use serving::serve_as_ordered;
use std::env;
use std::io::IsTerminal;
use std::net::{Net, TcpListener, TcpStream};
use std::process::ExitCode;
use std::rt::Env;

fn main(rt: HostRuntime) -> ExitCode {
    end(&rt, run(&rt, rt.stderr().is_terminal()))
}

/// Reads the command line, and does what it says. `is_terminal` says whether standard error is a terminal.
fn run<R: System + Env + Print + Net<Listener = TcpListener, Stream = TcpStream> + Send + Sync>(
    rt: &R,
    is_terminal: bool,
) -> Result<(), ExitReason> {
    let mut words = Vec::new(rt.alloc());
    for word in env::args(rt).map_err(|error| ExitReason::of_words(&error))? {
        words.push(word).map_err(|_| ExitReason::MEMORY)?;
    }
    match lost_command::run(rt, words.as_slice(), VERSION, is_terminal)? {
        Some(Order::Serve(order)) => serve_as_ordered(rt, &order, is_terminal),
        Some(Order::CheckJournal(path)) => check_as_ordered(rt, path),
        Some(Order::Compact(path, expired_at)) => compact_as_ordered(rt, path, expired_at),
        Some(Order::Audit(order)) => audit_as_ordered(rt, &order),
        Some(Order::Explain(order)) => explain_as_ordered(rt, &order),
        None => Ok(()),
    }
}
