//! The rows that the gate runs: of values, books and indexes, of lines and streams of them, and of a server. Each word of
//! the command line is a command. The commands run in turn, and each prints below its word. The exit status is 1 where
//! something is not as expected, and 2 where there is no word, or an unknown one.
//!
//! `serve` runs servers ([`serving`]). `calls` makes the calls that take no memory, on values, books, indexes and desks
//! made before; `prepared` makes these alone. The other libraries say what their commands do: test_cases of `NAME.cases`,
//! test_books of `edits`, test_index from `covers` to `sets`, test_desks from `sessions` to `cache`, test_journal
//! of `journal` and `kept`, test_lines from `streams` to `lines`, test_status of `orders` and `status`. All but `prepared`
//! run in the gate.
#![tactic(auto)]

mod client;
mod ending;
mod serving;

use lost_server::System;
use std::io;
use std::net::{Net, TcpListener, TcpStream};
use std::process::ExitCode;
use std::rt::Files;
use std::sync::Wait;
use test_parts::given;

/// The commands.
const WORDS: [&str; 33] = [
    "book.cases",
    "civic.cases",
    "digest.cases",
    "geo.cases",
    "line.cases",
    "mapping.cases",
    "place.cases",
    "reply.cases",
    "sizes.cases",
    "stamp.cases",
    "token.cases",
    "tokens.cases",
    "urn.cases",
    "edits",
    "covers",
    "index",
    "keys",
    "chunks",
    "sets",
    "sessions",
    "worlds",
    "desk",
    "cache",
    "journal",
    "kept",
    "calls",
    "prepared",
    "streams",
    "hostile",
    "lines",
    "orders",
    "status",
    "serve",
];

fn main(rt: HostRuntime) -> io::Result<ExitCode> {
    let (words, mut end) = given(&rt, "rows_gate", &WORDS)?;
    for word in &words {
        end.add(run(&rt, word.as_str())?);
    }
    end.status(&rt)
}

/// Runs a command. Says whether all is as expected.
fn run<R: System + Print + Net<Listener = TcpListener, Stream = TcpStream> + Send + Sync>(
    rt: &R,
    command: &str,
) -> io::Result<bool> {
    println!(rt; "== {command}")?;
    match command {
        "serve" => serving::run(rt)?,
        "calls" | "prepared" => print_calls(rt, command == "calls")?,
        "edits" => test_books::print_edits(rt)?,
        "covers" | "index" | "keys" | "chunks" | "sets" => return test_index::run(rt, command),
        "sessions" => return test_desks::print_sessions(rt),
        "worlds" | "desk" | "cache" => test_desks::run(rt, command)?,
        "journal" | "kept" => return test_journal::run(rt, command),
        "streams" | "hostile" | "lines" => test_lines::run(rt, command)?,
        "orders" | "status" => test_status::run(rt, command)?,
        _ => return test_cases::print_table(rt, command),
    }
    Ok(true)
}

/// Makes values, books, indexes and desks. If `are_made`, makes the calls on them that take no memory too, and prints
/// their answers.
fn print_calls<R: Files + Wait + Print + AllocGlobal>(rt: &R, are_made: bool) -> io::Result<()> {
    test_books::print_calls(rt, are_made)?;
    test_index::print_calls(rt, are_made)?;
    test_desks::print_calls(rt, are_made)
}
