//! `lostd serve` runs a server as ordered.
ghost use Rattle.std.specs.Prelude.{◌≡◌};
ghost use Rattle.lostd.specs.ExitReasons.{journal_reason, log_reason, serve_reason, map_reason};

use crate::journal_reasons::{recovery_reason, say_of_stop};
use lost_command::{ExitReason, LogReplies, ServeOrder, opening_failed};
use lost_server::{
    ConnectionLimits, ConnectionSettings, JournalFault, KeptReply, Listeners, LogFault, MapFault,
    OnRefusal, Progress, Ready, RunFault, ServeError, ServerFault, ServerOrder, System, run_server,
};
use lost_sockets::{Addresses, ListenError, Listener};
use std::io;
use std::io::ErrorKind;
use std::net::{Net, TcpListener, TcpStream};
use std::sync::atomic::AtomicBool;
use std::time::Duration;

/// Runs a server as ordered, reports when it is ready, and prints its counts at the end. `is_terminal` says whether
/// standard error is a terminal.
pub(crate) fn serve_as_ordered<
    R: System + Print + Net<Listener = TcpListener, Stream = TcpStream> + Send + Sync,
>(rt: &R, order: &ServeOrder<'_>, is_terminal: bool) -> Result<(), ExitReason> {
    let ordered = ServerOrder {
        name: &order.name,
        map: order.map,
        journal: order.journal,
        answers: answers_of(order),
        on_refusal: if order.keeps_going {
            OnRefusal::GoOn
        } else {
            OnRefusal::Stop
        },
        addresses: order.addresses,
        workers: order.workers,
        connections: order.connections,
        settings: settings_of(order),
        limits: limits_of(order),
        progress: if is_terminal {
            Progress::Shown
        } else {
            Progress::Hidden
        },
    };
    // Signals end the program, so nothing sets this.
    let is_over = AtomicBool::new(false);
    match run_server(rt, &ordered, &ReadyLine { rt }, &is_over) {
        Ok(counts) => {
            println!(rt; "done lines={} faults={}", counts.lines, counts.faults).map_err(
                |_| ExitReason::Run(ServeError::Write),
            )
        }
        Err(fault) => Err(reason_of(rt, order, fault)),
    }
}

/// Prints on standard output that the server is ready.
#[derive(Drop)]
struct ReadyLine<'r, R> {
    rt: &'r R,
}

impl<R: Print> Ready for ReadyLine<'_, R> {
    fn begins(&self, _status: &Listener) {}

    fn ready(&self, _listeners: &Listeners) -> io::Result<()> {
        println!(self.rt; "ready")
    }
}

/// The order's log of answers, if there is one, and what it keeps of replies.
fn answers_of<'a>(order: &ServeOrder<'a>) -> Option<(&'a str, KeptReply)> {
    match order.log {
        Some(path) => Some((path, kept_of(order.log_replies))),
        None => None,
    }
}

/// What the log of answers keeps of replies.
fn kept_of(replies: LogReplies) -> KeptReply {
    match replies {
        LogReplies::Whole => KeptReply::Whole,
        LogReplies::Digest => KeptReply::Digest,
        LogReplies::Nothing => KeptReply::Nothing,
    }
}

/// The order's settings of connections.
fn settings_of(order: &ServeOrder<'_>) -> ConnectionSettings {
    ConnectionSettings {
        idle: limit_of(order.idle),
        desk_idle: limit_of(order.desk_idle),
        is_quiet: order.is_quiet,
    }
}

/// The order's limits on query connections.
fn limits_of(order: &ServeOrder<'_>) -> ConnectionLimits {
    ConnectionLimits {
        line_time: limit_of(order.line_time),
        reply_time: limit_of(order.reply_time),
        most_connections: order.most_connections,
        per_address: match order.per_address {
            0 => None,
            per_address => Some(per_address),
        },
    }
}

/// This many seconds; `None` for 0, which means no limit.
fn limit_of(seconds: u32) -> Option<Duration> {
    match seconds {
        0 => None,
        seconds => Some(Duration::from_secs(u64::from(seconds))),
    }
}

/// The reason why a server's fault ends the program. A mistake in an argument or its map is reported here.
fn reason_of<R: Eprint>(rt: &R, order: &ServeOrder<'_>, fault: ServerFault) -> ExitReason {
    match fault {
        ServerFault::Run(fault) => run_reason(fault),
        ServerFault::Ready => ExitReason::Run(ServeError::Write),
        ServerFault::Address(option, error) => {
            say_of_address(rt, &order.addresses, option, error);
            ExitReason::Address
        }
        ServerFault::Map(fault) => {
            say_of_map(rt, order.map.unwrap_or(""), fault);
            map_reason(fault)
        }
        ServerFault::Log(fault) => {
            say_of_log(rt, order.log.unwrap_or(""), fault);
            log_reason(fault)
        }
        ServerFault::Journal(fault) => {
            say_of_journal(rt, order, fault);
            journal_reason(fault)
        }
    }
}

/// The reason why a run's fault ends the program.
fn run_reason(fault: RunFault) -> ExitReason
    ensures { result ≡ serve_reason fault }
{
    match fault {
        RunFault::Workers => ExitReason::Workers,
        RunFault::Accept => ExitReason::Accept,
        RunFault::Memory => ExitReason::MEMORY,
    }
}

/// The reason why a map's fault ends the program.
fn map_reason(fault: MapFault) -> ExitReason
    ensures { result ≡ map_reason fault }
{
    match fault {
        MapFault::Unopened(_) | MapFault::Unread => ExitReason::File,
        MapFault::Refused { .. } => ExitReason::MapRefused,
        MapFault::Memory => ExitReason::MEMORY,
    }
}

/// The reason why a journal's fault ends the program.
fn journal_reason(fault: JournalFault) -> ExitReason
    ensures { result ≡ journal_reason fault }
{
    match fault {
        JournalFault::NoPath | JournalFault::Holds(_) => ExitReason::CommandLine,
        JournalFault::NotRecovered(stopped) => recovery_reason(stopped.fault),
        JournalFault::Unopened(_) | JournalFault::NotKept(_) => ExitReason::File,
        JournalFault::Memory => ExitReason::MEMORY,
    }
}

/// The reason why a log's fault ends the program.
fn log_reason(fault: LogFault) -> ExitReason
    ensures { result ≡ log_reason fault }
{
    match fault {
        LogFault::Unopened(_) => ExitReason::File,
        LogFault::Memory => ExitReason::MEMORY,
    }
}

/// Reports why a log was not begun; a refusal of memory is reported at the end.
fn say_of_log<R: Eprint>(rt: &R, path: &str, fault: LogFault) {
    // If standard error fails, the exit status still tells.
    let _said = match fault {
        LogFault::Unopened(error) => eprintln!(rt; "lostd: --log: {path}: {error}"),
        LogFault::Memory => Ok(()),
    };
}

/// Reports why an address cannot be listened on.
fn say_of_address<R: Eprint>(rt: &R, addresses: &Addresses<'_>, option: &str, error: ListenError) {
    let address = match option {
        "--queries" => addresses.queries,
        "--desk" => addresses.desk.unwrap_or(""),
        _ => addresses.status.unwrap_or(""),
    };
    // If standard error fails, the exit status still tells.
    let _said = eprintln!(rt; "lostd: {option} '{address}' {}", error.text());
}

/// Reports why a map was not loaded; a refusal of memory is reported at the end.
fn say_of_map<R: Eprint>(rt: &R, path: &str, fault: MapFault) {
    // If standard error fails, the exit status still tells.
    let _said = match fault {
        MapFault::Unopened(kind) => {
            eprintln!(rt;
                "lostd: --map '{path}' cannot be read: {}",
                opening_failed(kind)
            )
        }
        MapFault::Unread => eprintln!(rt; "lostd: --map '{path}' could not be read to the end"),
        MapFault::Refused { refused, pending } => {
            eprintln!(rt;
                "lostd: --map '{path}': {refused} lines refused, {pending} edits after the last commit: the server does not start; see --keep-going"
            )
        }
        MapFault::Memory => Ok(()),
    };
}

/// Reports why a journal is not used; a refusal of memory before it was opened is reported at the end.
fn say_of_journal<R: Eprint>(rt: &R, order: &ServeOrder<'_>, fault: JournalFault) {
    let path = order.journal.unwrap_or("");
    let map = order.map.unwrap_or("");
    // If standard error fails, the exit status still tells.
    let _said = match fault {
        JournalFault::NoPath => eprintln!(rt; "lostd: --journal is empty: it must name a file"),
        JournalFault::Unopened(fault) => eprintln!(rt; "lostd: --journal: {path}: {fault}"),
        JournalFault::NotRecovered(stopped) => say_of_stop(rt, path, stopped),
        JournalFault::Holds(edits) => {
            eprintln!(rt;
                "lostd: --journal: {path} holds {edits} edits, so --map {map} is not read: compare both by \"lostd check\" and the map digest, and leave out one of them"
            )
        }
        JournalFault::NotKept(fault) => eprintln!(rt; "lostd: --journal: {path}: {fault}"),
        JournalFault::Memory => Ok(()),
    };
}
