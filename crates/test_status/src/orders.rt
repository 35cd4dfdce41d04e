//! The orders that command lines give a server, and the exit reasons.
use lost_command::{ExitReason, ExplainOrder, Order, ServeOrder, run as run_command};
use lost_lines::ServeError;
use lost_mapping::Moment;
use lost_status::VERSION;
use std::alloc::{AllocError, Global};
use std::rt::Files;
use std::{fs, io};

/// The file of the command lines.
const TABLE: &str = "orders.rows";

/// The exit reasons. Their texts are behind a word of the command line, or stand alone.
const REASONS: [ExitReason; 9] = [
    ExitReason::Words,
    ExitReason::CommandLine,
    ExitReason::Run(ServeError::TurnsSpent),
    ExitReason::Run(ServeError::Memory),
    ExitReason::Workers,
    ExitReason::Accept,
    ExitReason::File,
    ExitReason::MapRefused,
    ExitReason::Damaged,
];

/// Prints the order of each command line of the table, and then the status and the text of each exit reason.
pub(crate) fn run<R: Files + Print + Eprint + Input + AllocGlobal>(rt: &R) -> io::Result<()> {
    let table = fs::read_to_string(rt, TABLE)?;
    for line in table.lines() {
        print_answer(rt, line)?;
    }
    print_reasons(rt)
}

/// Prints a command line, and its order or why there is none.
fn print_answer<R: Files + Print + Eprint + Input + AllocGlobal>(
    rt: &R,
    line: &str,
) -> io::Result<()> {
    println!(rt; "{line}")?;
    let words = words_of(rt.alloc(), line)?;
    let answer = run_command(rt, words.as_slice(), VERSION, false);
    match answer {
        Ok(Some(Order::Serve(order))) => print_order(rt, &order),
        Ok(Some(Order::CheckJournal(journal))) => println!(rt; "check journal={journal}"),
        Ok(Some(Order::Compact(journal, expired_at))) => print_compact(rt, journal, expired_at),
        Ok(Some(Order::Audit(order))) => {
            println!(rt;
                "audit journal={} name={}",
                order.journal,
                order.name.text()
            )
        }
        Ok(Some(Order::Explain(order))) => print_explain(rt, &order),
        Ok(None) => println!(rt; "no order"),
        Err(reason) => println!(rt; "{reason:?}"),
    }
}

/// Prints an order to write a journal anew, with a hyphen for each missing part.
fn print_compact<R: Print>(rt: &R, journal: &str, expired_at: Option<Moment>) -> io::Result<()> {
    print!(rt; "compact journal={journal} drop-expired=")?;
    match expired_at {
        Some(moment) => { println!(rt; "day {} nanosecond {}", moment.day(), moment.nanosecond()) }
        None => println!(rt; "-"),
    }
}

/// Prints an order to answer as of an edition, with a hyphen for each missing part.
fn print_explain<R: Print>(rt: &R, order: &ExplainOrder<'_>) -> io::Result<()> {
    print!(rt;
        "explain journal={} name={} edition=",
        order.journal,
        order.name.text()
    )?;
    print_number(rt, order.edition)?;
    let moment = order.moment;
    println!(rt; " day {} nanosecond {}", moment.day(), moment.nanosecond())
}

/// Prints the status and the text of each exit reason.
fn print_reasons<R: Print>(rt: &R) -> io::Result<()> {
    println!(rt; "-- exit reasons")?;
    for reason in REASONS {
        print_reason(rt, reason)?;
    }
    Ok(())
}

/// The words of a line, with a space between each two.
fn words_of(alloc: Global, line: &str) -> Result<Vec<String>, AllocError> {
    let mut words = Vec::new(alloc);
    for word in line.split(' ') {
        words.push(String::from_str(alloc, word)?)?;
    }
    Ok(words)
}

/// Prints an order, with a hyphen for each missing part.
fn print_order<R: Print>(rt: &R, order: &ServeOrder<'_>) -> io::Result<()> {
    print!(rt;
        "name={} map={} journal={} keep-going={} ",
        order.name.text(),
        order.map.unwrap_or("-"),
        order.journal.unwrap_or("-"),
        order.keeps_going
    )?;
    print!(rt; "log={} {:?} ", order.log.unwrap_or("-"), order.log_replies)?;
    print_addresses(rt, order)?;
    print!(rt; "workers={} connections=", order.workers)?;
    print_number(rt, order.connections)?;
    print_times(rt, order)
}

/// Prints the addresses of an order, and a space after them.
fn print_addresses<R: Print>(rt: &R, order: &ServeOrder<'_>) -> io::Result<()> {
    let addresses = &order.addresses;
    print!(rt;
        "queries={} desk={} status={} mode={:o} ",
        addresses.queries,
        addresses.desk.unwrap_or("-"),
        addresses.status.unwrap_or("-"),
        addresses.socket_mode
    )
}

/// Prints a number, or a hyphen if there is none.
fn print_number<R: Print>(rt: &R, number: Option<u32>) -> io::Result<()> {
    match number {
        Some(number) => print!(rt; "{number}"),
        None => print!(rt; "-"),
    }
}

/// Prints the times and the last numbers of an order.
fn print_times<R: Print>(rt: &R, order: &ServeOrder<'_>) -> io::Result<()> {
    println!(rt;
        " idle={} desk-idle={} line-time={} reply-time={} most-connections={} per-address={} quiet={}",
        order.idle,
        order.desk_idle,
        order.line_time,
        order.reply_time,
        order.most_connections,
        order.per_address,
        order.is_quiet
    )
}

/// Prints the status and the text of an exit reason.
fn print_reason<R: Print>(rt: &R, reason: ExitReason) -> io::Result<()> {
    print!(rt; "{reason:?}: status {}", reason.status())?;
    if reason.text().is_empty() {
        println!(rt; "")
    } else {
        println!(rt; ", {}", reason.text())
    }
}
