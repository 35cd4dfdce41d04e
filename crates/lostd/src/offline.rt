//! `lostd check --journal` and `lostd compact`.
ghost use Rattle.std.specs.Prelude.{◌≡◌};
ghost use Rattle.lostd.specs.ExitReasons.{offline_reason, compact_reason};

use crate::journal_reasons::{recovery_reason, say_of_stop};
use lost_command::ExitReason;
use lost_lines::ServeError;
use lost_mapping::Moment;
use lost_offline::{
    CompactFault, Compacted, JournalFault, JournalFound, check_journal, compact_journal,
};
use std::fs::{File, Files};
use std::io;
use std::io::{BufWriter, Write};
use std::sync::Wait;
use std::time::Clock;

/// How many bytes of a journal are written at once.
const PIECE: usize = 65_536;

/// Prints what the journal at a path keeps, or reports why it is not read.
pub(crate) fn check_as_ordered<R: Wait + Files<File = File> + Print + Eprint + AllocGlobal>(
    rt: &R,
    path: &str,
) -> Result<(), ExitReason> {
    match check_journal(rt, path) {
        Ok(found) => say_found(rt, &found),
        Err(fault) => {
            say_of_journal(rt, path, fault);
            Err(offline_reason(fault))
        }
    }
}

/// Prints what a journal keeps.
fn say_found<R: Print + AllocGlobal>(rt: &R, found: &JournalFound) -> Result<(), ExitReason> {
    let Ok(digest) = found.digest.text(rt.alloc()) else {
        return Err(ExitReason::MEMORY);
    };
    println!(rt;
        "done lines={} edition={} mappings={} map={digest} dropped={}",
        found.recovered.lines, found.edition, found.mappings, found.recovered.dropped_bytes
    )
    .map_err(unwritten)
}

/// Standard output failed.
pub(crate) fn unwritten(_error: io::Error) -> ExitReason {
    ExitReason::Run(ServeError::Write)
}

/// Writes a journal anew on standard output, and reports what it keeps.
pub(crate) fn compact_as_ordered<
    R: Wait + Clock + Files<File = File> + Print + Eprint + AllocGlobal,
>(rt: &R, path: &str, expired_at: Option<Moment>) -> Result<(), ExitReason> {
    let Ok(mut output) = BufWriter::with_capacity(rt.alloc(), PIECE, io::writer(rt)) else {
        return Err(ExitReason::MEMORY);
    };
    let compacted = compact_journal(rt, path, &mut output, expired_at.as_ref());
    match compacted {
        Ok(compacted) => {
            output.flush().map_err(unwritten)?;
            say_compacted(rt, &compacted);
            Ok(())
        }
        Err(fault) => {
            say_of_compact(rt, path, fault);
            Err(compact_reason(fault))
        }
    }
}

/// Reports what a journal that was written anew keeps.
fn say_compacted<R: Eprint + AllocGlobal>(rt: &R, compacted: &Compacted) {
    let alloc = rt.alloc();
    let (Ok(before), Ok(after)) = (
        compacted.digest_before.text(alloc),
        compacted.digest.text(alloc),
    ) else {
        return;
    };
    // If standard error fails, the journal is written all the same.
    let _said = eprintln!(rt;
        "lostd: compact: edition {}, map {before}: now edition {}, {} mappings, {} withdrawals, map {after}",
        compacted.edition_before, compacted.edition, compacted.mappings, compacted.traces
    );
}

/// The reason why a journal that is not read ends the program.
fn offline_reason(fault: JournalFault) -> ExitReason
    ensures { result ≡ offline_reason fault }
{
    match fault {
        JournalFault::Missing | JournalFault::Unopened(_) => ExitReason::File,
        JournalFault::NotRead(stopped) => recovery_reason(stopped.fault),
        JournalFault::Memory => ExitReason::MEMORY,
    }
}

/// The reason why a journal that is not written anew ends the program.
fn compact_reason(fault: CompactFault) -> ExitReason
    ensures { result ≡ compact_reason fault }
{
    match fault {
        CompactFault::NotRead(fault) => offline_reason(fault),
        CompactFault::TooLong(_) | CompactFault::Refused(_, _) | CompactFault::OtherMap => {
            ExitReason::File
        }
        CompactFault::Write => ExitReason::Run(ServeError::Write),
        CompactFault::Memory => ExitReason::MEMORY,
    }
}

/// Reports why a journal is not read; a refusal of memory is reported at the end.
fn say_of_journal<R: Eprint>(rt: &R, path: &str, fault: JournalFault) {
    // If standard error fails, the exit status still tells.
    let _said = match fault {
        JournalFault::Missing => {
            eprintln!(rt; "lostd: --journal: {path}: no file is there, or an empty one")
        }
        JournalFault::Unopened(fault) => eprintln!(rt; "lostd: --journal: {path}: {fault}"),
        JournalFault::NotRead(stopped) => say_of_stop(rt, path, stopped),
        JournalFault::Memory => Ok(()),
    };
}

/// Reports why a journal is not written anew; what failed of the output or for memory is reported at the end.
fn say_of_compact<R: Eprint>(rt: &R, path: &str, fault: CompactFault) {
    // If standard error fails, the exit status still tells.
    let _said = match fault {
        CompactFault::NotRead(fault) => {
            say_of_journal(rt, path, fault);
            Ok(())
        }
        CompactFault::TooLong(line) => {
            eprintln!(rt;
                "lostd: compact: {path}: edit {line} would have a line of more than 1,048,576 bytes"
            )
        }
        CompactFault::Refused(line, fault) => {
            eprintln!(rt; "lostd: compact: {path}: edit {line} would not be read again: {fault}")
        }
        CompactFault::OtherMap => {
            eprintln!(rt; "lostd: compact: {path}: the new journal would hold another map")
        }
        CompactFault::Write | CompactFault::Memory => Ok(()),
    };
}
