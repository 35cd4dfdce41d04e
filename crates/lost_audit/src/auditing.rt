//! Audits a log.
ghost use Rattle.std.specs.Prelude.{◌≡◌, []};
ghost use Rattle.lost_worker.specs.Desking.{lists_of};
ghost use Rattle.lost_keeping.specs.Kept.{all_published};

use crate::auditor::{Auditor, Findings};
use crate::fault::AuditFault;
use crate::log_line::LastDay;
use crate::log_reader::LogReader;
use crate::window::{MOST_LINES, Window};
use lost_book::Limits;
use lost_desk::{Desk, open_desk};
use lost_journal_file::{JournalDisk, JournalLength, look_at_journal};
use lost_keeping::{Damage, RecoveryFault, Stopped, Walk};
use lost_lines::{ServeError, Turns};
use lost_mapping::Source;
use lost_tape::Scratch;
use std::fs::{File, Files};
use std::io::{Read, Write};
use std::sync::Wait;

/// How many bytes of a log are read at once.
const PIECE: usize = 65_536;

/// No limit on lines.
pub(crate) const TURNS: Turns = Turns {
    lines: u64::MAX,
    reads: u64::MAX,
};

/// Goes over a log of answers and the journal at a path side by side, and answers each question again from the book of
/// its edition at its moment, as the server of this name. Writes a line for each reply that is another one, and for each
/// line that cannot be judged.
///
/// # Errors
///
/// [`AuditFault`].
pub fn audit<R: Wait + Files<File = File> + AllocGlobal, I: Read + Drop, W: Write + Drop>(
    rt: &R,
    path: &str,
    name: &Source,
    input: I,
    output: W,
) -> Result<Findings, AuditFault> {
    let length = JournalLength::of(rt, path);
    let walk = begin_walk(rt, path)?;
    match open_desk(rt, rt.alloc(), Limits::widest(), 1) {
        Ok((mut desk, _readers)) => {
            let audited = audit_over(rt, name, walk, &mut desk, input, output);
            desk.close(rt);
            match audited {
                Ok((found, None)) => Ok(found),
                Ok((found, Some(stopped))) => found_up_to(rt, &length, stopped, found),
                Err(fault) => Err(fault),
            }
        }
        Err(_) => Err(AuditFault::Memory),
    }
}

/// What was found over a journal that ended without a last commit: that is damage, unless a server writes it.
fn found_up_to<R: Files<File = File>>(
    rt: &R,
    length: &JournalLength<'_>,
    stopped: Stopped,
    found: Findings,
) -> Result<Findings, AuditFault> {
    if is_end(rt, length, &stopped) {
        Ok(found)
    } else {
        Err(AuditFault::NotRead(stopped))
    }
}

/// Whether a journal was read as far as it went when its reading began, and a server has gone on to write it: its last
/// gate was opened before it was read.
pub(crate) fn is_end<R: Files<File = File>>(
    rt: &R,
    length: &JournalLength<'_>,
    stopped: &Stopped,
) -> bool {
    matches!(stopped.fault, RecoveryFault::Damaged(Damage::NoEnd)) && length.has_grown(rt)
}

/// Begins to read the journal at a path.
pub(crate) fn begin_walk<R: Files<File = File> + AllocGlobal>(
    rt: &R,
    path: &str,
) -> Result<Walk<JournalDisk>, AuditFault> {
    let disk = match look_at_journal(rt, path) {
        Ok(Some(disk)) => disk,
        Ok(None) => return Err(AuditFault::Missing),
        Err(fault) => return Err(AuditFault::Unopened(fault)),
    };
    match Walk::begin(rt.alloc(), disk) {
        Ok(walk) => Ok(walk),
        Err(stopped) => Err(AuditFault::NotRead(stopped)),
    }
}

/// Audits a log over a desk that has no edits. Gives what was found, and where the journal ended without a last commit.
fn audit_over<R: Wait + AllocGlobal, I: Read + Drop, W: Write + Drop>(
    rt: &R,
    name: &Source,
    walk: Walk<JournalDisk>,
    desk: &mut Desk,
    input: I,
    output: W,
) -> Result<(Findings, Option<Stopped>), AuditFault> {
    let mut auditor = Auditor {
        rt,
        alloc: rt.alloc(),
        name,
        desk,
        walk,
        window: Window::new(rt.alloc()),
        scratch: Scratch::new(rt.alloc()),
        last_day: LastDay::none(),
        found: Findings::none(),
        reports: Vec::new(rt.alloc()),
        stopped: None,
        ran_out: None,
    };
    let mut input = input;
    let mut output = output;
    audit_lines(&mut auditor, &mut input, &mut output)?;
    for _question in 0..=MOST_LINES {
        if !auditor.judge_next()? {
            break;
        }
        write_reports(&mut auditor, &mut output)?;
    }
    match auditor.stopped {
        Some(stopped) => Err(AuditFault::NotRead(stopped)),
        None => Ok((auditor.found, auditor.ran_out)),
    }
}

/// Takes each line of a log, and writes what there is to tell before more is read.
fn audit_lines<R: Wait + AllocGlobal, I: Read, W: Write>(
    auditor: &mut Auditor<'_, R, JournalDisk>,
    input: &mut I,
    output: &mut W,
) -> Result<(), AuditFault> {
    let mut reader = LogReader::new(auditor.alloc);
    let mut piece: Vec<u8> = Vec::new(auditor.alloc);
    piece.resize(PIECE, 0)?;
    for _read in auditor.rt.forever() {
        let count = match input.read(&mut piece) {
            Ok(count) => count,
            Err(_) => return Err(AuditFault::Stream(ServeError::Read)),
        };
        let Some(bytes) = piece.as_slice().get(..count) else {
            break;
        };
        if bytes.is_empty() {
            break;
        }
        reader.read(bytes, auditor)?;
        write_reports(auditor, output)?;
    }
    reader.finish(auditor)?;
    write_reports(auditor, output)
}

/// Writes what there is to tell.
fn write_reports<R, W: Write>(
    auditor: &mut Auditor<'_, R, JournalDisk>,
    output: &mut W,
) -> Result<(), AuditFault> {
    if auditor.reports.is_empty() {
        return Ok(());
    }
    let is_written = output.write_all(auditor.reports.as_slice()).is_ok() && output.flush().is_ok();
    auditor.reports.clear();
    if is_written {
        Ok(())
    } else {
        Err(AuditFault::Stream(ServeError::Write))
    }
}
