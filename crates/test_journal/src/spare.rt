//! Each row on a disk that does not fail, where memory may be refused.
use crate::allowed::Allowed;
use crate::crash::Crash;
use crate::flaw::Plan;
use crate::plain::{Plain, answer_plainly, not_refused};
use crate::reopening::reopen;
use crate::row::{NO_MEMORY, REFUSED, Row};
use crate::rows::rows;
use crate::running::{Answered, Run, run_row};
use crate::verdict::{Fault, Wrong, is_memory};
use lost_keeping::first_line;
use memchr::memmem;
use std::io;
use std::rt::Files;
use std::sync::Wait;
use std::time::Clock;

/// Runs all rows, and prints and returns whether all is as expected.
pub(crate) fn run_rows<R: Files + Wait + Clock + Print + AllocGlobal + Clone + Drop>(
    rt: &R,
) -> io::Result<bool> {
    let first = first_line(rt.alloc(), rt.since_1970().ok())?;
    let mut all = true;
    for row in &rows(rt)? {
        if !is_right(rt, row, first.as_bytes())? {
            all = false;
        }
    }
    Ok(all)
}

/// Runs a row, and prints whether all is as expected.
fn is_right<R: Wait + Clock + Print + AllocGlobal>(
    rt: &R,
    row: &Row,
    first: &[u8],
) -> io::Result<bool> {
    match judge(rt, row, first) {
        Ok(()) => {
            println!(rt; "{}: as expected", row.name)?;
            Ok(true)
        }
        Err(Fault::Wrong(wrong)) => {
            println!(rt; "wrong: {}: {wrong}", row.name)?;
            Ok(false)
        }
        Err(Fault::Io(error)) => Err(error),
    }
}

/// Runs a row, and judges it: the lines that are not refused for want of memory are answered as though the others had
/// not been there, and what is published is kept.
fn judge<R: Wait + Clock + AllocGlobal>(rt: &R, row: &Row, first: &[u8]) -> Result<(), Fault> {
    let run = opened_run(rt, row, first)?;
    let answered = match &run.outcome {
        Ok(answered) => answered,
        Err(stopped) => return Err(Fault::Wrong(Wrong::NotOpened(stopped.fault))),
    };
    let allowed = judge_answers(rt, row, answered)?;
    let mut content = Vec::new(rt.alloc());
    for crash in [Crash::Done, Crash::Lost] {
        crash.leave(&run.record, &mut content)?;
        judge_content(rt, row, &content, allowed)?;
    }
    Ok(())
}

/// Runs a row. If the journal is not opened since memory is refused, runs it again, once.
fn opened_run<R: Wait + Clock + AllocGlobal>(
    rt: &R,
    row: &Row,
    first: &[u8],
) -> Result<Run, Fault> {
    let run = run_row(rt, row, first, Plan::SOUND)?;
    let is_refused = match &run.outcome {
        Ok(_) => false,
        Err(stopped) => is_memory(stopped.fault),
    };
    let run = if is_refused {
        run_row(rt, row, first, Plan::SOUND)?
    } else {
        run
    };
    if run.record.has_gap {
        return Err(Fault::Io(io::ErrorKind::OutOfMemory.into()));
    }
    Ok(run)
}

/// Judges replies and lists, and gives what may be published after a crash.
fn judge_answers<R: Wait + AllocGlobal>(
    rt: &R,
    row: &Row,
    answered: &Answered,
) -> Result<Allowed, Fault> {
    let (lines, replies) = not_refused(
        rt.alloc(),
        &row.lines,
        &answered.replies,
        &[REFUSED, NO_MEMORY],
    )?;
    let wanted = plain_with_memory(rt, row, &lines)?;
    if replies.as_slice() != wanted.replies.as_slice() {
        return Err(Fault::Wrong(Wrong::Replies));
    }
    if answered.published != wanted.published || answered.staged != wanted.staged {
        return Err(Fault::Wrong(Wrong::Lists));
    }
    Ok(answered.allowed())
}

/// Answers lines without a journal. If memory is refused for one of them, answers them again, once.
fn plain_with_memory<R: Wait + AllocGlobal>(rt: &R, row: &Row, lines: &[u8]) -> io::Result<Plain> {
    let plain = answer_plainly(rt, row.limits, lines)?;
    if memmem::find(&plain.replies, NO_MEMORY).is_none() {
        return Ok(plain);
    }
    answer_plainly(rt, row.limits, lines)
}

/// Opens a content, and judges what is published then. If memory is refused, opens it again, once.
fn judge_content<R: Wait + AllocGlobal>(
    rt: &R,
    row: &Row,
    content: &[u8],
    allowed: Allowed,
) -> Result<(), Fault> {
    let mut reopened = reopen(rt, row.limits, content, u64::MAX)?;
    if let Err(stopped) = reopened.outcome {
        if is_memory(stopped.fault) {
            reopened = reopen(rt, row.limits, content, u64::MAX)?;
        }
    }
    match reopened.outcome {
        Ok(found) if allowed.has(found.listed) => Ok(()),
        Ok(_) => Err(Fault::Wrong(Wrong::OtherList)),
        Err(stopped) => Err(Fault::Wrong(Wrong::Refused(stopped.fault))),
    }
}
