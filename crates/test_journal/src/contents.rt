//! Judges each content that a crash may leave after a run.
use crate::allowed::Allowed;
use crate::crash::{CRASHES, Crash, Wanted};
use crate::judging::is_failure;
use crate::record::Record;
use crate::reopening::{Found, Reopened, reopen};
use crate::row::Row;
use crate::sums::{Sums, count};
use crate::verdict::{Fault, Wrong};
use lost_keeping::{Damage, RecoveryFault};
use std::sync::Wait;

/// The most calls of an opening.
const MOST_CALLS: u64 = 64;

/// Judges each content that a crash may leave after a run.
pub(crate) fn judge_contents<R: Wait + AllocGlobal>(
    rt: &R,
    row: &Row,
    record: &Record,
    allowed: Allowed,
    sums: &mut Sums,
) -> Result<(), Fault> {
    let mut content = Vec::new(rt.alloc());
    let mut lost = Vec::new(rt.alloc());
    Crash::Lost.leave(record, &mut lost)?;
    for crash in CRASHES {
        crash.leave(record, &mut content)?;
        if is_new(crash, record, &content, &lost) {
            let wanted = Wanted::of(crash, record);
            judge_content(rt, row, &content, allowed, wanted, sums)?;
        }
    }
    if allowed.is_at_rest && record.file.as_slice() != record.flushed.as_slice() {
        return Err(Fault::Wrong(Wrong::NotAtRest));
    }
    Ok(())
}

/// Whether a content is another one than those of the two first crashes, or that of one of them.
fn is_new(crash: Crash, record: &Record, content: &[u8], lost: &[u8]) -> bool {
    match crash {
        Crash::Done => true,
        Crash::Lost => content != record.file.as_slice(),
        _ => content != record.file.as_slice() && content != lost,
    }
}

/// Opens a content, and judges how it opens.
fn judge_content<R: Wait + AllocGlobal>(
    rt: &R,
    row: &Row,
    content: &[u8],
    allowed: Allowed,
    wanted: Wanted,
    sums: &mut Sums,
) -> Result<(), Fault> {
    let reopened = reopen(rt, row.limits, content, u64::MAX)?;
    match reopened.outcome {
        Ok(found) => {
            if wanted != Wanted::Opens {
                return Err(Fault::Wrong(Wrong::Taken));
            }
            judge_found(found, &reopened.record, content, allowed)?;
            count(&mut sums.opened);
            judge_failures(rt, row, content, found, sums)
        }
        Err(stopped) => judge_refused(stopped.fault, &reopened.record, content, wanted, sums),
    }
}

/// Judges what a content was found to keep.
fn judge_found(
    found: Found,
    record: &Record,
    content: &[u8],
    allowed: Allowed,
) -> Result<(), Fault> {
    if !allowed.has(found.listed) {
        return Err(Fault::Wrong(Wrong::OtherList));
    }
    if allowed.is_at_rest && found.recovered.dropped_bytes > 0 {
        return Err(Fault::Wrong(Wrong::NotAtRest));
    }
    let kept = found.recovered.bytes as usize;
    let all = found
        .recovered
        .bytes
        .saturating_add(found.recovered.dropped_bytes);
    let is_cut = content.get(..kept) == Some(record.file.as_slice());
    if !is_cut || !record.steps.is_empty() || all != content.len() as u64 {
        return Err(Fault::Wrong(Wrong::NotCut));
    }
    Ok(())
}

/// Judges why a content is refused. The file is as it was.
fn judge_refused(
    fault: RecoveryFault,
    record: &Record,
    content: &[u8],
    wanted: Wanted,
    sums: &mut Sums,
) -> Result<(), Fault> {
    match (wanted, fault) {
        (Wanted::TornGate, RecoveryFault::Damaged(Damage::Torn)) => count(&mut sums.torn),
        (Wanted::CommitBehind, RecoveryFault::Damaged(Damage::CommitBehind)) => {
            count(&mut sums.behind)
        }
        _ => return Err(Fault::Wrong(Wrong::Refused(fault))),
    }
    if record.file.as_slice() != content {
        return Err(Fault::Wrong(Wrong::Changed));
    }
    Ok(())
}

/// Opens a content that opens, on disks that stop at each call in turn. Each opening ends in that failure, and what it
/// leaves opens as the content does.
fn judge_failures<R: Wait + AllocGlobal>(
    rt: &R,
    row: &Row,
    content: &[u8],
    found: Found,
    sums: &mut Sums,
) -> Result<(), Fault> {
    for calls in 0..MOST_CALLS {
        let reopened = reopen(rt, row.limits, content, calls)?;
        if !is_stopped(&reopened, found)? {
            return Ok(());
        }
        count(&mut sums.stopped);
        judge_left(rt, row, &reopened.record, content, found)?;
    }
    Err(Fault::Wrong(Wrong::NoEnd))
}

/// Whether an opening was ended by a failing call. One that was not gives what was found before.
fn is_stopped(reopened: &Reopened, found: Found) -> Result<bool, Fault> {
    match reopened.outcome {
        Ok(again) if again.listed == found.listed => Ok(false),
        Ok(_) => Err(Fault::Wrong(Wrong::OtherList)),
        Err(stopped) if is_failure(stopped.fault) => Ok(true),
        Err(stopped) => Err(Fault::Wrong(Wrong::OtherEnd(stopped.fault))),
    }
}

/// Judges what an opening that was ended by a failing call leaves, if it changed the file.
fn judge_left<R: Wait + AllocGlobal>(
    rt: &R,
    row: &Row,
    record: &Record,
    content: &[u8],
    found: Found,
) -> Result<(), Fault> {
    if record.file.as_slice() == content {
        return Ok(());
    }
    match reopen(rt, row.limits, &record.file, u64::MAX)?.outcome {
        Ok(again) if again.listed == found.listed => Ok(()),
        Ok(_) => Err(Fault::Wrong(Wrong::OtherList)),
        Err(stopped) => Err(Fault::Wrong(Wrong::Refused(stopped.fault))),
    }
}
