//! Judges a run of a row: its replies and lists.
use crate::allowed::Allowed;
use crate::contents::judge_contents;
use crate::filling::FILLING;
use crate::flaw::Plan;
use crate::listed::Listed;
use crate::plain::{answer_plainly, not_refused};
use crate::row::{REFUSED, Row};
use crate::running::{Answered, run_row};
use crate::sums::{Sums, count};
use crate::verdict::{Fault, Wrong};
use lost_journal::{NotKept, ReadFault};
use lost_keeping::RecoveryFault;
use std::sync::Wait;
use std::time::Clock;

/// Runs a row as a plan says, judges it and what a crash may leave then, and gives how many calls its disk took.
pub(crate) fn judge<R: Wait + Clock + AllocGlobal>(
    rt: &R,
    row: &Row,
    first: &[u8],
    plan: Plan,
    sums: &mut Sums,
) -> Result<u64, Fault> {
    let run = run_row(rt, row, first, plan)?;
    if run.record.has_gap {
        return Err(Fault::Wrong(Wrong::Gap));
    }
    let allowed = match &run.outcome {
        Ok(answered) => judge_answers(rt, row, plan, answered)?,
        Err(stopped) => judge_unopened(plan, stopped.fault)?,
    };
    count(&mut sums.runs);
    judge_contents(rt, row, &run.record, allowed, sums)?;
    Ok(run.record.calls.saturating_sub(FILLING))
}

/// Judges replies and lists by those of a desk without a journal. Gives what a crash may leave.
fn judge_answers<R: Wait + AllocGlobal>(
    rt: &R,
    row: &Row,
    plan: Plan,
    answered: &Answered,
) -> Result<Allowed, Fault> {
    let (lines, replies) = not_refused(rt.alloc(), &row.lines, &answered.replies, &[REFUSED])?;
    let wanted = answer_plainly(rt, row.limits, &lines)?;
    if replies.as_slice() != wanted.replies.as_slice() {
        return Err(Fault::Wrong(Wrong::Replies));
    }
    if answered.published != wanted.published || answered.staged != wanted.staged {
        return Err(Fault::Wrong(Wrong::Lists));
    }
    judge_refusals(plan, answered)?;
    Ok(answered.allowed())
}

/// Judges which lines were refused, and what was answered as committed.
fn judge_refusals(plan: Plan, answered: &Answered) -> Result<(), Fault> {
    let account = answered.account;
    if account.answered != answered.published {
        return Err(Fault::Wrong(Wrong::Answered));
    }
    if (account.refused > 0) != plan.fails() {
        return Err(Fault::Wrong(Wrong::Refusal));
    }
    let is_disk = matches!(answered.fault, Some(NotKept::Disk(_)));
    if is_disk != plan.fails() {
        return Err(Fault::Wrong(Wrong::Cause));
    }
    Ok(())
}

/// Judges why a journal was not opened. Gives what a crash may leave: a journal with no edits.
fn judge_unopened(plan: Plan, fault: RecoveryFault) -> Result<Allowed, Fault> {
    if !plan.fails() || !is_failure(fault) {
        return Err(Fault::Wrong(Wrong::NotOpened(fault)));
    }
    Ok(Allowed {
        published: Listed::nothing(),
        more: None,
        is_at_rest: false,
    })
}

/// Whether a journal was not opened because a call of its disk failed.
pub(crate) fn is_failure(fault: RecoveryFault) -> bool {
    matches!(
        fault,
        RecoveryFault::Unread(ReadFault::Disk(_)) | RecoveryFault::Uncut(NotKept::Disk(_))
    )
}
