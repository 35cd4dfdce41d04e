//! The queue of edits goes into the copies and is published with them.
ghost use Rattle.std.specs.Prelude.{◌≡◌, ◌+◌, ◌<◌, [], length, MatchResult, OnOk};
ghost use Rattle.lost_desk.specs.Copies.{edits_in};
ghost use Rattle.lost_desk.specs.States.{IsReady, pending_of, published_version};

use crate::copies::Copies;
use crate::version::Operation;
use lost_book::Edit;
use lost_history::Front;
use std::alloc::AllocError;
use std::collections::VecDeque;
use std::sync::Wait;

/// Publishes the edits in the copies and the queue. The front has all edits. If memory is refused, all of them wait.
pub(crate) fn publish_all<R: Wait>(
    rt: &R,
    copies: &mut Copies,
    queue: &mut VecDeque<Edit>,
    front: &Front,
) -> Result<(), AllocError>
    requires { IsReady copies.old queue.old.items front.now }
    ensures { MatchResult result
        (λ _. (copies.new.shown ≡ published_version copies.old front.now) × (pending_of copies.new queue.new.items ≡ []))
        (λ _. (copies.new.shown ≡ copies.old.shown) × (pending_of copies.new queue.new.items ≡ pending_of copies.old queue.old.items)) }
{
    log_all(copies, queue)?;
    publish_logged(rt, copies, front)
}

/// Publishes all that waits in the copies. If memory is refused, nothing is published and the edits still wait.
fn publish_logged<R: Wait>(rt: &R, copies: &mut Copies, front: &Front) -> Result<(), AllocError>
    requires { IsReady copies.old [] front.now }
    ensures { MatchResult result
        (λ _. (copies.new.shown ≡ published_version copies.old front.now) × (copies.new.waiting ≡ []))
        (λ _. (copies.new.shown ≡ copies.old.shown) × (edits_in copies.new.waiting ≡ edits_in copies.old.waiting)) }
{
    let Ok(()) = copies.mark(front.again()) else {
        return Err(AllocError);
    };
    copies.publish(rt)
}

/// Has the copies take in the whole queue at the next publication. If memory is refused, the rest stays queued.
pub(crate) fn log_all(copies: &mut Copies, queue: &mut VecDeque<Edit>) -> Result<(), AllocError>
    ensures shown { copies.new.shown ≡ copies.old.shown }
    ensures pending { pending_of copies.new queue.new.items ≡ pending_of copies.old queue.old.items }
    ensures all { OnOk result (queue.new.items ≡ []) }
{
    while !queue.is_empty() {
        log_first(copies, queue)?;
    }
    Ok(())
}

/// Has the copies take in the first edit of the queue. If memory is refused, it stays queued.
fn log_first(copies: &mut Copies, queue: &mut VecDeque<Edit>) -> Result<(), AllocError>
    ensures shown { copies.new.shown ≡ copies.old.shown }
    ensures pending { pending_of copies.new queue.new.items ≡ pending_of copies.old queue.old.items }
    ensures one { OnOk result (0 < length queue.old.items → length queue.old.items ≡ length queue.new.items + 1) }
{
    let Some(edit) = queue.pop_front() else {
        return Ok(());
    };
    match copies.append(Operation::Change(edit)) {
        Ok(()) => Ok(()),
        Err(Operation::Change(edit)) => {
            queue.push_front_reserved(edit);
            Err(AllocError)
        }
        Err(Operation::Mark(_)) => unreachable!(),
    }
}
