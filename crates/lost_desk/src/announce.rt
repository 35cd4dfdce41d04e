//! The history grows to all edits of a desk before they are published.
ghost use Rattle.std.specs.Prelude.{◌≡◌, length, MatchBool};
ghost use Rattle.lost_spec.specs.Laws.{BeginsWith};
ghost use Rattle.lost_history.specs.History.{beginning};
ghost use Rattle.lost_desk.specs.States.{all_edits};

use crate::copies::Copies;
use lost_book::Edit;
use lost_history::{Aim, Front, Head};
use std::collections::VecDeque;

/// Extends the history from its front to all edits of a desk, and says whether it did. It takes no memory. The copies
/// and the queue serve the proof alone: they say which edits those are.
pub(crate) fn announce<A: Aim>(
    front: &mut Front,
    head: &Head,
    _proof_copies: &Copies,
    _proof_queue: &VecDeque<Edit>,
    edition: u64,
) -> bool
    requires aim { A.list ≡ all_edits _proof_copies.now _proof_queue.now.items }
    requires opening { head.now ≡ front.old.opening }
    requires begins { BeginsWith (all_edits _proof_copies.now _proof_queue.now.items) front.old.list }
    requires edition { edition ≡ length (all_edits _proof_copies.now _proof_queue.now.items) }
    ensures { MatchBool result
        (front.new ≡ beginning front.old.opening (all_edits _proof_copies.now _proof_queue.now.items))
        (front.new ≡ front.old) }
{
    front.reach::<A>(head, edition).is_ok()
}
