//! Laws of the book of an accepted list, and of what an edit leaves unchanged.

ghost use Rattle.lost_spec.specs.BookLaws.{AcceptedBookIsInOrder, UntouchedStay, ReplacementKeepsIdentities};
ghost use Rattle.lost_spec.specs.TraceLaws.{OtherTracesStay, WithdrawalLeavesATrace, WithdrawnStaysWithdrawn};

/// The book of an accepted list has each identity and each key at most once, no more mappings than its limit, one trace
/// at most of an identity and none of one that is held, no more traces than their limit, and as its number the length
/// of the list.
pub fn accepted_book_is_in_order()
    ensures { AcceptedBookIsInOrder }
{}

/// An edit leaves the mappings of all other identities as they were, in the same order, and so what is held under each.
pub fn untouched_stay()
    ensures { UntouchedStay }
{}

/// A replacement leaves the list of identities as it was.
pub fn replacement_keeps_identities()
    ensures { ReplacementKeepsIdentities }
{}

/// An edit changes no trace but that of its own identity.
pub fn other_traces_stay()
    ensures { OtherTracesStay }
{}

/// An accepted withdrawal adds its identity and stamp after the other traces.
pub fn withdrawal_leaves_a_trace()
    ensures { WithdrawalLeavesATrace }
{}

/// After an accepted withdrawal an identity stays withdrawn, whatever edits follow, until its publish is accepted: one
/// that is not stamped later than the withdrawal is refused.
pub fn withdrawn_stays_withdrawn()
    ensures { WithdrawnStaysWithdrawn }
{}
