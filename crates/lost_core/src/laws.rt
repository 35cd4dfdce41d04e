//! The laws of worlds, about the definitions alone. Each function's contract is a law, and its body is empty.

ghost use Rattle.lost_core.specs.Lawful.{WorldsAreLawful, PublishedIsAccepted, NoRefusalIsMemory, LaterStepsChangeNothing};

/// The published list grows, and so does the list that each worker has seen. A worker's list is a front of the
/// published one, so of two workers one has seen a front of the other's. A worker that enters has seen all that is
/// published. One that is told of published edits has seen them.
pub fn worlds_are_lawful()
    ensures { WorldsAreLawful }
{}

/// The published list is one of edits that the book accepts.
pub fn published_is_accepted()
    ensures { PublishedIsAccepted }
{}

/// No refusal of an edit is a memory refusal.
pub fn no_refusal_is_memory()
    ensures { NoRefusalIsMemory }
{}

/// Later steps change nothing that was counted before.
pub fn later_steps_change_nothing()
    ensures { LaterStepsChangeNothing }
{}
