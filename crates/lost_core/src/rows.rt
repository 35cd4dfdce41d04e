//! The worked row `world`. The function's contract is the row, and its body is empty.

ghost use Rattle.lost_core.specs.Rows.{WorldRow};

/// A worker answers from the edits that it has seen: a published edit is found only once the worker was told.
pub fn world()
    ensures { WorldRow }
{}
