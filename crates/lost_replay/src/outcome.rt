//! The outcome of a line of a replay, beside the text of its answer.

/// The outcome of a line of a replay. A caller that counts or checks lines reads this, and not the text of the reply.
#[derive(Clone, Copy, PartialEq, Eq, Debug)]
pub enum Outcome {
    /// The line is a request, which was answered.
    Answered,
    /// The edit was staged. Gives the number of edits now staged and not published.
    Staged(u64),
    /// The staged edits are published. Gives the number of published edits.
    Committed(u64),
    /// The desk line was refused, with this code of the desk's table.
    Refused(u8),
    /// The line is neither a desk line nor a request, or is too long: `badRequest`.
    BadRequest,
    /// Memory ran out: `internalError`.
    Unjudged,
}
