//! Events of the world.

use lost_book::EditError;

/// The event of one step of the world.
#[derive(Drop)]
pub enum Event {
    /// The edit is accepted: the number of edits accepted and not published.
    Staged(u64),
    /// The first refusal of the edit. It is never a memory refusal.
    Refused(EditError),
    /// The number of published edits.
    Published(u64),
    /// The number of edits that the worker that entered has seen.
    Entered(u64),
    /// The number of edits that the worker that was told has seen.
    Told(u64),
    /// The line of the reply with its byte 10.
    Replied(Vec<u8>),
    /// The step is of a worker that does not exist, and counts for nothing.
    NoWorker,
}
