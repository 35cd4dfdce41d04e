//! Steps of the world.

use lost_book::Edit;
use lost_mapping::Moment;

/// A step of the world. Workers are numbered from 0.
#[derive(Drop)]
pub enum Step {
    /// The publisher stages an edit.
    Stage(Edit),
    /// The publisher publishes all staged edits.
    Publish,
    /// A worker enters and sees all published edits.
    Enter(u8),
    /// A worker is told of this many first edits. If fewer are published, nothing changes.
    Tell(u8, u64),
    /// A worker answers a line at an instant, from the edits that it has seen.
    Answer(u8, Moment, Vec<u8>),
}
