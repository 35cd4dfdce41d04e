//! What one worker counts.
ghost use Rattle.std.specs.Prelude.{◌≡◌};
ghost use Rattle.lost_status.specs.Figures.{no_connections, no_replies};

use crate::connection_counter::{ConnectionBlock, ConnectionCounter};
use crate::reply_counter::{ReplyBlock, ReplyCounter};

/// The counts of one worker where any thread may read them. Only that worker writes them, so no two wait for each other.
#[derive(Drop)]
pub(crate) struct WorkerBlock {
    pub(crate) connections: ConnectionBlock,
    pub(crate) replies: ReplyBlock,
}

/// What one worker counts: of its connections, and of its replies.
#[derive(Drop)]
pub struct WorkerCounters<'s> {
    pub connections: ConnectionCounter<'s>,
    pub replies: ReplyCounter<'s>,
}

impl WorkerBlock {
    /// Nothing is counted.
    pub(crate) fn new() -> WorkerBlock {
        WorkerBlock {
            connections: ConnectionBlock::new(),
            replies: ReplyBlock::new(),
        }
    }

    /// Its writers, which have counted nothing.
    pub(crate) fn counters(&self) -> WorkerCounters<'_>
        ensures connections { result.connections ≡ no_connections }
        ensures replies { result.replies ≡ no_replies }
    {
        WorkerCounters {
            connections: ConnectionCounter::new(&self.connections),
            replies: ReplyCounter::new(&self.replies),
        }
    }
}
