//! What all threads of a server show of what they count.
ghost use Rattle.std.specs.Prelude.{◌≡◌, ◌<◌, ◌-◌, ◌/◌, ◌↔◌, IsSome, IfOk, IfSome};
ghost use Rattle.std.specs.Duration.{as_nanos};
ghost use Rattle.lost_status.specs.Figures.{no_connections, no_desk, no_replies};
ghost use Rattle.lost_status.specs.Status.{started_of, uptime_of, worker_count};

use crate::connection_counter::{ConnectionBlock, ConnectionCounter};
use crate::connection_event::ConnectionFigures;
use crate::desk_counter::{DeskBlock, DeskCounter};
use crate::log_counts::LogCounts;
use crate::reply_counter::ReplyFigures;
use crate::snapshot::Snapshot;
use crate::worker_block::{WorkerBlock, WorkerCounters};
use crossbeam_utils::CachePadded;
use std::alloc::{AllocError, Global};
use std::sync::Arc;
use std::sync::atomic::{AtomicBool, Ordering};
use std::time::Duration;

/// The version of the program, as `lostd --version` gives it.
pub const VERSION: &str = "0.1.0";

/// What an operator watches on a server. Each thread that counts owns its figures, and stores them into a block of its
/// own here: one writer to a block. All threads share it by `&`: each number is an atomic, so nobody waits for a lock.
/// A number that reaches 2^64 begins at 0 again.
#[derive(Drop)]
pub struct Status {
    workers: Vec<CachePadded<WorkerBlock>>,
    acceptor: CachePadded<ConnectionBlock>,
    desk: CachePadded<DeskBlock>,
    log: Arc<LogCounts>,
    is_ready: AtomicBool,
    started: Duration,
}

impl Status {
    /// The status of a server with this many workers that started `started` after 1970-01-01T00:00:00Z. The server is
    /// not ready, nothing is counted or held, and no desk is connected.
    pub fn new(alloc: Global, workers: u32, started: Duration) -> Result<Status, AllocError>
        ensures workers { IfOk result (λ status. worker_count status ≡ workers) }
        ensures started { IfOk result (λ status. started_of status ≡ started) }
    {
        let mut blocks = Vec::with_capacity(alloc, workers as usize)?;
        for _number in 0..workers {
            blocks.push(CachePadded::new(WorkerBlock::new()))?;
        }
        let Ok(log) = Arc::new(alloc, LogCounts::new()) else {
            return Err(AllocError);
        };
        Ok(Status {
            workers: blocks,
            acceptor: CachePadded::new(ConnectionBlock::new()),
            desk: CachePadded::new(DeskBlock::new()),
            log,
            is_ready: AtomicBool::new(false),
            started,
        })
    }

    /// What the worker with this number counts by, from 0 on; `None` if there are fewer workers. Take it once, in the
    /// worker's thread or for it: another one begins at 0, and shows that. Each block has its own cache lines, so no
    /// processor waits for another one's counts.
    pub fn worker(&self, number: usize) -> Option<WorkerCounters<'_>>
        ensures some { IsSome result ↔ (number < worker_count self.now) }
        ensures connections { IfSome result (λ counters. counters.connections ≡ no_connections) }
        ensures replies { IfSome result (λ counters. counters.replies ≡ no_replies) }
    {
        match self.workers.get(number) {
            Some(block) => Some(block.counters()),
            None => None,
        }
    }

    /// What the thread that accepts query connections counts by. Take it once, as [`Status::worker`] says.
    pub fn acceptor(&self) -> ConnectionCounter<'_>
        ensures { result ≡ no_connections }
    {
        ConnectionCounter::new(&self.acceptor)
    }

    /// What the thread that serves desks counts by. Take it once, as [`Status::worker`] says.
    pub fn desk(&self) -> DeskCounter<'_>
        ensures { result ≡ no_desk }
    {
        DeskCounter::new(&self.desk)
    }

    /// What is counted of the log of answers, for the threads that write it.
    pub fn log(&self) -> Result<Arc<LogCounts>, AllocError> {
        Arc::try_clone(&self.log)
    }

    /// Says that the server answers from its map, from now on. No contract can say what an atomic holds: the rows of
    /// `status.rows` compare it.
    pub fn set_ready(&self) {
        self.is_ready.store(true, Ordering::SeqCst);
    }

    /// All numbers. `now` is the time since 1970-01-01T00:00:00Z; before the start the uptime is 0 seconds.
    pub fn snapshot(&self, now: Duration) -> Snapshot
        ensures uptime { result.uptime ≡ uptime_of (started_of self.now) now }
        ensures workers { result.workers ≡ worker_count self.now }
    {
        Snapshot {
            uptime: now.saturating_sub(self.started).as_secs(),
            is_ready: self.is_ready.load(Ordering::SeqCst),
            desk: self.desk.load(),
            connections: self.connections(),
            workers: self.workers.len() as u64,
            replies: self.replies(),
            log: self.log.load(),
        }
    }

    /// What all threads have counted of query connections. The acceptor's are loaded last, so that each connection that
    /// a worker counts is among those accepted.
    fn connections(&self) -> ConnectionFigures {
        let mut sum = ConnectionFigures::none();
        for worker in self.workers.iter() {
            sum = sum.plus(worker.connections.load());
        }
        sum.plus(self.acceptor.load())
    }

    /// What all workers have counted of their replies.
    fn replies(&self) -> ReplyFigures {
        let mut sum = ReplyFigures::none();
        for worker in self.workers.iter() {
            sum.add(&worker.replies.load());
        }
        sum
    }
}
