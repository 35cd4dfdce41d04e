//! The workers.
ghost use Rattle.std.specs.Prelude.{◌≡◌, IfSome, IfOk, All};
ghost use Rattle.lost_spec.specs.Laws.{BeginsWith};

use crate::clock::MachineClock;
use crate::counting::Counting;
use crate::threads::Task;
use lost_answer_log::{AnswerLog, Logging};
use lost_desk::{Desk, Reader, Readers};
use lost_lines::{Counts, Gate};
use lost_loop::{EventLoop, Service, WorkerHandle, open_worker};
use lost_status::{ReplyCounter, WorkerCounters};
use lost_worker::{CachedReader, SharedReplier};
use std::alloc::{AllocError, Global};
use std::hash::RandomState;
use std::io::Eprint;
use std::net::Net;
use std::random::RandomSource;
use std::sync::Wait;
use std::time::Clock;

/// How many places each worker's cache has room for.
const PLACES: u32 = 1_024;

/// A reader with a cache whose hashes have keys of its own.
pub(crate) type KeyedReader = CachedReader<RandomState>;

/// One worker: its reader, what it counts of its replies, and its connections.
#[derive(Drop)]
pub(crate) struct Worker<'s, R, G> {
    service: &'s Service<'s, R, G>,
    /// Whether its replies are counted, as when somebody may ask for the counts.
    counts_replies: bool,
    /// Where its answers are logged, if they are.
    answers: Option<AnswerLog>,
    reader: KeyedReader,
    replies: ReplyCounter<'s>,
    event_loop: EventLoop<'s>,
}

/// A worker for each reader, of which there are as many as the status has workers. Adds the handle of each.
pub(crate) fn workers_of<'s, R: Net, G>(
    rt: &R,
    service: &'s Service<'s, R, G>,
    counts_replies: bool,
    answers: Option<&AnswerLog>,
    readers: Vec<KeyedReader>,
    handles: &mut Vec<WorkerHandle>,
) -> Result<Vec<Worker<'s, R, G>>, AllocError> {
    let mut workers = Vec::new(service.alloc);
    for reader in readers {
        let Some(counters) = service.status.worker(workers.len()) else {
            return Err(AllocError);
        };
        let WorkerCounters {
            connections,
            replies,
        } = counters;
        let (handle, arrivals) = open_worker(rt, service.alloc)?;
        handles.push(handle)?;
        workers.push(Worker {
            service,
            counts_replies,
            answers: own_log(answers)?,
            reader,
            replies,
            event_loop: EventLoop::new(service.alloc, arrivals, connections)?,
        })?;
    }
    Ok(workers)
}

/// It serves connections until no more come, and gives its counts.
impl<R: Wait + Clock + Eprint, G: Gate> Task for Worker<'_, R, G> {
    type Output = Counts;

    fn run(self) -> Counts {
        let Worker {
            service,
            counts_replies,
            answers,
            mut reader,
            replies,
            mut event_loop,
        } = self;
        let mut clock = MachineClock::new(service.rt);
        if counts_replies {
            let mut counting = Counting::of(&mut reader, replies);
            run_logged(service, &mut event_loop, &mut counting, answers, &mut clock)
        } else {
            run_logged(service, &mut event_loop, &mut reader, answers, &mut clock)
        }
    }
}

/// A worker's own handle of the log, if there is one.
fn own_log(answers: Option<&AnswerLog>) -> Result<Option<AnswerLog>, AllocError> {
    match answers {
        Some(answers) => Ok(Some(answers.for_another()?)),
        None => Ok(None),
    }
}

/// Serves connections until no more come, and logs the answers, if they are to be.
fn run_logged<R: Wait + Clock + Eprint, G: Gate, P: SharedReplier>(
    service: &Service<'_, R, G>,
    event_loop: &mut EventLoop<'_>,
    replier: &mut P,
    answers: Option<AnswerLog>,
    clock: &mut MachineClock<'_, R>,
) -> Counts {
    let Some(answers) = answers else {
        return event_loop.run(service, replier, clock);
    };
    let mut logging = Logging::of(service.rt, service.alloc, replier, answers);
    let counts = event_loop.run(service, &mut logging, clock);
    logging.finish();
    counts
}

/// The readers of this many workers, each with a cache. Each begins with what the desk has published, and keeps places by
/// hashes with keys of its own, which no client knows.
pub(crate) fn cached_readers<R: RandomSource>(
    rt: &R,
    alloc: Global,
    workers: u32,
    desk: &mut Desk,
    mut readers: Readers,
) -> Result<Vec<KeyedReader>, AllocError>
    requires { readers.each.opening ≡ desk.old.opening }
    ensures told { IfOk result (λ cached. All (λ reader. BeginsWith reader.seen desk.old.published) cached.items) }
    ensures desk { desk.new ≡ desk.old }
{
    let mut cached = Vec::new(alloc);
    for _number in 0..workers {
        let Some(reader) = told_reader(desk, &mut readers) else {
            break;
        };
        let Ok(hasher) = RandomState::new(rt) else {
            return Err(AllocError);
        };
        let Ok(reader) = CachedReader::with_hasher(alloc, reader, PLACES, hasher) else {
            return Err(AllocError);
        };
        cached.push(reader)?;
    }
    Ok(cached)
}

/// A reader that nobody has taken. Each of its replies is from a list that begins with what the desk has published.
fn told_reader(desk: &mut Desk, readers: &mut Readers) -> Option<Reader>
    requires { readers.old.each.opening ≡ desk.old.opening }
    ensures told { IfSome result (λ reader. BeginsWith reader.seen desk.old.published) }
    ensures desk { desk.new ≡ desk.old }
    ensures readers { readers.new.each ≡ readers.old.each }
{
    let mut reader = readers.take()?;
    reader.learn(desk.tell());
    Some(reader)
}
