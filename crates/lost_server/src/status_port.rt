//! Answers status connections.
use lost_sockets::{Listener, Stream, accept_until};
use lost_status::{Deadline, Status, serve_status};
use std::alloc::Global;
use std::hash::RandomState;
use std::random::RandomSource;
use std::sync::Wait;
use std::sync::atomic::AtomicBool;
use std::time::{Clock, Duration};

/// How long a read or a write of a status connection may wait, in seconds.
const PATIENCE: u64 = 2;

/// How long a status connection may last, in seconds.
const LIFE: u64 = 5;

/// Answers status connections one after another, until the server is over. So only one is open at a time, and it takes
/// no worker.
pub(crate) fn answer_status<R: Wait + Clock + RandomSource>(
    rt: &R,
    alloc: Global,
    listener: &Listener,
    status: &Status,
    is_over: &AtomicBool,
) {
    for _ in rt.forever() {
        let Some((stream, _)) = accept_until(rt, listener, is_over) else {
            return;
        };
        answer_one(rt, alloc, &stream, status);
    }
}

/// Answers a status connection by the server's numbers at its beginning. A slow one is closed.
fn answer_one<R: Clock + RandomSource>(rt: &R, alloc: Global, stream: &Stream, status: &Status) {
    let Ok(keys) = RandomState::new(rt) else {
        return;
    };
    if stream.limit_waiting(Some(Duration::from_secs(PATIENCE))) {
        let now = status.snapshot(rt.since_1970().unwrap_or(Duration::ZERO));
        let mut input = Deadline::new(rt, stream, Duration::from_secs(LIFE));
        let mut output = Deadline::new(rt, stream, Duration::from_secs(LIFE));
        serve_status(alloc, keys, &now, &mut input, &mut output);
    }
}
