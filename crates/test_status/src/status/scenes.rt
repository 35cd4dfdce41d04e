//! Scenes that no row can describe: a client that sends a byte a second, and two workers that count at once.
use super::watch::{STARTED, Watch};
use lost_status::{ConnectionEvent, Deadline, Snapshot, Status, serve_status};
use std::alloc::Global;
use std::hash::RandomState;
use std::io::Read;
use std::random::RandomSource;
use std::thread::Threads;
use std::time::Duration;
use std::{io, thread};
use test_parts::{Feed, Sink};

/// After how many seconds a connection is cut off.
const LIMIT: u64 = 10;

/// How many workers count at once.
const WORKERS: u32 = 2;

/// How many replies each worker counts.
const REPLIES: u32 = 10_000;

/// The request that the clients send.
const REQUEST: &[u8] = b"GET /health HTTP/1.1\r\nHost: localhost\r\n\r\n";

/// Plays the scenes, and prints their results.
pub(crate) fn play<R: Print + RandomSource + Threads + AllocGlobal + Sync>(
    rt: &R,
) -> io::Result<()> {
    let status = Status::new(rt.alloc(), WORKERS, Duration::from_secs(STARTED))?;
    cut_off_clients(rt, &status.snapshot(Duration::from_secs(STARTED)))?;
    accept(&status, WORKERS);
    thread::join(rt, || count(&status, 0), || count(&status, 1));
    print_metrics(rt, &status)
}

/// Serves both clients that are cut off, and prints what each one gets.
fn cut_off_clients<R: Print + RandomSource + AllocGlobal>(
    rt: &R,
    now: &Snapshot,
) -> io::Result<()> {
    let keys = RandomState::new(rt)?;
    let (reads, written) = slow_client(rt.alloc(), keys, now)?;
    println!(rt;
        "a byte a second, for at most {LIMIT} seconds: reads {reads}, bytes written {written}"
    )?;
    let written = broken_client(rt.alloc(), keys, now)?;
    println!(rt; "the third write fails: bytes written {written}")
}

/// Prints the metrics of replies and of open connections.
fn print_metrics<R: Print + AllocGlobal>(rt: &R, status: &Status) -> io::Result<()> {
    let now = status.snapshot(Duration::from_secs(STARTED));
    let metrics = now.metrics(rt.alloc())?;
    for line in metrics.as_str().lines() {
        if line.contains("kind=\"notFound\"") || line.starts_with("lostd_connections_open") {
            println!(rt; "{line}")?;
        }
    }
    Ok(())
}

/// Counts like a worker that serves a connection for each reply.
fn count(status: &Status, number: usize) {
    let Some(mut worker) = status.worker(number) else {
        return;
    };
    for _ in 0..REPLIES {
        worker.connections.count(ConnectionEvent::Taken);
        worker
            .replies
            .count_reply(b"{\"errors\":{\"edition\":7,\"error\":\"notFound\"}}\n");
        worker.connections.count(ConnectionEvent::Ended);
    }
}

/// Counts like the thread that accepts the connections of this many workers.
fn accept(status: &Status, workers: u32) {
    let mut acceptor = status.acceptor();
    for _ in 0..workers {
        for _ in 0..REPLIES {
            acceptor.count(ConnectionEvent::Accepted);
        }
    }
}

/// Gives a byte at each read. A second passes for each.
#[derive(Drop)]
struct Dripping<'w> {
    feed: Feed<'w>,
    watch: &'w Watch,
}

impl Read for Dripping<'_> {
    fn read(&mut self, buf: &mut [u8]) -> io::Result<usize> {
        self.watch.pass(1);
        self.feed.read(buf)
    }
}

/// How many reads the server makes from a client that sends a byte a second, and how many bytes the client gets.
fn slow_client(alloc: Global, keys: RandomState, now: &Snapshot) -> io::Result<(u64, usize)> {
    let watch = Watch::new();
    let limit = Duration::from_secs(LIMIT);
    let mut dripping = Dripping {
        feed: Feed::of(REQUEST, 1),
        watch: &watch,
    };
    let mut sink = Sink::new(alloc, 100)?;
    let mut input = Deadline::new(&watch, &mut dripping, limit);
    let mut output = Deadline::new(&watch, &mut sink, limit);
    serve_status(alloc, keys, now, &mut input, &mut output);
    Ok((dripping.feed.reads, sink.text.len()))
}

/// How many bytes a client gets that takes seven at a time, and then no more.
fn broken_client(alloc: Global, keys: RandomState, now: &Snapshot) -> io::Result<usize> {
    let mut input = Feed::of(REQUEST, 100);
    let mut output = Sink::new(alloc, 7)?;
    output.failing_write = 3;
    serve_status(alloc, keys, now, &mut input, &mut output);
    Ok(output.text.len())
}
