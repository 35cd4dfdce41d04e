//! Two workers, each in a thread of its own.
ghost use Rattle.std.specs.Thread.{IsSync};

use crate::always::moments_of;
use crate::stream::Stream;
use crate::telling::tell_counts;
use crossbeam_channel::{Receiver, Sender, unbounded};
use lost_desk::Reader;
use lost_worker::{Connection, Counts, worker_loop};
use std::alloc::{AllocError, Global};
use std::collections::VecDeque;
use std::io;
use std::io::Write;
use std::sync::Wait;
use std::thread::{Threads, join_mut};
use std::time::Clock;
use test_parts::{Meeting, Setting};

/// The connections on the channel: a stream in memory, and where its replies go.
type InMemory = Connection<VecDeque<u8>, Vec<u8>>;

/// The values of a worker's thread.
#[derive(Drop)]
struct WorkerThread<'a, R: Clock> {
    alloc: Global,
    reader: &'a mut Reader,
    setting: &'a Setting,
    connections: Receiver<InMemory>,
    gate: &'a Meeting<'a, R>,
    stream: &'a Stream,
}

/// Serves a stream twice, by two workers that take connections from one channel. The line that is asked for first waits
/// until the other is answered. Prints the sum of their counts.
pub(crate) fn serve_two<R: Threads + Wait + Clock + Sync + Print + AllocGlobal>(
    rt: &R,
    first: &mut Reader,
    second: &mut Reader,
    setting: &Setting,
    stream: &Stream,
) -> io::Result<()> {
    let connections = twice(rt, stream)?;
    let gate = Meeting::new(rt);
    let mut one = WorkerThread {
        alloc: rt.alloc(),
        reader: first,
        setting,
        connections: connections.clone()?,
        gate: &gate,
        stream,
    };
    let mut other = WorkerThread {
        alloc: rt.alloc(),
        reader: second,
        setting,
        connections,
        gate: &gate,
        stream,
    };
    let (counts, more) = in_two_threads(rt, &mut one, &mut other);
    tell_counts(rt, counts.plus(more))
}

/// A channel that gives the bytes of a stream twice, and has ended.
fn twice<R: Wait + AllocGlobal>(rt: &R, stream: &Stream) -> io::Result<Receiver<InMemory>> {
    let Ok((sender, connections)) = unbounded::<InMemory, Global>(rt.alloc()) else {
        return Err(AllocError.into());
    };
    for _ in 0..2u8 {
        send(rt, &sender, stream)?;
    }
    Ok(connections)
}

/// Sends a connection that gives the bytes of a stream.
fn send<R: Wait + AllocGlobal>(
    rt: &R,
    sender: &Sender<InMemory>,
    stream: &Stream,
) -> io::Result<()> {
    let connection = connection(rt.alloc(), stream)?;
    match sender.send(rt, connection) {
        Ok(()) => Ok(()),
        Err(_) => Err(AllocError.into()),
    }
}

/// A connection in memory that gives the bytes of a stream.
fn connection(alloc: Global, stream: &Stream) -> io::Result<InMemory> {
    let mut input = VecDeque::new(alloc);
    input.write_all(stream.bytes.as_slice())?;
    Ok(Connection {
        input,
        output: Vec::new(alloc),
    })
}

/// Has both work, each in a thread of its own.
fn in_two_threads<R: Threads + Wait + Clock + Sync>(
    rt: &R,
    one: &mut WorkerThread<R>,
    other: &mut WorkerThread<R>,
) -> (Counts, Counts) {
    join_mut(
        rt,
        &mut || -> Counts
            requires { IsSync R.row }
        { work(rt, one) },
        &mut || -> Counts
            requires { IsSync R.row }
        { work(rt, other) },
    )
}

/// Serves connections until there are no more.
fn work<R: Wait + Clock>(rt: &R, thread: &mut WorkerThread<R>) -> Counts {
    let mut moments = moments_of(thread.setting);
    worker_loop(
        rt,
        thread.alloc,
        &thread.connections,
        thread.reader,
        &thread.setting.name,
        &mut moments,
        thread.gate,
        thread.stream.turns,
    )
}
