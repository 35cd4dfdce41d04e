//! A server with a desk and two clients, over connections of this machine. Two workers answer the clients, and the first
//! line waits until the other one was answered. The desk stays meanwhile. Then a server that is told to end.
use crate::client::{Client, Doors};
use crate::ending::ended;
use lost_server::{ConnectionSettings, Counts, Gate, RunFault, System, serve};
use std::alloc::Global;
use std::io;
use std::net::{Net, TcpListener, TcpStream};
use std::random::RandomSource;
use std::sync::Wait;
use std::thread::{Threads, join};
use std::time::{Clock, Duration};
use test_parts::{Meeting, Setting};

/// For how long a connection may be idle, in seconds.
const IDLE: u64 = 30;

/// The publish of a mapping whose boundary is a square.
const PUBLISH: &[u8] =
    b"{\"publish\":{\"expires\":\"NO-EXPIRATION\",\"key\":\"A-1\",\"lastUpdated\":\"2025-12-01T00:00:00Z\",\"service\":\"urn:service:sos.police\",\"serviceBoundary\":[{\"polygon\":[[0,0],[0,10000000],[10000000,10000000],[10000000,0],[0,0]],\"profile\":\"geodetic-2d\"}],\"source\":\"map.example\",\"sourceId\":\"A\",\"uri\":[\"sip:A@map.example\"]}}\n";

/// A commit.
const COMMIT: &[u8] = b"{\"commit\":{}}\n";

/// A question about a point in the square.
const QUESTION: &[u8] =
    b"{\"findService\":{\"location\":[{\"id\":\"p\",\"pos\":[5000000,5000000],\"profile\":\"geodetic-2d\"}],\"service\":\"urn:service:sos.police\"}}\n";

/// Prints what both servers answered, and their counts.
pub(crate) fn run<
    R: System + Print + Net<Listener = TcpListener, Stream = TcpStream> + Send + Sync,
>(rt: &R) -> io::Result<()> {
    let setting = Setting::new(rt.alloc())?;
    answer(rt, &setting)?;
    match ended(rt, &setting.name) {
        Ok(counts) => println!(rt; "ended: lines {} faults {}", counts.lines, counts.faults),
        Err(_) => println!(rt; "not ended as told"),
    }
}

/// Has the server answer a desk and two clients, and prints the replies and the counts.
fn answer<
    R: Net<Listener = TcpListener, Stream = TcpStream>
        + Threads
        + Wait
        + Clock
        + Eprint
        + Print
        + RandomSource
        + Send
        + Sync
        + AllocGlobal,
>(rt: &R, setting: &Setting) -> io::Result<()> {
    let doors = Doors::new(rt)?;
    let gate = Meeting::new(rt);
    let (counts, replies) = join(
        rt,
        || served(rt, setting, &doors, &gate),
        || replies_of(rt, rt.alloc(), &doors),
    );
    for reply in replies?.iter() {
        print!(rt; "{reply}")?;
    }
    match counts {
        Ok(counts) => println!(rt;
            "lines {} long {} memory {} faults {}",
            counts.lines, counts.long_lines, counts.memory, counts.faults
        ),
        Err(fault) => println!(rt; "{fault:?}"),
    }
}

/// Serves two connections by two workers.
fn served<
    R: Threads + Wait + Clock + Eprint + RandomSource + Net + Send + Sync + AllocGlobal,
    G: Gate + Sync,
>(rt: &R, setting: &Setting, doors: &Doors, gate: &G) -> Result<Counts, RunFault> {
    let settings = ConnectionSettings {
        idle: Some(Duration::from_secs(IDLE)),
        desk_idle: None,
        is_quiet: false,
    };
    serve(
        rt,
        rt.alloc(),
        &setting.name,
        &doors.queries,
        &doors.desk,
        2,
        2,
        gate,
        settings,
    )
}

/// The replies to an edit, a commit and the questions of two clients. The desk's connection ends last.
fn replies_of<R: Net<Listener = TcpListener, Stream = TcpStream>>(
    rt: &R,
    alloc: Global,
    doors: &Doors,
) -> io::Result<Vec<String>> {
    let mut replies = Vec::new(alloc);
    let mut desk = Client::of(rt, &doors.desk)?;
    for line in [PUBLISH, COMMIT] {
        desk.send(line)?;
        replies.push(desk.reply(alloc)?)?;
    }
    let mut one = Client::of(rt, &doors.queries)?;
    let mut other = Client::of(rt, &doors.queries)?;
    one.send(QUESTION)?;
    other.send(QUESTION)?;
    replies.push(one.reply(alloc)?)?;
    replies.push(other.reply(alloc)?)?;
    Ok(replies)
}
