//! Two connections of one worker that take turns while a desk commits.
use crate::always::moments_of;
use crate::sipping::Sipping;
use crate::telling::tell_lines;
use lost_connections::{Client, Clients};
use lost_desk::Desk;
use lost_worker::{NoGate, Replier, Turns, Watched, serve_desk};
use std::alloc::{AllocError, Global};
use std::collections::VecDeque;
use std::io;
use std::io::{ErrorKind, Read, Write};
use std::sync::Wait;
use std::time::Duration;
use test_parts::Setting;

/// How many lines the connections send in all.
const LINES: u64 = 6;

/// The most bytes of a read.
const CHUNK: usize = 64;

/// The most bytes of a write.
const SIP: usize = 16;

/// How often a connection is served after each line: its output then takes less than the reply.
const BURSTS: u64 = 4;

/// The bytes that were put in. A read of none would block.
#[derive(Drop)]
struct Inbox {
    bytes: VecDeque<u8>,
}

impl Read for Inbox {
    fn read(&mut self, buf: &mut [u8]) -> io::Result<usize> {
        if self.bytes.is_empty() {
            return Err(io::Error::from(ErrorKind::WouldBlock));
        }
        self.bytes.read(buf)
    }
}

/// The connections of a worker in memory.
type InMemory = Clients<Inbox, Sipping, ()>;

/// Has a worker serve two connections in turn, a line of each at a time. The desk publishes a mapping after each line.
/// Prints what was written to each connection.
pub(crate) fn take_turns<R: Wait + Print + AllocGlobal, P: Replier>(
    rt: &R,
    desk: &mut Desk,
    replier: &mut P,
    setting: &Setting,
) -> io::Result<()> {
    let alloc = rt.alloc();
    let mut clients = Clients::new(alloc);
    let one = clients.insert(client_of(alloc), Duration::ZERO, ())?;
    let other = clients.insert(client_of(alloc), Duration::ZERO, ())?;
    serve_lines(rt, desk, &mut clients, [one, other], replier, setting)?;
    for key in [one, other] {
        serve(alloc, &mut clients, key, replier, setting, 64);
        tell(rt, &clients, key)?;
    }
    Ok(())
}

/// Has the connections send their lines and be served, in turn. The desk publishes a mapping after each line.
fn serve_lines<R: Wait + AllocGlobal, P: Replier>(
    rt: &R,
    desk: &mut Desk,
    clients: &mut InMemory,
    keys: [usize; 2],
    replier: &mut P,
    setting: &Setting,
) -> io::Result<()> {
    let [one, other] = keys;
    for number in 0..LINES {
        let (key, name) = if number % 2 == 0 {
            (one, "one")
        } else {
            (other, "other")
        };
        ask(rt.alloc(), clients, key, name)?;
        serve(rt.alloc(), clients, key, replier, setting, BURSTS);
        publish(rt, desk, number)?;
    }
    Ok(())
}

/// A connection that has sent nothing.
fn client_of(alloc: Global) -> Client<Inbox, Sipping> {
    let inbox = Inbox {
        bytes: VecDeque::new(alloc),
    };
    Client::new(alloc, inbox, Sipping::new(alloc, SIP), LINES)
}

/// Has a connection send a question whose path has this name.
fn ask(alloc: Global, clients: &mut InMemory, key: usize, name: &str) -> io::Result<()> {
    let line = format!(in alloc; "{{\"listServices\":{{\"path\":[\"{name}\"]}}}}\n")?;
    match clients.get_mut(key) {
        Some(connected) => connected
            .client
            .input_mut()
            .bytes
            .write_all(line.as_bytes()),
        None => Err(AllocError.into()),
    }
}

/// Serves so many bursts of a connection.
fn serve<P: Replier>(
    alloc: Global,
    clients: &mut InMemory,
    key: usize,
    replier: &mut P,
    setting: &Setting,
    bursts: u64,
) {
    let mut chunk = [0u8; CHUNK];
    for _ in 0..bursts {
        let mut moments = moments_of(setting);
        // The written text shows the result.
        let _burst = clients.serve(
            key,
            alloc,
            &mut chunk,
            Duration::ZERO,
            replier,
            &setting.name,
            &mut moments,
            &NoGate,
        );
    }
}

/// Has the desk publish a mapping with a number, and commit it.
fn publish<R: Wait + AllocGlobal>(rt: &R, desk: &mut Desk, number: u64) -> io::Result<()> {
    let alloc = rt.alloc();
    let lines = format!(in alloc;
        "{{\"publish\":{{\"default\":true,\"expires\":\"NO-EXPIRATION\",\"lastUpdated\":\"2025-12-01T00:00:00Z\",\"service\":\"urn:service:sos.n{number}\",\"source\":\"map.example\",\"sourceId\":\"N{number}\",\"uri\":[\"sip:n@map.example\"]}}}}\n{{\"commit\":{{}}}}\n"
    )?;
    let mut input = Watched::new(lines.as_bytes());
    let mut output = Watched::new(Vec::new(alloc));
    match serve_desk(rt, alloc, &mut input, &mut output, desk, Turns::USUAL) {
        Ok(_) => Ok(()),
        Err(_) => Err(AllocError.into()),
    }
}

/// Prints what was written to a connection.
fn tell<R: Print>(rt: &R, clients: &InMemory, key: usize) -> io::Result<()> {
    let Some(connected) = clients.get(key) else {
        return Ok(());
    };
    tell_lines(rt, connected.client.output().text.as_slice())
}
