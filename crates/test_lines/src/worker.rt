//! A worker with a connection that fails and a good one.
use crate::always::moments_of;
use crate::telling::tell_counts;
use lost_book::Limits;
use lost_desk::{Reader, open_desk};
use lost_worker::{Connection, ConnectionSource, NoGate, Turns, serve_connections};
use std::alloc::{AllocError, Global};
use std::collections::VecDeque;
use std::io;
use std::io::{Read, Write};
use std::sync::atomic::{AtomicU64, Ordering};
use std::sync::{Arc, Wait};
use test_parts::Setting;

/// Gives bytes, or fails at once.
#[derive(Drop)]
struct Given {
    bytes: VecDeque<u8>,
    is_failing: bool,
}

impl Read for Given {
    fn read(&mut self, buf: &mut [u8]) -> io::Result<usize> {
        if self.is_failing {
            return Err(io::ErrorKind::ConnectionReset.into());
        }
        self.bytes.read(buf)
    }
}

/// How many bytes were written, and how many of them are bytes 10.
#[derive(Drop)]
struct Sums {
    bytes: AtomicU64,
    lines: AtomicU64,
}

/// Counts the bytes that are written.
#[derive(Drop)]
struct Counting {
    sums: Arc<Sums>,
}

impl Counting {
    /// Nothing is counted yet.
    fn new(alloc: Global) -> Result<Counting, AllocError> {
        let sums = Sums {
            bytes: AtomicU64::new(0),
            lines: AtomicU64::new(0),
        };
        Ok(Counting {
            sums: Arc::new(alloc, sums)?,
        })
    }

    /// A second counter of the same sums.
    fn shared(&self) -> Result<Counting, AllocError> {
        Ok(Counting {
            sums: self.sums.clone()?,
        })
    }
}

impl Write for Counting {
    fn write(&mut self, buf: &[u8]) -> io::Result<usize> {
        for byte in buf {
            self.sums.bytes.fetch_add(1, Ordering::SeqCst);
            if *byte == b'\n' {
                self.sums.lines.fetch_add(1, Ordering::SeqCst);
            }
        }
        Ok(buf.len())
    }

    fn flush(&mut self) -> io::Result<()> {
        Ok(())
    }
}

/// A connection in memory.
type InMemory = Connection<Given, Counting>;

/// A list of connections, which are handed over in order.
#[derive(Drop)]
struct Listed {
    connections: VecDeque<InMemory>,
}

impl ConnectionSource<Given, Counting> for Listed {
    ghost use Rattle.std.specs.Prelude.{Some};

    ghost coming = { λ source. Some source.connections.items };

    fn next<R: Wait>(&mut self, _rt: &R) -> Option<InMemory> {
        self.connections.pop_front()
    }
}

/// Has one worker serve a stream over a connection whose first read fails, and then over a good one. Prints its counts,
/// and how much was written.
pub(crate) fn work<R: Wait + Print + AllocGlobal>(
    rt: &R,
    setting: &Setting,
    bytes: &[u8],
) -> io::Result<()> {
    let Ok((desk, mut readers)) = open_desk(rt, rt.alloc(), Limits::widest(), 1) else {
        return Err(AllocError.into());
    };
    let result = match readers.take() {
        Some(mut reader) => serve_both(rt, setting, bytes, &mut reader),
        None => Err(AllocError.into()),
    };
    desk.close(rt);
    result
}

/// Serves both connections by a reader.
fn serve_both<R: Wait + Print + AllocGlobal>(
    rt: &R,
    setting: &Setting,
    bytes: &[u8],
    reader: &mut Reader,
) -> io::Result<()> {
    let written = Counting::new(rt.alloc())?;
    let mut source = both(rt.alloc(), bytes, &written)?;
    let counts = serve_connections(
        rt,
        rt.alloc(),
        &mut source,
        reader,
        &setting.name,
        &mut moments_of(setting),
        &NoGate,
        Turns::USUAL,
    );
    tell_counts(rt, counts)?;
    tell_sums(rt, &written.sums)
}

/// Prints how much was written.
fn tell_sums<R: Print>(rt: &R, sums: &Sums) -> io::Result<()> {
    println!(rt;
        "{} lines and {} bytes were written",
        sums.lines.load(Ordering::SeqCst),
        sums.bytes.load(Ordering::SeqCst)
    )
}

/// Both connections, the failing one first.
fn both(alloc: Global, bytes: &[u8], written: &Counting) -> io::Result<Listed> {
    let mut connections = VecDeque::new(alloc);
    for is_failing in [true, false] {
        let connection = connection(alloc, bytes, written.shared()?, is_failing)?;
        connections.push_back(connection)?;
    }
    Ok(Listed { connections })
}

/// A connection that gives bytes, or fails at once.
fn connection(
    alloc: Global,
    bytes: &[u8],
    output: Counting,
    is_failing: bool,
) -> io::Result<InMemory> {
    let mut given = VecDeque::new(alloc);
    given.write_all(bytes)?;
    Ok(Connection {
        input: Given {
            bytes: given,
            is_failing,
        },
        output,
    })
}
