//! A connection.
ghost use Rattle.std.specs.Prelude.{◌≡◌, true, false, None, IfSome};
ghost use Rattle.std.specs.Duration.{as_nanos};
ghost use Rattle.std.specs.Io.{ReadsAtMost, WritesAtMost};

use std::io;
use std::io::{Read, Write};
use std::net::TcpStream;
use std::os::fd::{AsRawFd, RawFd};
use std::os::unix::net::UnixStream;
use std::time::Duration;

/// A connection over TCP or over a Unix socket, which threads may share. It is closed when it is dropped.
#[derive(Debug, Drop)]
pub enum Stream {
    /// A connection over TCP.
    Tcp(TcpStream),
    /// A connection over a Unix socket.
    Unix(UnixStream),
}

impl Stream {
    /// Fails each read and each write that waits longer than `idle`; none if `idle` is `None`. Says whether that could
    /// be set: a time of 0 never can.
    pub fn limit_waiting(&self, idle: Option<Duration>) -> bool
        ensures unlimited { idle ≡ None → result ≡ true }
        ensures no_time { IfSome idle (λ d. as_nanos d ≡ 0 → result ≡ false) }
    {
        if idle.is_none() {
            return true;
        }
        match self {
            Stream::Tcp(stream) => stream.set_read_timeout(idle).is_ok()
                && stream.set_write_timeout(idle).is_ok(),
            Stream::Unix(stream) => stream.set_read_timeout(idle).is_ok()
                && stream.set_write_timeout(idle).is_ok(),
        }
    }

    /// Sets whether a read and a write fail with `WouldBlock` instead of waiting. At first they wait.
    ///
    /// # Errors
    ///
    /// Those of the system.
    pub fn set_nonblocking(&self, is_nonblocking: bool) -> io::Result<()> {
        match self {
            Stream::Tcp(stream) => stream.set_nonblocking(is_nonblocking),
            Stream::Unix(stream) => stream.set_nonblocking(is_nonblocking),
        }
    }

    /// The number of its descriptor. The system may give it to another file once the connection is closed.
    pub fn raw_fd(&self) -> RawFd {
        match self {
            Stream::Tcp(stream) => stream.as_raw_fd(),
            Stream::Unix(stream) => stream.as_raw_fd(),
        }
    }

    /// Reads what has come, and waits if nothing has.
    fn receive(&self, buf: &mut [u8]) -> io::Result<usize>
        ensures { ReadsAtMost result buf.new }
    {
        match self {
            Stream::Tcp(stream) => (&mut &*stream).read(buf),
            Stream::Unix(stream) => (&mut &*stream).read(buf),
        }
    }

    /// Writes as much as the system takes, and waits if it takes nothing.
    fn send(&self, buf: &[u8]) -> io::Result<usize>
        ensures { WritesAtMost result buf.now }
    {
        match self {
            Stream::Tcp(stream) => (&mut &*stream).write(buf),
            Stream::Unix(stream) => (&mut &*stream).write(buf),
        }
    }
}

impl Read for Stream {
    fn read(&mut self, buf: &mut [u8]) -> io::Result<usize> {
        self.receive(buf)
    }
}

impl Write for Stream {
    fn write(&mut self, buf: &[u8]) -> io::Result<usize> {
        self.send(buf)
    }

    fn flush(&mut self) -> io::Result<()> {
        Ok(())
    }
}

impl Read for &Stream {
    fn read(&mut self, buf: &mut [u8]) -> io::Result<usize> {
        self.receive(buf)
    }
}

impl Write for &Stream {
    fn write(&mut self, buf: &[u8]) -> io::Result<usize> {
        self.send(buf)
    }

    fn flush(&mut self) -> io::Result<()> {
        Ok(())
    }
}
