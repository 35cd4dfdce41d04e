//! The listeners of a server, and the clients' ends of its connections.
use std::alloc::Global;
use std::io;
use std::io::{Read, Write};
use std::net::{Net, TcpListener, TcpStream};
use std::time::Duration;

/// How long a client waits for a reply, or until its bytes are taken, in seconds.
const PATIENCE: u64 = 20;

/// The most reads of a reply.
const MOST_READS: usize = 4_096;

/// The listeners of a server, on two free ports of this machine.
#[derive(Drop)]
pub(crate) struct Doors {
    pub(crate) queries: TcpListener,
    pub(crate) desk: TcpListener,
}

impl Doors {
    pub(crate) fn new<R: Net<Listener = TcpListener, Stream = TcpStream>>(
        rt: &R,
    ) -> io::Result<Doors> {
        Ok(Doors {
            queries: TcpListener::bind(rt, "127.0.0.1:0")?,
            desk: TcpListener::bind(rt, "127.0.0.1:0")?,
        })
    }
}

/// A client's end of a connection.
#[derive(Drop)]
pub(crate) struct Client {
    stream: TcpStream,
}

impl Client {
    /// A client of a listener.
    pub(crate) fn of<R: Net<Listener = TcpListener, Stream = TcpStream>>(
        rt: &R,
        listener: &TcpListener,
    ) -> io::Result<Client> {
        let stream = TcpStream::connect(rt, listener.local_addr()?)?;
        stream.set_read_timeout(Some(Duration::from_secs(PATIENCE)))?;
        stream.set_write_timeout(Some(Duration::from_secs(PATIENCE)))?;
        Ok(Client { stream })
    }

    /// Sends a line.
    pub(crate) fn send(&mut self, line: &[u8]) -> io::Result<()> {
        self.stream.write_all(line)
    }

    /// The reply to the only line that waits for one, with its byte 10. An error if the connection ends, or if the client
    /// waits too long.
    pub(crate) fn reply(&mut self, alloc: Global) -> io::Result<String> {
        let mut reply = String::new(alloc);
        for _ in 0..MOST_READS {
            let mut chunk = [0u8; 1_024];
            let count = self.stream.read(&mut chunk)?;
            let Ok(text) = std::str::from_utf8(&chunk[..count]) else {
                return Err(io::Error::from(io::ErrorKind::InvalidData));
            };
            reply.push_str(text)?;
            if text.ends_with('\n') {
                return Ok(reply);
            }
            if count == 0 {
                break;
            }
        }
        Err(io::Error::from(io::ErrorKind::UnexpectedEof))
    }
}
