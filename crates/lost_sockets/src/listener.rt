//! The source of connections.
ghost use Rattle.std.specs.Prelude.{◌≡◌, ◌<◌, [], Some, Err, IfOk, IfSome, is_some, length};
ghost use Rattle.lost_sockets.specs.Kind.{unix_path, is_unix_listener, AreOfKind};

use crate::address::Address;
use crate::listen_error::{ListenError, tcp_error_of};
use crate::peer::Peer;
use crate::stream::Stream;
use crate::unix::listen_unix;
use std::io;
use std::net::{Net, TcpListener, TcpStream};
use std::os::fd::AsRawFd;
use std::os::unix::net::UnixListener;
use std::random::RandomSource;
use std::rt::Files;

/// The most connections that may wait to be accepted.
const MOST_WAITING: i32 = 4_096;

/// A source of connections, over TCP or a Unix socket. It is closed when it is dropped. The file of a Unix socket stays
/// ([`crate::remove_socket`] removes it).
#[derive(Debug, Drop)]
pub enum Listener {
    /// A listener of TCP.
    Tcp(TcpListener),
    /// A listener of a Unix socket.
    Unix(UnixListener),
}

impl Listener {
    /// Sets whether `accept_once` fails when no connection is there, or waits for one, as it does at first.
    ///
    /// # Errors
    ///
    /// Those of the system.
    pub fn set_nonblocking(&self, is_nonblocking: bool) -> io::Result<()> {
        match self {
            Listener::Tcp(listener) => listener.set_nonblocking(is_nonblocking),
            Listener::Unix(listener) => listener.set_nonblocking(is_nonblocking),
        }
    }

    /// Lets 4,096 connections wait to be accepted, or as many as the system allows (on Linux `net.core.somaxconn`); at
    /// first it is 128. One more must ask again, and comes a second later. If this cannot be set, it stays as it was.
    pub fn let_more_wait(&self) {
        let fd = match self {
            Listener::Tcp(listener) => listener.as_raw_fd(),
            Listener::Unix(listener) => listener.as_raw_fd(),
        };
        let _status = libc::net::listen(fd, MOST_WAITING);
    }

    /// Waits for the next connection. Over TCP, replies are sent as soon as they are written.
    ///
    /// # Errors
    ///
    /// Those of the system, as when too many files are open.
    pub fn accept_once(&self) -> io::Result<(Stream, Peer)>
        ensures { IfOk result (AreOfKind self.now) }
    {
        match self {
            Listener::Tcp(listener) => {
                let (stream, address) = listener.accept()?;
                // If this cannot be set, the replies come later, but are the same.
                let _set = stream.set_nodelay(true);
                Ok((Stream::Tcp(stream), Peer::Tcp(address)))
            }
            Listener::Unix(listener) => {
                let (stream, _nameless) = listener.accept()?;
                Ok((Stream::Unix(stream), Peer::Unix))
            }
        }
    }
}

/// Listens on an address.
///
/// Over TCP it is one address of this machine. If a name has several, they are tried in the system's order, and the
/// first that can be listened on is used: `localhost` is `::1` or `127.0.0.1`, and never both. On `[::]` clients over
/// IPv4 are served too, if the system allows it.
///
/// The file of a Unix socket has `mode` (at most `0o777`) from the first moment on. It replaces a file that a dead
/// server left. A relative path begins at the folder in which the program was started.
///
/// # Errors
///
/// Over TCP: [`ListenError::InUse`], [`ListenError::PortRights`], [`ListenError::NotHere`], [`ListenError::Memory`],
/// and else [`ListenError::NotAnAddress`]. For a Unix socket: [`ListenError::NotAPath`], [`ListenError::PathTooLong`],
/// [`ListenError::InUse`], [`ListenError::NotASocket`], [`ListenError::FileRights`], [`ListenError::NoFolder`],
/// [`ListenError::Memory`], and else [`ListenError::NotMade`]; what stands at the path stays as it was.
pub fn listen<
    R: Files + Net<Listener = TcpListener, Stream = TcpStream> + RandomSource + AllocGlobal,
>(rt: &R, address: Address<'_>, mode: u32) -> Result<Listener, ListenError>
    ensures kind { IfOk result (λ listener. is_unix_listener listener ≡ is_some (unix_path address.entry)) }
    ensures empty { unix_path address.entry ≡ Some [] → result ≡ Err ListenError.NotAPath }
    ensures long { IfSome (unix_path address.entry) (λ path. 96 < length path → result ≡ Err ListenError.PathTooLong) }
{
    match address {
        Address::Tcp(host_and_port) => match TcpListener::bind(rt, host_and_port) {
            Ok(listener) => Ok(Listener::Tcp(listener)),
            Err(error) => Err(tcp_error_of(error.kind())),
        },
        Address::Unix(path) => Ok(Listener::Unix(listen_unix(rt, path, mode)?)),
    }
}
