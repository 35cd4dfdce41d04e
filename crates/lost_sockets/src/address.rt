//! The text of the address where a server listens.
ghost use Rattle.lost_sockets.specs.Address.{IsAddressOf};

/// The beginning of a Unix socket's address.
const UNIX_SCHEME: &str = "unix:";

/// Where a server listens: a host and a port, or the path of a Unix socket.
#[derive(Clone, Copy, PartialEq, Eq, Debug)]
pub enum Address<'a> {
    /// A host and a port of TCP, as `127.0.0.1:5222`, `[::1]:5222` or `localhost:5222`.
    Tcp(&'a str),
    /// The path of a Unix socket, as `/run/lostd/desk.sock`.
    Unix(&'a str),
}

impl<'a> Address<'a> {
    /// The address that a text names: `unix:PATH` is a Unix socket, anything else a host and a port, as given. So a
    /// host with the name `unix` cannot be named.
    pub fn of(text: &'a str) -> Address<'a>
        ensures { IsAddressOf text.now result }
    {
        match text.strip_prefix(UNIX_SCHEME) {
            Some(path) => Address::Unix(path),
            None => Address::Tcp(text),
        }
    }
}
