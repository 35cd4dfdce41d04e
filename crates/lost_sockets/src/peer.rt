//! Where a connection comes from.
ghost use Rattle.std.specs.Prelude.{◌≡◌, Some};
ghost use Rattle.lost_sockets.specs.Peer.{peer_text, address_of};

use std::fmt;
use std::fmt::{Display, Formatter};
use std::net::{IpAddr, SocketAddr};

/// Where a connection comes from. Its text is its address, or `a unix socket`.
#[derive(Clone, Copy, PartialEq, Eq, Debug)]
pub enum Peer {
    /// A client over TCP, with its address.
    Tcp(SocketAddr),
    /// A client over a Unix socket, which has no address.
    Unix,
}

impl Peer {
    /// The address of its machine, without its port. `None` for a Unix socket.
    pub fn address(&self) -> Option<IpAddr>
        ensures { result ≡ address_of self.now }
    {
        match self {
            Peer::Tcp(address) => Some(address.ip()),
            Peer::Unix => None,
        }
    }
}

impl Display for Peer {
    ghost output = { λ peer. Some (peer_text peer) };

    fn fmt<W: fmt::Write>(&self, f: &mut Formatter<W>) -> fmt::Result {
        match self {
            Peer::Tcp(address) => write!(f, "{address}"),
            Peer::Unix => f.write_str("a unix socket"),
        }
    }
}
