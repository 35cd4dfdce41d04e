//! The listeners of a server.
use crate::server_fault::ServerFault;
use lost_sockets::{Address, Addresses, Listener, listen, remove_socket};
use std::fs::Files;
use std::io;
use std::net::{Net, TcpListener, TcpStream};
use std::random::RandomSource;

/// The listeners of a server.
#[derive(Drop)]
pub struct Listeners {
    /// The listener for clients.
    pub queries: Listener,
    /// The listener for the map desk, if one may connect.
    pub desk: Option<Listener>,
}

/// Learns how far a server has started.
pub trait Ready {
    /// Called once the status is answered, if it is ordered, and before the map is read.
    fn begins(&self, status: &Listener);

    /// Called when the server is ready, before the first connection is accepted: its map is read, and it listens.
    ///
    /// # Errors
    ///
    /// If it cannot be passed on. The server then ends.
    fn ready(&self, listeners: &Listeners) -> io::Result<()>;
}

/// Listens on the addresses of queries and of the desk.
pub(crate) fn open_listeners<
    R: Files + Net<Listener = TcpListener, Stream = TcpStream> + RandomSource + AllocGlobal,
>(rt: &R, addresses: &Addresses<'_>) -> Result<Listeners, ServerFault> {
    let queries = listen_at(rt, "--queries", addresses.queries, addresses.socket_mode)?;
    let Some(address) = addresses.desk else {
        return Ok(Listeners {
            queries,
            desk: None,
        });
    };
    match listen_at(rt, "--desk", address, addresses.socket_mode) {
        Ok(desk) => Ok(Listeners {
            queries,
            desk: Some(desk),
        }),
        Err(fault) => {
            remove_socket(rt, Address::of(addresses.queries));
            Err(fault)
        }
    }
}

/// Removes the files of Unix sockets of queries and of the desk.
pub(crate) fn remove_sockets<R: Files>(rt: &R, addresses: &Addresses<'_>) {
    remove_socket(rt, Address::of(addresses.queries));
    if let Some(address) = addresses.desk {
        remove_socket(rt, Address::of(address));
    }
}

/// Listens on the address of an option.
pub(crate) fn listen_at<
    R: Files + Net<Listener = TcpListener, Stream = TcpStream> + RandomSource + AllocGlobal,
>(rt: &R, option: &'static str, address: &str, mode: u32) -> Result<Listener, ServerFault> {
    match listen(rt, Address::of(address), mode) {
        Ok(listener) => Ok(listener),
        Err(error) => Err(ServerFault::Address(option, error)),
    }
}
