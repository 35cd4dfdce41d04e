//! What a worker keeps of a connection.
use crate::shared_stream::SharedStream;
use lost_connections::{ClientFault, Clients};
use lost_sockets::Peer;

/// The connections of a worker.
pub(crate) type Connections = Clients<SharedStream, SharedStream, ConnectionState>;

/// What a worker keeps of a connection.
#[derive(Clone, Copy)]
pub(crate) struct ConnectionState {
    /// Its number, from 1.
    pub(crate) number: u64,
    pub(crate) peer: Peer,
}

/// The report of a connection that cannot be served further.
pub(crate) fn fault_text(fault: ClientFault) -> &'static str {
    match fault {
        ClientFault::Read => "it could not be read",
        ClientFault::Write => "it could not be written",
        ClientFault::Memory => "memory ran out",
        ClientFault::Spent => "it sent too many lines for one connection",
    }
}
