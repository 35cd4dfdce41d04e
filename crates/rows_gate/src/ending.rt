//! A server that is told to end, as the program's never is.
use lost_mapping::Source;
use lost_server::{
    ConnectionLimits, ConnectionSettings, Counts, Listeners, OnRefusal, Progress, Ready,
    ServerFault, ServerOrder, System, run_server,
};
use lost_sockets::{Addresses, Listener};
use std::io;
use std::net::{Net, TcpListener, TcpStream};
use std::sync::atomic::{AtomicBool, Ordering};

/// Any free port of this machine.
const ANY_PORT: &str = "127.0.0.1:0";

/// Tells a server to end as soon as it is ready, and makes one more connection, at which it sees that.
#[derive(Drop)]
struct Ending<'a, R> {
    rt: &'a R,
    is_over: &'a AtomicBool,
}

impl<R: Net<Listener = TcpListener, Stream = TcpStream>> Ready for Ending<'_, R> {
    fn begins(&self, _status: &Listener) {}

    fn ready(&self, listeners: &Listeners) -> io::Result<()> {
        self.is_over.store(true, Ordering::SeqCst);
        if let Listener::Tcp(listener) = &listeners.queries {
            drop(TcpStream::connect(self.rt, listener.local_addr()?)?);
        }
        Ok(())
    }
}

/// The counts of a server without a map that is told to end.
pub(crate) fn ended<R: System + Net<Listener = TcpListener, Stream = TcpStream> + Send + Sync>(
    rt: &R,
    name: &Source,
) -> Result<Counts, ServerFault> {
    let is_over = AtomicBool::new(false);
    let order = ServerOrder {
        name,
        addresses: Addresses {
            queries: ANY_PORT,
            desk: Some(ANY_PORT),
            status: None,
            socket_mode: 0o600,
        },
        map: None,
        journal: None,
        answers: None,
        on_refusal: OnRefusal::Stop,
        progress: Progress::Hidden,
        workers: 2,
        connections: None,
        settings: ConnectionSettings {
            idle: None,
            desk_idle: None,
            is_quiet: false,
        },
        limits: ConnectionLimits {
            line_time: None,
            reply_time: None,
            most_connections: 1_000,
            per_address: None,
        },
    };
    let ending = Ending {
        rt,
        is_over: &is_over,
    };
    run_server(rt, &order, &ending, &is_over)
}
