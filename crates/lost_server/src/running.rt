//! A server that begins with no mappings, over listeners that stand.
ghost use Rattle.std.specs.Prelude.{◌≡◌, ◌≢◌, ◌<◌, ◌⊎◌, ◌↔◌, Err};

use crate::listeners::Listeners;
use crate::order::ConnectionSettings;
use crate::run::{Run, limits_of_given};
use crate::run_fault::{RunFault, fault_of_opening};
use lost_book::Limits;
use lost_desk::{Desk, Readers, open_desk};
use lost_lines::{Counts, Gate};
use lost_log::ConnectionLog;
use lost_mapping::Source;
use lost_sockets::Listener;
use lost_status::Status;
use std::alloc::Global;
use std::io::Eprint;
use std::net::{Net, TcpListener};
use std::random::RandomSource;
use std::sync::Wait;
use std::sync::atomic::AtomicBool;
use std::thread::Threads;
use std::time::{Clock, Duration};

/// Serves one connection of `desk_listener` and `connections` connections of `query_listener`, which `workers` workers
/// answer, as the server of this name. It begins with no mappings. A request is answered at the time of the machine's
/// clock, once `gate` lets its line through; the lines of a connection count from 1. Edits that are pending when the
/// desk's connection ends are dropped; published edits stay. It waits until all these connections have ended. Gives the
/// sums of the query connections' counts: one that ended in a fault, or could not be handed to a worker, adds one to
/// `faults` and nothing else.
///
/// # Errors
///
/// [`RunFault::Workers`] unless there are 1 to 64 workers. [`RunFault::Accept`] if a listener was given up, once all
/// connections have ended. [`RunFault::Memory`] if memory, a reader's place, a thread or the random keys of the caches'
/// hashes were refused.
pub fn serve<R: Threads + Wait + Clock + Eprint + RandomSource + Net + Send + Sync, G: Gate + Sync>(
    rt: &R,
    alloc: Global,
    name: &Source,
    query_listener: &TcpListener,
    desk_listener: &TcpListener,
    workers: u32,
    connections: u32,
    gate: &G,
    settings: ConnectionSettings,
) -> Result<Counts, RunFault>
    ensures workers { (result ≡ Err RunFault.Workers) ↔ ((workers < 1) ⊎ (64 < workers)) }
{
    match open_desk(rt, alloc, Limits::widest(), workers) {
        Ok((mut desk, readers)) => {
            let given = Given {
                rt,
                alloc,
                name,
                gate,
                settings,
                workers,
                connections,
            };
            let result = given.serve((query_listener, desk_listener), &mut desk, readers);
            desk.close(rt);
            result
        }
        Err(error) => Err(fault_of_opening(error)),
    }
}

/// What is given of a server.
#[derive(Drop)]
struct Given<'r, R, G> {
    rt: &'r R,
    alloc: Global,
    name: &'r Source,
    gate: &'r G,
    settings: ConnectionSettings,
    workers: u32,
    connections: u32,
}

impl<R, G> Given<'_, R, G>
where
    R: Threads + Wait + Clock + Eprint + RandomSource + Net + Send + Sync,
    G: Gate + Sync,
{
    /// Serves the connections of two listeners, of queries and of the desk, with an open desk and its readers.
    fn serve(
        &self,
        listeners: (&TcpListener, &TcpListener),
        desk: &mut Desk,
        readers: Readers,
    ) -> Result<Counts, RunFault>
        requires { readers.each.opening ≡ desk.old.opening }
        ensures { result ≢ Err RunFault.Workers }
    {
        let status = Status::new(self.alloc, self.workers, Duration::from_secs(0))?;
        let log = ConnectionLog::new(self.rt, self.alloc, self.settings.is_quiet, None);
        let listeners = own_listeners(listeners)?;
        let is_over = AtomicBool::new(false);
        let run = Run {
            rt: self.rt,
            alloc: self.alloc,
            name: self.name,
            gate: self.gate,
            log: &log,
            answers: None,
            status: &status,
            counts_replies: false,
            settings: self.settings,
            limits: limits_of_given(&self.settings),
            workers: self.workers,
            connections: Some(self.connections),
            is_over: &is_over,
        };
        run.answer(&listeners, desk, None, readers, status.desk())
    }
}

/// A server's own handles of the listeners of queries and of the desk.
fn own_listeners(listeners: (&TcpListener, &TcpListener)) -> Result<Listeners, RunFault>
    ensures { result ≢ Err RunFault.Workers }
{
    let (queries, desks) = listeners;
    Ok(Listeners {
        queries: own_listener(queries)?,
        desk: Some(own_listener(desks)?),
    })
}

/// A server's own handle of a listener, with the same address.
fn own_listener(listener: &TcpListener) -> Result<Listener, RunFault>
    ensures { result ≢ Err RunFault.Workers }
{
    match listener.try_clone() {
        Ok(listener) => Ok(Listener::Tcp(listener)),
        Err(_) => Err(RunFault::Accept),
    }
}
