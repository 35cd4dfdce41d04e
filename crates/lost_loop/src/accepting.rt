//! Accepts connections, and gives them to workers.
ghost use Rattle.std.specs.Prelude.{◌≡◌};
ghost use Rattle.lost_loop.specs.Counting.{IsLetIn, lost_counted};

use crate::service::Service;
use crate::worker_handle::{Arrival, WorkerHandle};
use lost_connections::Refusal;
use lost_lines::Counts;
use lost_sockets::{Listener, Peer, accept};
use lost_status::{ConnectionCounter, ConnectionEvent};
use std::io::Eprint;
use std::net::IpAddr;
use std::sync::Wait;
use std::sync::atomic::{AtomicBool, Ordering};
use std::thread::sleep;
use std::time::{Clock, Duration};

/// How long to wait before asking again whether there is room for a connection, in milliseconds.
const PAUSE: u64 = 20;

/// What becomes of a connection that comes while as many are open as may be.
#[derive(Clone, Copy, PartialEq, Eq, Debug)]
pub enum WhenFull {
    /// It is closed.
    Refuse,
    /// It waits until another one has ended.
    Wait,
}

/// Accepts the query connections of a server.
#[derive(Drop)]
pub struct Acceptor<'s, R, G> {
    pub service: &'s Service<'s, R, G>,
    pub listener: &'s Listener,
    /// The number of connections after which it stops.
    pub most: u64,
    pub when_full: WhenFull,
    /// Whether the server is over: then the next connection is the last, and is not served.
    pub is_over: &'s AtomicBool,
}

impl<R: Wait + Clock + Eprint, G> Acceptor<'_, R, G> {
    /// Accepts as many connections as it may, or connections until the server is over, and gives each to a worker in
    /// turn, or closes it if it is past a limit. Counts them in the status, whose acceptor it is. Gives one fault for each
    /// that no worker could take, or nothing if the listener was given up.
    pub fn accept_all(&self, workers: &[WorkerHandle]) -> Option<Counts> {
        let mut counter = self.service.status.acceptor();
        let mut counts = Counts::default();
        for number in 1..=self.most {
            let Some((stream, peer)) = accept(self.service.rt, self.listener) else {
                self.service.log.report_listener();
                return None;
            };
            if self.is_over.load(Ordering::SeqCst) {
                break;
            }
            let arrival = Arrival {
                stream,
                number,
                peer,
            };
            if !self.let_in(workers, arrival, &mut counter) {
                counts = counts.plus(Counts::of_fault());
            }
        }
        Some(counts)
    }

    /// Gives a connection to a worker, or closes it. Says whether all is well, as it is with one past a limit.
    fn let_in(
        &self,
        workers: &[WorkerHandle],
        arrival: Arrival,
        counter: &mut ConnectionCounter<'_>,
    ) -> bool
        ensures { IsLetIn counter.old result counter.new }
    {
        let service = self.service;
        let (number, peer) = (arrival.number, arrival.peer);
        if let Err(refusal) = self.enter(peer.address()) {
            drop(arrival);
            counter.count(ConnectionEvent::TurnedAway);
            service.log.report_query(number, &peer, refusal.text());
            return true;
        }
        counter.count(ConnectionEvent::Accepted);
        if give_in_turn(service.rt, workers, arrival) {
            return true;
        }
        self.count_lost(number, &peer, counter);
        false
    }

    /// Admits a connection, once there is room for it if it may wait.
    fn enter(&self, address: Option<IpAddr>) -> Result<(), Refusal> {
        let service = self.service;
        for _ in service.rt.forever() {
            let entered = service.admission.enter(service.rt, address);
            if self.when_full == WhenFull::Refuse || entered != Err(Refusal::Most) {
                return entered;
            }
            sleep(service.rt, Duration::from_millis(PAUSE));
        }
        Err(Refusal::Most)
    }

    /// Counts an admitted connection that no worker could take, and reports it.
    fn count_lost(&self, number: u64, peer: &Peer, counter: &mut ConnectionCounter<'_>)
        ensures { counter.new ≡ lost_counted counter.old }
    {
        let service = self.service;
        service.admission.leave(service.rt, peer.address());
        counter.count(ConnectionEvent::Taken);
        counter.count(ConnectionEvent::Failed);
        service
            .log
            .report_query(number, peer, "no worker could take it: memory ran out");
    }
}

/// Gives a connection to the worker whose turn it is. Says whether that succeeded.
fn give_in_turn<R: Wait>(rt: &R, workers: &[WorkerHandle], arrival: Arrival) -> bool {
    let Some(place) = arrival.number.checked_rem(workers.len() as u64) else {
        return false;
    };
    match workers.get(place as usize) {
        Some(worker) => worker.give(rt, arrival),
        None => false,
    }
}
