//! The event loop of a worker.
ghost use Rattle.std.specs.Prelude.{◌≡◌, ◌⊎◌, ◌<◌, ℕ, false, IsTrue, MatchOption, length};
ghost use Rattle.lost_worker.specs.Lines.{HasSeenMore};
ghost use Rattle.lost_status.specs.Figures.{connections_counted};
ghost use Rattle.lost_connections.specs.Worker.{worker};
ghost use Rattle.lost_connections.specs.Clients.{connected_at, KeepsAll, KeepsOthers};
ghost use Rattle.lost_loop.specs.Counting.{lost_counted};
ghost use Rattle.lost_loop.specs.Keys.{flag_at};
ghost use Rattle.lost_loop.specs.Loop.{Bursts, Follows, IsTurn, IsTaken, TakesOrCloses};

use crate::connection_state::{ConnectionState, Connections, fault_text};
use crate::deciding::{Next, Patience, next_after, patience_for};
use crate::ready_queue::ReadyQueue;
use crate::service::Service;
use crate::shared_stream::SharedStream;
use crate::spent_keys::SpentKeys;
use crate::worker_handle::{ARRIVALS, Arrival, Arrivals};
use crossbeam_channel::TryRecvError;
use lost_connections::{Client, ClientFault, Clients, Progress};
use lost_lines::{Counts, Gate};
use lost_sockets::Stream;
use lost_status::{ConnectionCounter, ConnectionEvent};
use lost_worker::{Moments, SharedReplier};
use mio::unix::SourceFd;
use mio::{Events, Interest, Token};
use std::alloc::{AllocError, Global};
use std::io::{Eprint, Read, Write};
use std::os::fd::RawFd;
use std::sync::Wait;
use std::thread::sleep;
use std::time::{Clock, Duration};

/// The most bytes of one read, and so of one burst.
const CHUNK: usize = 4_096;

/// The most events that are reported at once.
const MOST_EVENTS: usize = 1_024;

/// How often in a row to ask for further events, if as many came as are reported at once.
const MOST_POLLS: u32 = 256;

/// How long to wait for events at most where a connection could pass a limit, in milliseconds.
const SWEEP: u64 = 250;

/// How long to pause if waiting for events fails, in milliseconds.
const PAUSE: u64 = 20;

/// The connections that one worker watches: the arriving ones, all of them, and those to serve at once.
pub struct EventLoop<'s> {
    arrivals: Arrivals,
    events: Events,
    pub(crate) clients: Connections,
    queue: ReadyQueue,
    /// Those that have no line left, which are closed once their replies are taken.
    pub(crate) spent: SpentKeys,
    chunk: Vec<u8>,
    /// The time of this round, by the monotonic clock.
    pub(crate) now: Duration,
    /// The time of the last check of limits.
    pub(crate) swept: Duration,
    /// Whether no more connections come.
    is_closing: bool,
    pub(crate) counts: Counts,
    /// What it counts for the status.
    pub(crate) counter: ConnectionCounter<'s>,
    ghost room: { 0 < length chunk.items },
}

impl Drop for EventLoop<'_> {
    fn drop(self) {
        let EventLoop {
            arrivals: _,
            events: _,
            clients: _,
            queue: _,
            spent: _,
            chunk: _,
            now: _,
            swept: _,
            is_closing: _,
            counts: _,
            counter: _,
        } = self;
    }
}

impl<'s> EventLoop<'s> {
    /// No connections. New ones come from `arrivals`, and are counted by `counter`.
    ///
    /// # Errors
    ///
    /// If memory is refused.
    pub fn new(
        alloc: Global,
        arrivals: Arrivals,
        counter: ConnectionCounter<'s>,
    ) -> Result<EventLoop<'s>, AllocError> {
        Ok(EventLoop {
            arrivals,
            events: Events::with_capacity(alloc, MOST_EVENTS)?,
            clients: Clients::new(alloc),
            queue: ReadyQueue::new(alloc),
            spent: SpentKeys::new(alloc),
            chunk: Vec::from_elem(alloc, 0, CHUNK)?,
            now: Duration::ZERO,
            swept: Duration::ZERO,
            is_closing: false,
            counts: Counts::default(),
            counter,
        })
    }

    /// Serves connections until no more come and all have ended. Gives the sum of their counts: a connection that ends
    /// in a fault adds one to `faults` and nothing else.
    pub fn run<R: Wait + Clock + Eprint, P: SharedReplier, M: Moments, G: Gate>(
        &mut self,
        service: &Service<'_, R, G>,
        replier: &mut P,
        moments: &mut M,
    ) -> Counts
        // Each line is answered from a list that begins with those of all lines before it, of whichever connection.
        ensures seen { HasSeenMore (P.reader replier.old) (P.reader replier.new) }
    {
        for _round in service.rt.forever() {
            self.wait(service);
            self.counter.count(ConnectionEvent::Busy);
            self.serve_queued(service, replier, moments);
            replier.rest();
            self.counter.count(ConnectionEvent::Idle);
            self.sweep(service);
            if self.is_closing && self.clients.is_empty() {
                break;
            }
        }
        self.counts
    }

    /// Waits until there is something to do, and takes what has come.
    fn wait<R: Wait + Clock + Eprint, G>(&mut self, service: &Service<'_, R, G>) {
        let mut patience = self.patience(service);
        let mut have_come = false;
        for _ in 0..MOST_POLLS {
            if self.arrivals.poll.poll(&mut self.events, patience).is_err() {
                sleep(service.rt, Duration::from_millis(PAUSE));
                break;
            }
            patience = Some(Duration::ZERO);
            have_come = self.queue_ready() || have_come;
            if self.events.iter().count() < MOST_EVENTS {
                break;
            }
        }
        self.now = service.rt.monotonic().unwrap_or(self.now);
        if have_come {
            self.take_arrivals(service);
        }
    }

    /// How long to wait for events; `None` for ever.
    fn patience<R, G>(&self, service: &Service<'_, R, G>) -> Option<Duration> {
        let may_pass = !self.clients.is_empty() && !service.limits.are_none();
        match patience_for(!self.queue.is_empty(), may_pass) {
            Patience::Nothing => Some(Duration::ZERO),
            Patience::UntilSweep => Some(Duration::from_millis(SWEEP)),
            Patience::UntilEvent => None,
        }
    }

    /// Queues the connections at which something happened. Says whether new ones came.
    fn queue_ready(&mut self) -> bool {
        let mut have_come = false;
        for event in self.events.iter() {
            let token = event.token();
            if token == ARRIVALS {
                have_come = true;
            } else {
                self.queue.push(token.0);
            }
        }
        have_come
    }

    /// Takes the connections that have come.
    fn take_arrivals<R: Wait + Clock + Eprint, G>(&mut self, service: &Service<'_, R, G>) {
        for _ in 0..u64::MAX {
            match self.arrivals.receiver.try_recv(service.rt) {
                Ok(arrival) => self.take(service, arrival),
                Err(TryRecvError::Empty) => return,
                Err(TryRecvError::Disconnected) => {
                    self.is_closing = true;
                    return;
                }
            }
        }
    }

    /// Takes a connection, or closes it if it cannot be watched, and counts that as a fault.
    fn take<R: Wait + Clock + Eprint, G>(&mut self, service: &Service<'_, R, G>, arrival: Arrival)
        ensures taken { TakesOrCloses ⟦<SharedStream as Read>⟧.remaining ⟦<SharedStream as Write>⟧.contents
            service.now.most_lines self.old.now (record { number = arrival.number; peer = arrival.peer })
            self.old.clients self.new.clients self.old.counts self.new.counts }
        ensures counted { (self.new.counter ≡ connections_counted self.old.counter ConnectionEvent.Taken)
            ⊎ (self.new.counter ≡ lost_counted self.old.counter) }
    {
        let Arrival {
            stream,
            number,
            peer,
        } = arrival;
        self.counter.count(ConnectionEvent::Taken);
        let state = ConnectionState { number, peer };
        if !self.watch(service.alloc, stream, state, service.most_lines) {
            service.admission.leave(service.rt, peer.address());
            let cause = "no worker could take it: memory ran out";
            self.count_fault(service, state, cause);
        }
    }

    /// Watches a connection from here on. Says whether that succeeded; if not, it is closed.
    fn watch(
        &mut self,
        alloc: Global,
        stream: Stream,
        state: ConnectionState,
        most_lines: u64,
    ) -> bool
        ensures taken { IsTrue result → (key : ℕ) × IsTaken ⟦<SharedStream as Read>⟧.remaining ⟦<SharedStream as Write>⟧.contents most_lines self.old.now state self.old.clients self.new.clients key }
        ensures closed { result ≡ false → KeepsAll self.old.clients self.new.clients }
        ensures counts { self.new.counts ≡ self.old.counts }
        ensures counter { self.new.counter ≡ self.old.counter }
    {
        let fd = stream.raw_fd();
        let Some(key) = self.hold(alloc, stream, state, most_lines) else {
            return false;
        };
        // Each is queued once at most, so there is room for all.
        if self.queue.make_room(key, self.clients.len()).is_err()
            || self.spent.make_room(key).is_err()
            || !self.is_polled(fd, key)
        {
            let _closed = self.clients.remove(key);
            return false;
        }
        self.queue.push(key);
        true
    }

    /// Holds a connection. Gives its key, or nothing if it could not be held and is closed.
    fn hold(
        &mut self,
        alloc: Global,
        stream: Stream,
        state: ConnectionState,
        most_lines: u64,
    ) -> Option<usize>
        ensures held { MatchOption result (KeepsAll self.old.clients self.new.clients)
            (λ key. IsTaken ⟦<SharedStream as Read>⟧.remaining ⟦<SharedStream as Write>⟧.contents most_lines self.old.now state self.old.clients self.new.clients key) }
        ensures counts { self.new.counts ≡ self.old.counts }
        ensures counter { self.new.counter ≡ self.old.counter }
    {
        if stream.set_nonblocking(true).is_err() {
            return None;
        }
        let (input, output) = SharedStream::pair(alloc, stream).ok()?;
        let client = Client::new(alloc, input, output, most_lines);
        self.clients.insert(client, self.now, state).ok()
    }

    /// Asks for the events of a connection under its key. Says whether they will come.
    fn is_polled(&self, fd: RawFd, key: usize) -> bool {
        let interest = Interest::READABLE | Interest::WRITABLE;
        let registry = self.arrivals.poll.registry();
        registry
            .register(&mut SourceFd(&fd), Token(key), interest)
            .is_ok()
    }

    /// Serves a burst of each queued connection.
    fn serve_queued<R: Wait + Clock + Eprint, P: SharedReplier, M: Moments, G: Gate>(
        &mut self,
        service: &Service<'_, R, G>,
        replier: &mut P,
        moments: &mut M,
    )
        ensures seen { HasSeenMore (P.reader replier.old) (P.reader replier.new) }
    {
        for _burst in 0..self.queue.len() {
            self.serve_next(service, replier, moments);
        }
    }

    /// Serves a burst of the connection that is next in the queue.
    fn serve_next<R: Wait + Clock + Eprint, P: SharedReplier, M: Moments, G: Gate>(
        &mut self,
        service: &Service<'_, R, G>,
        replier: &mut P,
        moments: &mut M,
    )
        ensures seen { HasSeenMore (P.reader replier.old) (P.reader replier.new) }
    {
        if let Some(key) = self.queue.pop() {
            self.tell_turn(key, replier);
            self.serve(service, key, replier, moments);
        }
    }

    /// Tells the replier whose lines come next.
    fn tell_turn<P: SharedReplier>(&self, key: usize, replier: &mut P)
        ensures same { P.reader replier.new ≡ P.reader replier.old }
    {
        if let Some(connected) = self.clients.get(key) {
            replier.turn_to(connected.state.number);
        }
    }

    /// Serves a burst of a connection, and does what its outcome asks for.
    fn serve<R: Wait + Clock + Eprint, P: SharedReplier, M: Moments, G: Gate>(
        &mut self,
        service: &Service<'_, R, G>,
        key: usize,
        replier: &mut P,
        moments: &mut M,
    )
        ensures turn { IsTurn ⟦<SharedStream as Read>⟧.remaining ⟦<SharedStream as Write>⟧.contents (G.says service.now.gate.now) service.now.name.now
            (flag_at self.old.spent.flags.items key)
            (worker (P.reader replier.old) (M.coming moments.old)) (worker (P.reader replier.new) (M.coming moments.new))
            self.old.now self.old.clients self.new.clients self.old.counts self.new.counts key }
        ensures others { KeepsOthers self.old.clients self.new.clients key }
        ensures seen { HasSeenMore (P.reader replier.old) (P.reader replier.new) }
    {
        let is_spent = self.spent.has(key);
        if let Some(served) = self.burst(service, key, is_spent, replier, moments) {
            self.follow(service, key, next_after(served, is_spent));
        }
    }

    /// Serves a burst of a connection; of one that has no line left, sends the rest of its replies. Nothing if there is
    /// none.
    fn burst<R: Wait + Clock + Eprint, P: SharedReplier, M: Moments, G: Gate>(
        &mut self,
        service: &Service<'_, R, G>,
        key: usize,
        is_spent: bool,
        replier: &mut P,
        moments: &mut M,
    ) -> Option<Result<Progress, ClientFault>>
        ensures bursts { Bursts ⟦<SharedStream as Read>⟧.remaining ⟦<SharedStream as Write>⟧.contents (G.says service.now.gate.now) service.now.name.now is_spent
            (worker (P.reader replier.old) (M.coming moments.old)) (worker (P.reader replier.new) (M.coming moments.new))
            self.old.now (connected_at self.old.clients key) (connected_at self.new.clients key) result }
        ensures others { KeepsOthers self.old.clients self.new.clients key }
        ensures counts { self.new.counts ≡ self.old.counts }
        ensures seen { HasSeenMore (P.reader replier.old) (P.reader replier.new) }
    {
        if is_spent {
            return self.clients.send_rest(key, service.alloc, self.now);
        }
        self.clients.serve(
            key,
            service.alloc,
            &mut self.chunk,
            self.now,
            replier,
            service.name,
            moments,
            service.gate,
        )
    }

    /// Does what is next for a connection.
    fn follow<R: Wait + Clock + Eprint, G>(
        &mut self,
        service: &Service<'_, R, G>,
        key: usize,
        next: Next,
    )
        ensures { Follows ⟦<SharedStream as Read>⟧.remaining ⟦<SharedStream as Write>⟧.contents next self.old.clients self.new.clients self.old.counts self.new.counts key }
    {
        match next {
            Next::Waits => {}
            Next::Goes => self.queue.push(key),
            Next::Rests => self.rest(service, key),
            Next::Ends(None) => self.end(service, key, None),
            Next::Ends(Some(fault)) => self.end(service, key, Some(fault_text(fault))),
        }
    }

    /// Notes that a connection has no line left, and queues it so that its replies are sent. It is closed if there is no
    /// room to note that.
    fn rest<R: Wait + Clock + Eprint, G>(&mut self, service: &Service<'_, R, G>, key: usize)
        ensures { Follows ⟦<SharedStream as Read>⟧.remaining ⟦<SharedStream as Write>⟧.contents Next.Rests self.old.clients self.new.clients self.old.counts self.new.counts key }
    {
        if self.spent.note(key, true) {
            self.queue.push(key);
        } else {
            self.end(service, key, Some(fault_text(ClientFault::Spent)));
        }
    }
}
