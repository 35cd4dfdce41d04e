//! One thread's counts of query connections.
ghost use Rattle.std.specs.Prelude.{◌≡◌};
ghost use Rattle.lost_status.specs.Figures.{connections_counted, no_connections};

use crate::connection_event::{ConnectionEvent, ConnectionFigures};
use std::marker::Model;
use std::sync::atomic::{AtomicU64, Ordering};

/// Counts of query connections where any thread may read them. One thread writes them.
#[derive(Drop)]
pub(crate) struct ConnectionBlock {
    accepted: AtomicU64,
    turned_away: AtomicU64,
    taken: AtomicU64,
    ended: AtomicU64,
    faults: AtomicU64,
    busy: AtomicU64,
}

impl ConnectionBlock {
    /// Nothing is counted.
    pub(crate) fn new() -> ConnectionBlock {
        ConnectionBlock {
            accepted: AtomicU64::new(0),
            turned_away: AtomicU64::new(0),
            taken: AtomicU64::new(0),
            ended: AtomicU64::new(0),
            faults: AtomicU64::new(0),
            busy: AtomicU64::new(0),
        }
    }

    /// Stores the numbers that an event changes. No contract can say what an atomic holds: the rows of
    /// `status.rows` compare what is shown.
    fn show(&self, event: ConnectionEvent, figures: &ConnectionFigures) {
        match event {
            ConnectionEvent::Accepted => self.accepted.store(figures.accepted, Ordering::SeqCst),
            ConnectionEvent::TurnedAway => {
                self.turned_away
                    .store(figures.turned_away, Ordering::SeqCst);
            }
            ConnectionEvent::Taken => self.taken.store(figures.taken, Ordering::SeqCst),
            ConnectionEvent::Ended => self.ended.store(figures.ended, Ordering::SeqCst),
            ConnectionEvent::Failed => {
                self.ended.store(figures.ended, Ordering::SeqCst);
                self.faults.store(figures.faults, Ordering::SeqCst);
            }
            ConnectionEvent::Busy | ConnectionEvent::Idle => {
                self.busy.store(figures.busy, Ordering::SeqCst);
            }
        }
    }

    /// Loads the numbers. The later steps in a connection's life are loaded first, so that each connection they count
    /// is among those accepted. No contract can say what an atomic holds: the rows of `status.rows` compare it.
    pub(crate) fn load(&self) -> ConnectionFigures {
        let faults = self.faults.load(Ordering::SeqCst);
        let ended = self.ended.load(Ordering::SeqCst);
        let taken = self.taken.load(Ordering::SeqCst);
        ConnectionFigures {
            accepted: self.accepted.load(Ordering::SeqCst),
            turned_away: self.turned_away.load(Ordering::SeqCst),
            taken,
            ended,
            faults,
            busy: self.busy.load(Ordering::SeqCst),
        }
    }
}

/// What one thread counts of query connections. Contracts see its figures. After each event it shows them to whoever
/// asks for the status.
#[derive(Drop)]
pub struct ConnectionCounter<'s> {
    figures: ConnectionFigures,
    block: &'s ConnectionBlock,
}

impl<'s> Model for ConnectionCounter<'s> {
    ghost use Rattle.lost_status.specs.declared.connection_event.ConnectionFigures.{ConnectionFigures};

    ghost Value = { ConnectionFigures };

    ghost view = { λ c. c.figures };
}

impl<'s> ConnectionCounter<'s> {
    /// Nothing is counted. It is the only one that writes the block.
    pub(crate) fn new(block: &'s ConnectionBlock) -> ConnectionCounter<'s>
        ensures { result ≡ no_connections }
    {
        ConnectionCounter {
            figures: ConnectionFigures::none(),
            block,
        }
    }

    /// Counts an event, once, and shows it.
    pub fn count(&mut self, event: ConnectionEvent)
        ensures { self.new ≡ connections_counted self.old event }
    {
        self.figures.count(event);
        self.block.show(event, &self.figures);
    }
}
