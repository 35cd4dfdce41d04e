//! What is counted of query connections.
ghost use Rattle.std.specs.Prelude.{◌≡◌, ◌-◌};
ghost use Rattle.lost_status.specs.Figures.{connections_counted, connections_plus, no_connections};

/// What happens to a query connection, or to the thread that serves it.
#[derive(Clone, Copy, PartialEq, Eq, Debug)]
pub enum ConnectionEvent {
    /// It was accepted. It waits for a worker until `Taken`.
    Accepted,
    /// It was closed at once, past a limit. It is not counted as accepted.
    TurnedAway,
    /// It no longer waits: a worker took it, or none will.
    Taken,
    /// It ended well. It was counted as taken before.
    Ended,
    /// It ended in a fault. It was counted as taken before.
    Failed,
    /// The thread begins to serve a connection.
    Busy,
    /// The thread serves no connection any more.
    Idle,
}

/// What a thread has counted of query connections, or what several threads have. A count that reaches 2^64 begins at 0
/// again.
#[derive(Clone, Copy, PartialEq, Eq, Debug)]
pub(crate) struct ConnectionFigures {
    /// How many were accepted.
    pub(crate) accepted: u64,
    /// How many others were closed at once, past a limit.
    pub(crate) turned_away: u64,
    /// How many of those accepted no longer wait.
    pub(crate) taken: u64,
    /// How many ended, well or in a fault.
    pub(crate) ended: u64,
    /// How many ended in a fault.
    pub(crate) faults: u64,
    /// How many threads serve a connection.
    pub(crate) busy: u64,
}

impl ConnectionFigures {
    /// Nothing is counted.
    pub(crate) fn none() -> ConnectionFigures
        ensures { result ≡ no_connections }
    {
        ConnectionFigures {
            accepted: 0,
            turned_away: 0,
            taken: 0,
            ended: 0,
            faults: 0,
            busy: 0,
        }
    }

    /// Counts an event.
    pub(crate) fn count(&mut self, event: ConnectionEvent)
        ensures { self.new ≡ connections_counted self.old event }
    {
        match event {
            ConnectionEvent::Accepted => self.accepted = self.accepted.wrapping_add(1),
            ConnectionEvent::TurnedAway => self.turned_away = self.turned_away.wrapping_add(1),
            ConnectionEvent::Taken => self.taken = self.taken.wrapping_add(1),
            ConnectionEvent::Ended => self.ended = self.ended.wrapping_add(1),
            ConnectionEvent::Failed => {
                self.ended = self.ended.wrapping_add(1);
                self.faults = self.faults.wrapping_add(1);
            }
            ConnectionEvent::Busy => self.busy = 1,
            ConnectionEvent::Idle => self.busy = 0,
        }
    }

    /// What both have counted.
    pub(crate) fn plus(self, more: ConnectionFigures) -> ConnectionFigures
        ensures { result ≡ connections_plus self more }
    {
        ConnectionFigures {
            accepted: self.accepted.wrapping_add(more.accepted),
            turned_away: self.turned_away.wrapping_add(more.turned_away),
            taken: self.taken.wrapping_add(more.taken),
            ended: self.ended.wrapping_add(more.ended),
            faults: self.faults.wrapping_add(more.faults),
            busy: self.busy.wrapping_add(more.busy),
        }
    }

    /// How many have not ended, those that wait included.
    pub(crate) fn open(&self) -> u64
        ensures { result ≡ self.now.accepted - self.now.ended }
    {
        self.accepted.saturating_sub(self.ended)
    }

    /// How many wait for a worker.
    pub(crate) fn waiting(&self) -> u64
        ensures { result ≡ self.now.accepted - self.now.taken }
    {
        self.accepted.saturating_sub(self.taken)
    }
}
