//! The turn of a desk.
use crate::desk_queue::DeskQueue;
use crate::turn_end::{TurnEnd, TurnState};
use lost_sockets::Stream;
use std::io::ErrorKind;
use std::sync::Wait;
use std::time::{Clock, Duration};

/// How long a desk may go without a whole line, if other desks come after it, in seconds: from its start and, once
/// another desk waits, from its last line.
const LENGTH: u64 = 10;

/// How long a read or a write waits before the turn is checked, in milliseconds.
const LOOK: u64 = 250;

/// The turn of a desk.
#[derive(Drop)]
pub(crate) struct DeskTurn<'t, 'l, R> {
    pub(crate) rt: &'t R,
    /// Where the next desks come from; `None` if this is the only one.
    pub(crate) queue: Option<&'t DeskQueue<'l>>,
    pub(crate) stream: &'t Stream,
    /// How long a read or a write may wait; `None` for ever.
    pub(crate) idle: Option<Duration>,
}

impl<R: Wait + Clock> DeskTurn<'_, '_, R> {
    /// Limits each wait of a read or a write, so that the turn is checked in between. Says whether that could be set.
    pub(crate) fn begin(&self) -> bool {
        self.stream.limit_waiting(Some(Duration::from_millis(LOOK)))
    }

    /// The time of the monotonic clock; `before` if it cannot be read.
    pub(crate) fn now(&self, before: Duration) -> Duration {
        self.rt.monotonic().unwrap_or(before)
    }

    /// How long it may go without a whole line; `None` if no desk comes after it.
    pub(crate) fn length(&self) -> Option<Duration> {
        match self.queue {
            Some(_) => Some(Duration::from_secs(LENGTH)),
            None => None,
        }
    }

    /// Why it is over in this state, if it is.
    pub(crate) fn end_in(&self, state: TurnState) -> Option<TurnEnd> {
        match state {
            TurnState::GoesOn => None,
            TurnState::IsOver(end) => Some(end),
            TurnState::IsOverIfWaited(end) => {
                if self.is_waited_for() {
                    Some(end)
                } else {
                    None
                }
            }
        }
    }

    /// Whether another desk waits.
    fn is_waited_for(&self) -> bool {
        match self.queue {
            Some(queue) => queue.has_waiting(self.rt),
            None => false,
        }
    }
}

/// Whether an error says that a read or a write waited too long.
pub(crate) fn is_of_waiting(kind: ErrorKind) -> bool {
    matches!(kind, ErrorKind::WouldBlock | ErrorKind::TimedOut)
}
