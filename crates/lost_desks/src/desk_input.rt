//! The lines of a desk during its turn.
ghost use Rattle.std.specs.Prelude.{◌≡◌};
ghost use Rattle.lost_desks.specs.LineWait.{wait_after_bytes, wait_before_read};

use crate::desk_turn::{DeskTurn, is_of_waiting};
use crate::line_wait::LineWait;
use crate::protocol::{MOST_LOOKED_AT, other_protocol};
use crate::turn_end::{TurnEnd, input_state};
use std::alloc::Global;
use std::io::{ErrorKind, Read};
use std::sync::Wait;
use std::time::{Clock, Duration};
use std::{io, mem};

/// The input of a desk's lines. A read fails once the turn is over, or if the bytes show that this is no desk.
#[derive(Drop)]
pub(crate) struct DeskInput<'t, 'l, R> {
    turn: &'t DeskTurn<'t, 'l, R>,
    /// The first bytes that came, until they are enough to look at.
    front: Vec<u8>,
    /// Whether they are those of a request of HTTP, so that bytes are not looked at any more.
    is_http: bool,
    /// Since when it has sent no whole line.
    wait: LineWait,
    /// Why the turn is over.
    end: Option<TurnEnd>,
}

impl<'t, 'l, R: Wait + Clock> DeskInput<'t, 'l, R> {
    /// The input of a turn that begins.
    pub(crate) fn new(alloc: Global, turn: &'t DeskTurn<'t, 'l, R>) -> DeskInput<'t, 'l, R> {
        DeskInput {
            turn,
            front: Vec::new(alloc),
            is_http: false,
            wait: LineWait::new(turn.now(Duration::ZERO)),
            end: None,
        }
    }

    /// Goes on with the same turn for a request of HTTP. Gives what has come of that.
    pub(crate) fn take_request(&mut self) -> Vec<u8> {
        let nothing = Vec::new(*self.front.allocator());
        self.end = None;
        mem::replace(&mut self.front, nothing)
    }

    /// Why the turn is over, if this half found it.
    pub(crate) fn end(&self) -> Option<TurnEnd> {
        self.end
    }

    /// Why the turn is over, if it is and nothing came since `heard`.
    fn end_after(&self, heard: Duration) -> Option<TurnEnd> {
        let now = self.turn.now(heard);
        self.turn.end_in(input_state(
            self.turn.idle,
            self.turn.length(),
            now.saturating_sub(heard),
            now.saturating_sub(self.wait.since),
            self.wait.has_line,
        ))
    }

    /// Begins a read, and gives its moment.
    fn begin_read(&mut self) -> Duration
        ensures { self.new.wait ≡ wait_before_read self.old.wait result }
    {
        let now = self.turn.now(self.wait.since);
        self.wait = self.wait.before_read(now);
        now
    }

    /// Looks at bytes that came. Gives why the turn is over if they are not a desk's. Those of a request of HTTP are no lines.
    fn look_at(&mut self, bytes: &[u8]) -> Option<TurnEnd>
        ensures { self.new.wait ≡ wait_after_bytes self.new.is_http self.old.wait bytes.now }
    {
        if self.is_http {
            return None;
        }
        let end = self.other_protocol_in(bytes);
        if end == Some(TurnEnd::SpeaksHttp) {
            self.is_http = true;
        } else {
            self.wait = self.wait.after_read(bytes);
        }
        end
    }

    /// Which other protocol than that of desks the first bytes are of, once these have come.
    fn other_protocol_in(&mut self, bytes: &[u8]) -> Option<TurnEnd>
        ensures { (self.new.wait ≡ self.old.wait) × (self.new.is_http ≡ self.old.is_http) }
    {
        if self.front.len() >= MOST_LOOKED_AT || self.front.extend_from_slice(bytes).is_err() {
            return None;
        }
        other_protocol(self.front.as_slice())
    }

    /// Ends the turn.
    fn fail(&mut self, end: TurnEnd) -> io::Error {
        self.end = Some(end);
        io::Error::from(ErrorKind::TimedOut)
    }
}

impl<R: Wait + Clock> Read for DeskInput<'_, '_, R> {
    fn read(&mut self, buf: &mut [u8]) -> io::Result<usize> {
        let heard = self.begin_read();
        for _ in self.turn.rt.forever() {
            if let Some(end) = self.end_after(heard) {
                return Err(self.fail(end));
            }
            let mut stream = self.turn.stream;
            match stream.read(buf) {
                Ok(count) => {
                    return match self.look_at(&buf[..count]) {
                        Some(end) => Err(self.fail(end)),
                        None => Ok(count),
                    };
                }
                Err(error) if is_of_waiting(error.kind()) => {}
                Err(error) => return Err(error),
            }
        }
        Ok(0)
    }
}
