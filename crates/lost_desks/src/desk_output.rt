//! The replies to a desk during its turn.
use crate::desk_turn::{DeskTurn, is_of_waiting};
use crate::turn_end::{TurnEnd, output_state};
use std::io;
use std::io::{ErrorKind, Write};
use std::sync::Wait;
use std::time::{Clock, Duration};

/// The output of replies to a desk. A write fails once the turn is over.
#[derive(Drop)]
pub(crate) struct DeskOutput<'t, 'l, R> {
    turn: &'t DeskTurn<'t, 'l, R>,
    end: Option<TurnEnd>,
}

impl<'t, 'l, R: Wait + Clock> DeskOutput<'t, 'l, R> {
    /// The output of a turn that begins.
    pub(crate) fn new(turn: &'t DeskTurn<'t, 'l, R>) -> DeskOutput<'t, 'l, R> {
        DeskOutput { turn, end: None }
    }

    /// Why the turn is over, if this half found it.
    pub(crate) fn end(&self) -> Option<TurnEnd> {
        self.end
    }
}

impl<R: Wait + Clock> Write for DeskOutput<'_, '_, R> {
    fn write(&mut self, buf: &[u8]) -> io::Result<usize> {
        let since = self.turn.now(Duration::ZERO);
        for _ in self.turn.rt.forever() {
            let mut stream = self.turn.stream;
            match stream.write(buf) {
                Err(error) if is_of_waiting(error.kind()) => {}
                written => return written,
            }
            let waited = self.turn.now(since).saturating_sub(since);
            let state = output_state(self.turn.idle, self.turn.length(), waited);
            if let Some(end) = self.turn.end_in(state) {
                self.end = Some(end);
                return Err(io::Error::from(ErrorKind::TimedOut));
            }
        }
        Ok(0)
    }

    fn flush(&mut self) -> io::Result<()> {
        Ok(())
    }
}
