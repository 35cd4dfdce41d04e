//! How a stream of lines is served.
use lost_worker::Turns;
use std::io;
use test_parts::{Feed, NEVER, Sink};

/// How a stream of lines is served: the pieces of its input and output, which call fails, how long it is served at
/// most, and what its gate does.
#[derive(Clone, Copy, Drop)]
pub(crate) struct Plan {
    pub(crate) most_read: usize,
    pub(crate) most_written: usize,
    failing_read: u64,
    kind: io::ErrorKind,
    failing_write: u64,
    takes_none: bool,
    failing_flush: u64,
    pub(crate) turns: Turns,
    pub(crate) refused: Option<u64>,
    pub(crate) is_endless: bool,
}

impl Plan {
    /// A stream that comes and goes whole, with no fault and no gate.
    pub(crate) fn new() -> Plan {
        Plan {
            most_read: usize::MAX,
            most_written: usize::MAX,
            failing_read: NEVER,
            kind: io::ErrorKind::ConnectionReset,
            failing_write: NEVER,
            takes_none: false,
            failing_flush: NEVER,
            turns: Turns::USUAL,
            refused: None,
            is_endless: false,
        }
    }

    /// The plan of a command's words, or `None` where one of them is unknown.
    pub(crate) fn of(words: &str) -> Option<Plan> {
        let mut plan = Plan::new();
        for word in words.split(' ') {
            let (name, number) = word.split_once('=').unwrap_or((word, ""));
            if !plan.sets(name, number.parse::<u64>().unwrap_or(NEVER)) {
                return None;
            }
        }
        Some(plan)
    }

    /// Takes a word; false where it is unknown.
    fn sets(&mut self, name: &str, number: u64) -> bool {
        match name {
            "whole" => {}
            "reading" => self.most_read = number as usize,
            "pieces" => {
                self.most_read = number as usize;
                self.most_written = number as usize;
            }
            "lines" => self.turns.lines = number,
            "reads" => self.turns.reads = number,
            "gate" => self.refused = Some(NEVER),
            "refuse" => self.refused = Some(number),
            "spaces" => self.is_endless = true,
            _ => return self.fails(name, number),
        }
        true
    }

    /// Takes a word that says which call fails; false for any other word.
    fn fails(&mut self, name: &str, number: u64) -> bool {
        match name {
            "read-fails" => self.failing_read = number,
            "read-interrupted" => {
                self.failing_read = number;
                self.kind = io::ErrorKind::Interrupted;
            }
            "write-fails" => self.failing_write = number,
            "write-takes-none" => {
                self.failing_write = number;
                self.takes_none = true;
            }
            "flush-fails" => self.failing_flush = number,
            _ => return false,
        }
        true
    }

    /// A reader of the stream's bytes.
    pub(crate) fn feed(self, bytes: &[u8]) -> Feed<'_> {
        let mut feed = Feed::of(bytes, self.most_read);
        feed.failing = self.failing_read;
        feed.kind = self.kind;
        feed
    }

    /// Sets how a writer takes bytes and fails.
    pub(crate) fn spoil(self, sink: &mut Sink) {
        sink.most = self.most_written;
        sink.failing_write = self.failing_write;
        sink.takes_none = self.takes_none;
        sink.failing_flush = self.failing_flush;
    }
}
