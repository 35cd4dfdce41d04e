//! Lines of a worker that wait to be written.
ghost use Rattle.std.specs.Prelude.{◌≡◌, ◌++◌, ◌∷◌, [], length, take, OnOk, OnErr};
ghost use Rattle.lost_answer_log.specs.Answered.{IsAnswer, noted};

use lost_mapping::Moment;
use std::alloc::{AllocError, Global};

/// A request line that was answered, but for its bytes.
#[derive(Clone, Copy, PartialEq, Eq, Debug)]
pub struct Noted {
    /// The moment that the answer used.
    pub moment: Moment,
    /// How many edits the list has that it was answered from.
    pub edition: u64,
    /// The number of its connection.
    pub connection: u64,
    /// How many bytes the line has, without its byte 10.
    pub request: usize,
    /// How many bytes the line of its reply has, with its byte 10.
    pub reply: usize,
}

/// Lines that were left out: how many, and the moments of the first and the last of them.
#[derive(Clone, Copy, PartialEq, Eq, Debug)]
pub struct LeftOut {
    pub lines: u64,
    pub from: Moment,
    pub to: Moment,
}

impl LeftOut {
    /// These, and then one more at a moment.
    pub(crate) fn and(left_out: Option<LeftOut>, moment: Moment) -> LeftOut {
        match left_out {
            Some(before) => LeftOut {
                lines: before.lines.saturating_add(1),
                from: before.from,
                to: moment,
            },
            None => LeftOut {
                lines: 1,
                from: moment,
                to: moment,
            },
        }
    }

    /// Those before, if there were any, and then these.
    pub(crate) fn behind(self, before: Option<LeftOut>) -> LeftOut {
        match before {
            Some(before) => LeftOut {
                lines: before.lines.saturating_add(self.lines),
                from: before.from,
                to: self.to,
            },
            None => self,
        }
    }
}

/// Lines that are handed over together, and those that were left out before them.
#[derive(Drop)]
pub struct Batch {
    pub left_out: Option<LeftOut>,
    pub lines: Vec<Noted>,
    /// The bytes of each line and of its reply, one behind the other.
    pub bytes: Vec<u8>,
}

impl Batch {
    /// No lines.
    pub(crate) fn new(alloc: Global) -> Batch
        ensures { (result.lines.items ≡ []) × (result.bytes.items ≡ []) }
    {
        Batch {
            left_out: None,
            lines: Vec::new(alloc),
            bytes: Vec::new(alloc),
        }
    }

    /// Makes room for as much as another batch had, where memory is not refused.
    pub(crate) fn make_room(&mut self, lines: usize, bytes: usize)
        ensures { (self.new.lines.items ≡ self.old.lines.items) × (self.new.bytes.items ≡ self.old.bytes.items) }
    {
        let _lines = self.lines.reserve(lines);
        let _bytes = self.bytes.reserve(bytes);
    }

    /// Whether there is nothing to write.
    pub(crate) fn is_empty(&self) -> bool {
        self.lines.is_empty() && self.left_out.is_none()
    }

    /// Adds an answer to a line.
    ///
    /// # Errors
    ///
    /// If memory is refused, nothing changes.
    pub(crate) fn add(
        &mut self,
        moment: &Moment,
        edition: u64,
        connection: u64,
        request: &[u8],
        reply: &[u8],
    ) -> Result<(), AllocError>
        requires answer { IsAnswer moment.now edition request.now reply.now }
        ensures lines { OnOk result (self.new.lines.items
            ≡ self.old.lines.items ++ noted moment.now edition connection request.now reply.now ∷ []) }
        ensures bytes { OnOk result (self.new.bytes.items ≡ self.old.bytes.items ++ (request.now ++ reply.now)) }
        ensures none { OnErr result ((self.new.lines.items ≡ self.old.lines.items) × (self.new.bytes.items ≡ self.old.bytes.items)) }
    {
        let before = self.bytes.len();
        let line = Noted {
            moment: *moment,
            edition,
            connection,
            request: request.len(),
            reply: reply.len(),
        };
        if self.add_bytes(request, reply).is_err() || self.lines.push(line).is_err() {
            self.bytes.truncate(before);
            return Err(AllocError);
        }
        Ok(())
    }

    /// Adds the bytes of a line and of its reply. If memory is refused, a front of them may have been added.
    fn add_bytes(&mut self, request: &[u8], reply: &[u8]) -> Result<(), AllocError>
        ensures bytes { OnOk result (self.new.bytes.items ≡ self.old.bytes.items ++ (request.now ++ reply.now)) }
        ensures front { take (length self.old.bytes.items) self.new.bytes.items ≡ self.old.bytes.items }
        ensures lines { self.new.lines.items ≡ self.old.lines.items }
        ensures left_out { self.new.left_out ≡ self.old.left_out }
    {
        self.bytes.extend_from_slice(request)?;
        self.bytes.extend_from_slice(reply)
    }
}
