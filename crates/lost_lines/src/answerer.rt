//! The trait that answers lines, and its replies.
ghost use Rattle.std.specs.Prelude.{◌≡◌};
ghost use Rattle.lost_lines.specs.Run.{Cut, Whole, TooLong, Unread, Reply};
ghost use Rattle.lost_lines.specs.Answer.{bytes_of, reply_of};

use lost_spec::DeskText;
use std::alloc::Global;

/// Answers lines, one after another, and may change with each.
pub trait Answerer {
    /// How it answers: its state before, the line as it was cut, the reply, and its state after.
    ghost step: { Self → Cut → Reply → Self → Type 0 };

    /// Answers a whole line, given without its byte 10.
    fn answer(&mut self, alloc: Global, line: &[u8]) -> Answer
        ensures { step self.old (Whole line.now) (reply_of result) self.new };

    /// Answers a line over the limit of 1,048,576 bytes.
    fn answer_long(&mut self) -> Answer
        ensures { step self.old TooLong (reply_of result) self.new };

    /// Answers a line for which memory was refused while it was read.
    fn answer_unread(&mut self) -> Answer
        ensures { step self.old Unread (reply_of result) self.new };
}

/// The reply to a line: its text, with byte 10 at its end, and whether it says that memory was refused.
#[derive(Drop)]
pub struct Answer {
    /// The text that is written.
    pub text: Text,
    /// Whether the line was answered `internalError`, since memory was refused.
    pub is_internal_error: bool,
}

impl Answer {
    /// The bytes that are written.
    pub fn bytes(&self) -> &[u8]
        ensures { result.now ≡ (reply_of self.now).text }
    {
        self.text.bytes()
    }
}

/// The text of a reply.
#[derive(Drop)]
pub enum Text {
    /// A text of its own.
    Kept(Vec<u8>),
    /// A text of at most 64 bytes, which takes no memory.
    Short(DeskText),
    /// A constant text of the program.
    Constant(&'static [u8]),
}

impl Text {
    /// Its bytes.
    pub fn bytes(&self) -> &[u8]
        ensures { result.now ≡ bytes_of self.now }
    {
        match self {
            Text::Kept(bytes) => bytes.as_slice(),
            Text::Short(bytes) => bytes.bytes(),
            Text::Constant(bytes) => bytes,
        }
    }
}
