//! Answers a request line.
ghost use Rattle.std.specs.Prelude.{◌≡◌, ◌+◌, length, IsTrue, IfOk, OnOk};
ghost use Rattle.lost_spec.specs.Book.{is_accepted};
ghost use Rattle.lost_spec.specs.Laws.{BeginsWith};
ghost use Rattle.lost_desk.specs.Seen.{ReaderSeen, seen_book};
ghost use Rattle.lost_json.specs.Line.{line_reply};

use lost_desk::Reader;
use lost_mapping::{Moment, Source};
use std::alloc::{AllocError, Global};

/// The line of a reply, or that memory was refused for it.
pub type Replied = Result<Vec<u8>, AllocError>;

/// Answers request lines, one after another, from lists of edits that each begin with the one before.
pub trait Replier {
    /// What contracts see: the reader's value.
    ghost reader: { Self → ReaderSeen };

    /// Answers a line: reads the request, answers it as the server of this name at an instant from the list that it has
    /// then seen, and writes the reply's line. If memory is refused, it may have entered once and seen a longer list.
    fn reply_line(&mut self, alloc: Global, name: &Source, time: &Moment, line: &[u8]) -> Replied
        ensures reply { IfOk result (λ reply.
            reply.items ≡ line_reply (seen_book (reader self.new)) name.now time.now line.now) }
        ensures begins { BeginsWith (reader self.new).seen (reader self.old).seen }
        ensures entered { OnOk result ((reader self.new).entries ≡ (reader self.old).entries + 1) }
        ensures entered_list { OnOk result ((reader self.new).seen ≡ (reader self.new).entered) }
        ensures one_list { OnOk result (IsTrue (is_accepted (reader self.new).limits (reader self.new).seen)) }
        ensures same { ((reader self.new).opening ≡ (reader self.old).opening)
            × ((reader self.new).limits ≡ (reader self.old).limits) };

    /// The number of edits of the list that it has seen or was told: after a reply, that of the list that it was
    /// answered from.
    fn edition(&self) -> u64
        ensures { result ≡ length (reader self.now).seen };
}

impl Replier for Reader {
    ghost reader = { λ r. r };

    fn reply_line(&mut self, alloc: Global, name: &Source, time: &Moment, line: &[u8]) -> Replied {
        Reader::reply_line(self, alloc, name, time, line)
    }

    fn edition(&self) -> u64 {
        Reader::edition(self)
    }
}
