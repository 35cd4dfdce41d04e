//! The line that is being read.
ghost use Rattle.std.specs.Prelude.{◌≡◌, ◌≢◌, ◌≤◌, ◌==◌, ◌++◌, false, List, ℕ, [], All, length};
ghost use Rattle.lost_lines.specs.Cutting.{is_long, line_limit};
ghost use Rattle.lost_lines.specs.Run.{Answers, AnswersRead};
ghost use Rattle.lost_lines.specs.Answer.{reply_of};

use crate::answerer::{Answer, Answerer};
use std::alloc::Global;

/// The most bytes of a line, its byte 10 not counted.
pub const MAX_LINE: usize = 1_048_576;

/// The line being read: its bytes while they are within the limit and memory was not refused, and their number, which
/// stops at one more than the limit. Never more bytes than the limit are kept.
#[derive(Drop)]
pub(crate) struct Cutter {
    line: Vec<u8>,
    count: usize,
    is_refused: bool,
    ghost within: { length line.items ≤ line_limit },
    ghost counted: { length line.items ≤ count },
}

impl Cutter {
    ghost use Rattle.lost_lines.specs.Cutter.{IsHolding, count_of, kept_count, was_refused};

    pub(crate) fn new(alloc: Global) -> Cutter
        ensures holding { IsHolding result [] }
        ensures unrefused { was_refused result ≡ false }
    {
        Cutter {
            line: Vec::new(alloc),
            count: 0,
            is_refused: false,
        }
    }

    /// Whether no byte of the line was read yet.
    pub(crate) fn is_empty(&self) -> bool
        ensures { result ≡ (count_of self.now == 0) }
    {
        self.count == 0
    }

    /// Whether the line is over the limit.
    pub(crate) fn is_long(&self) -> bool
        ensures { (piece : List ℕ) → IsHolding self.now piece → result ≡ is_long piece }
    {
        self.count > MAX_LINE
    }

    /// Takes further bytes of the line, and keeps them while the line is within the limit.
    pub(crate) fn take(&mut self, run: &[u8])
        requires { All (λ b. b ≢ 10) run.now }
        ensures holding { (piece : List ℕ) → IsHolding self.old piece → IsHolding self.new (piece ++ run.now) }
        ensures within { kept_count self.new ≤ line_limit }
    {
        let count = self.count.saturating_add(run.len());
        if count > MAX_LINE {
            self.count = MAX_LINE + 1;
            return;
        }
        self.count = count;
        if !self.is_refused && self.line.extend_from_slice(run).is_err() {
            self.is_refused = true;
        }
    }

    /// Goes on to the next line: forgets the bytes of the one before, and whether memory was refused for it.
    pub(crate) fn clear(&mut self)
        ensures holding { IsHolding self.new [] }
        ensures unrefused { was_refused self.new ≡ false }
    {
        self.line.clear();
        self.count = 0;
        self.is_refused = false;
    }

    /// The answer to the line: `answer_unread` only where memory was refused while it was read.
    pub(crate) fn answer<A: Answerer>(&self, alloc: Global, answerer: &mut A) -> Answer
        ensures answers { (piece : List ℕ) → IsHolding self.now piece
            → Answers A.step answerer.old piece (reply_of result) answerer.new }
        ensures read { (piece : List ℕ) → IsHolding self.now piece → was_refused self.now ≡ false
            → AnswersRead A.step answerer.old piece (reply_of result) answerer.new }
    {
        if self.is_refused {
            answerer.answer_unread()
        } else if self.count > MAX_LINE {
            answerer.answer_long()
        } else {
            answerer.answer(alloc, self.line.as_slice())
        }
    }
}
