//! Answers the lines of a replay.
ghost use Rattle.std.specs.Prelude.{◌≡◌, IfOk};
ghost use Rattle.lost_lines.specs.Answer.{reply_of};
ghost use Rattle.lost_lines.specs.Run.{Whole};
ghost use Rattle.lost_replay.specs.Books.{BooksStep};
ghost use Rattle.lost_replay.specs.Outcome.{IsListed, IsOutcomeOf};
ghost use Rattle.lost_replay.specs.Replay.{replay_terms};
ghost use Rattle.lost_replay.specs.Replayer.{Begins, books_of, outcome_of};

use crate::books::{Books, Judged};
use crate::outcome::Outcome;
use lost_lines::{Answer, Answerer};
use lost_mapping::{Moment, Source};
use lost_routing::Routing;
use lost_tape::{Scratch, read_line};
use std::alloc::{AllocError, Global};

/// Answers the lines of a replay. The name of the server and the moment stay, the books change with each line. The
/// scratch is the reader's working memory, and holds nothing of the lines.
#[derive(Drop)]
pub struct Replayer<'a> {
    name: &'a Source,
    moment: Moment,
    books: Books,
    scratch: Box<Scratch>,
    /// The outcome of the last line.
    outcome: Outcome,
}

impl<'a> Replayer<'a> {
    /// A replay before its first line, by the server of this name at one moment. It holds no mappings.
    pub fn new(alloc: Global, name: &'a Source, moment: &Moment) -> Result<Replayer<'a>, AllocError>
        ensures { IfOk result (λ replayer. Begins name.now moment.now replayer) }
    {
        Ok(Replayer {
            name,
            moment: *moment,
            books: Books::new(alloc)?,
            scratch: Box::new(alloc, Scratch::new(alloc))?,
            outcome: Outcome::Unjudged,
        })
    }

    /// The outcome of the last line. It means nothing before the first.
    pub fn outcome(&self) -> Outcome
        ensures { result ≡ outcome_of self.now }
    {
        self.outcome
    }

    /// The number of published edits.
    pub fn edition(&self) -> u64
        ensures { result ≡ (books_of self.now).published.edits }
    {
        self.books.published().edition()
    }

    /// The book with the staged edits too: it decides which edits are refused.
    pub fn staged(&self) -> &Routing
        ensures { result.now ≡ (books_of self.now).staged }
    {
        self.books.staged()
    }
}

impl Replayer<'_> {
    /// Answers a line that was kept whole, and gives the outcome.
    fn judge(&mut self, alloc: Global, line: &[u8]) -> Judged
        ensures name { self.new.name.now ≡ self.old.name.now }
        ensures moment { self.new.moment ≡ self.old.moment }
        ensures step { BooksStep (replay_terms self.old.name.now self.old.moment) self.old.books (Whole line.now) (reply_of result.answer) self.new.books }
        ensures outcome { IsOutcomeOf result.outcome line.now (reply_of result.answer).text }
        ensures listed { IsListed result.outcome }
    {
        let read = read_line(alloc, line, &mut self.scratch);
        self.books.judge(alloc, self.name, &self.moment, read)
    }

    /// Keeps the outcome of a line.
    fn keep(&mut self, outcome: Outcome)
        ensures outcome { outcome_of self.new ≡ outcome }
        ensures name { self.new.name.now ≡ self.old.name.now }
        ensures moment { self.new.moment ≡ self.old.moment }
        ensures books { self.new.books ≡ self.old.books }
    {
        self.outcome = outcome;
    }
}

impl Answerer for Replayer<'_> {
    ghost use Rattle.lost_replay.specs.Replayer.{Replays};

    ghost step = { Replays };

    fn answer(&mut self, alloc: Global, line: &[u8]) -> Answer {
        let judged = self.judge(alloc, line);
        self.keep(judged.outcome);
        judged.answer
    }

    fn answer_long(&mut self) -> Answer {
        let judged = Judged::bad_request();
        self.keep(judged.outcome);
        judged.answer
    }

    fn answer_unread(&mut self) -> Answer {
        let judged = Judged::unjudged();
        self.keep(judged.outcome);
        judged.answer
    }
}
