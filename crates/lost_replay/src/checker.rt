//! Checks the lines of a stream.
ghost use Rattle.std.specs.Prelude.{◌≡◌};
ghost use Rattle.lost_lines.specs.Answer.{reply_of};
ghost use Rattle.lost_replay.specs.Outcome.{IsListed};
ghost use Rattle.lost_replay.specs.Replayer.{books_of, outcome_of};
ghost use Rattle.lost_replay.specs.Checker.{Judges};

use crate::findings::Findings;
use crate::saying::say;
use crate::tally::Tally;
use crate::{Outcome, Replayer};
use lost_causes::{bad_request_cause, refusal_cause};
use lost_lines::{Answer, Answerer, MAX_LINE};
use std::alloc::{AllocError, Global};

/// Checks the lines of a stream: a replay answers each line, and the outcome decides what is reported of the line.
#[derive(Drop)]
pub(crate) struct Checker<'a> {
    pub(crate) alloc: Global,
    pub(crate) replayer: Replayer<'a>,
    pub(crate) tally: Tally,
}

impl Checker<'_> {
    /// Counts a line that the replay has answered, and gives its report. `line` is there if the line was kept whole.
    fn judge(&mut self, is_internal_error: bool, line: Option<&[u8]>) -> Answer
        requires { IsListed (outcome_of self.old.replayer) }
        ensures { Judges self.old self.new is_internal_error (reply_of result) }
    {
        let outcome = self.replayer.outcome();
        self.tally.count(outcome);
        let cause = self.cause(outcome, line);
        Answer {
            text: say(self.alloc, self.tally.lines, outcome, cause.as_bytes()),
            is_internal_error,
        }
    }

    /// The cause of an outcome, after a colon and a space. It is empty if none is found or memory is short.
    fn cause(&self, outcome: Outcome, line: Option<&[u8]>) -> String {
        let found = match outcome {
            Outcome::Answered | Outcome::Staged(_) | Outcome::Committed(_) => {
                return String::new(self.alloc);
            }
            Outcome::Refused(code) => self.refusal_cause(code, line),
            Outcome::BadRequest => self.bad_request_cause(line),
            Outcome::Unjudged => String::from_str(self.alloc, "memory ran out"),
        };
        match behind_colon(self.alloc, found) {
            Ok(cause) => cause,
            Err(_) => String::new(self.alloc),
        }
    }

    fn refusal_cause(&self, code: u8, line: Option<&[u8]>) -> Result<String, AllocError> {
        match line {
            Some(line) => refusal_cause(self.alloc, line, code, self.replayer.staged()),
            None => Ok(String::new(self.alloc)),
        }
    }

    fn bad_request_cause(&self, line: Option<&[u8]>) -> Result<String, AllocError> {
        match line {
            Some(line) => bad_request_cause(self.alloc, line),
            None => format!(in self.alloc; "the line has more than {MAX_LINE} bytes"),
        }
    }
}

/// A cause after a colon and a space. An empty cause stays empty.
fn behind_colon(alloc: Global, found: Result<String, AllocError>) -> Result<String, AllocError> {
    let words = found?;
    if words.is_empty() {
        return Ok(words);
    }
    format!(in alloc; ": {words}")
}

impl Checker<'_> {
    /// The counts of the lines so far.
    pub(crate) fn findings(&self) -> Findings
        ensures refused { result.refused ≡ self.now.tally.refused }
        ensures bad_requests { result.bad_requests ≡ self.now.tally.bad_requests }
        ensures unjudged { result.unjudged ≡ self.now.tally.unjudged }
        ensures edition { result.edition ≡ (books_of self.now.replayer).published.edits }
    {
        Findings {
            refused: self.tally.refused,
            bad_requests: self.tally.bad_requests,
            unjudged: self.tally.unjudged,
            edition: self.replayer.edition(),
        }
    }
}

impl Answerer for Checker<'_> {
    ghost use Rattle.lost_replay.specs.Checker.{Checks};

    ghost step = { Checks };

    fn answer(&mut self, alloc: Global, line: &[u8]) -> Answer {
        let answer = self.replayer.answer(alloc, line);
        self.judge(answer.is_internal_error, Some(line))
    }

    fn answer_long(&mut self) -> Answer {
        let answer = self.replayer.answer_long();
        self.judge(answer.is_internal_error, None)
    }

    fn answer_unread(&mut self) -> Answer {
        let answer = self.replayer.answer_unread();
        self.judge(answer.is_internal_error, None)
    }
}
