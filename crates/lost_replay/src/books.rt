//! The published book, and the book with the staged edits too.
ghost use Rattle.std.specs.Prelude.{◌≡◌, ◌≢◌, ◌-◌, true, false, None, Some, Ok, Err, IfOk, IsErr, Option, Result};
ghost use Rattle.std.specs.Result.{result_err};
ghost use Rattle.lost_spec.specs.Text.{Text};
ghost use Rattle.lost_spec.specs.Moment.{Instant};
ghost use Rattle.lost_spec.specs.Book.{empty_book};
ghost use Rattle.lost_book.specs.Bounds.{widest};
ghost use Rattle.lost_mapping.specs.Edit.{edit_of};
ghost use Rattle.lost_mapping.specs.Request.{request_of};
ghost use Rattle.lost_reading.specs.Desk.{Stage, Commit, desk_line, desk_fault_code};
ghost use Rattle.lost_reading.specs.Lines.{GivesWhole};
ghost use Rattle.lost_reading.specs.Requests.{line_request};
ghost use Rattle.lost_lines.specs.Answer.{reply_of};
ghost use Rattle.lost_lines.specs.Run.{Whole};
ghost use Rattle.lost_json.specs.Stream as stream;
ghost use Rattle.lost_json.specs.Stream.{edit_text, refused_text};
ghost use Rattle.lost_writing.specs.DeskReplies.{desk_text, IsCode};
ghost use Rattle.lost_replay.specs.Books.{Books as BooksSeen, BooksStep};
ghost use Rattle.lost_replay.specs.Outcome.{IsListed, IsOutcomeOf};
ghost use Rattle.lost_replay.specs.Pair.{with_committed};
ghost use Rattle.lost_replay.specs.Replay.{replay_terms};

use crate::outcome::Outcome;
use crate::pair::Pair;
use lost_book::{Edit, EditError, Limits};
use lost_json::{
    DeskFault, DeskLine, DeskReply, bad_request, desk_answer, internal_error, reply_request,
};
use lost_lines::{Answer, Text as ReplyText};
use lost_mapping::{MappingError, Moment, Source};
use lost_query::Request;
use lost_reading::Line;
use lost_routing::Routing;
use lost_spec::Coded;
use std::alloc::{AllocError, Global};
use std::marker::Model;

/// An answer, and its outcome.
#[derive(Drop)]
pub(crate) struct Judged {
    pub(crate) answer: Answer,
    pub(crate) outcome: Outcome,
}

impl Judged {
    /// The answer `badRequest`.
    pub(crate) fn bad_request() -> Judged
        ensures answer { reply_of result.answer ≡ record { text = stream.bad_request; is_internal_error = false } }
        ensures outcome { result.outcome ≡ Outcome.BadRequest }
    {
        Judged {
            answer: bad_request(),
            outcome: Outcome::BadRequest,
        }
    }

    /// The answer `internalError`, for a refusal of memory.
    pub(crate) fn unjudged() -> Judged
        ensures answer { reply_of result.answer ≡ record { text = stream.internal_error; is_internal_error = true } }
        ensures outcome { result.outcome ≡ Outcome.Unjudged }
    {
        Judged {
            answer: internal_error(),
            outcome: Outcome::Unjudged,
        }
    }

    /// The refusal of a desk line. The code must be one of the table.
    pub(crate) fn refused(code: u8) -> Judged
        requires { IsCode code }
        ensures answer { reply_of result.answer ≡ record { text = refused_text code; is_internal_error = false } }
        ensures outcome { result.outcome ≡ Outcome.Refused code }
    {
        Judged {
            answer: desk_answer(DeskReply::Refused(code)),
            outcome: Outcome::Refused(code),
        }
    }

    /// The answer to a desk line with a fault: its code. It is `internalError` only if memory was refused.
    pub(crate) fn of_fault(fault: DeskFault) -> Judged
        ensures refused { fault ≢ DeskFault.Mapping MappingError.Memory
            → reply_of result.answer ≡ record { text = refused_text (desk_fault_code fault); is_internal_error = false } }
        ensures memory { fault ≡ DeskFault.Mapping MappingError.Memory
            → reply_of result.answer ≡ record { text = stream.internal_error; is_internal_error = true } }
        ensures answered { (name : Text) (t : Instant) (books : BooksSeen) (line : Text) → GivesWhole (Err fault) (desk_line line) (line_request line)
            → BooksStep (replay_terms name t) books (Whole line) (reply_of result.answer) books }
        ensures outcome { (line : Text) → IsOutcomeOf result.outcome line (reply_of result.answer).text }
        ensures listed { IsListed result.outcome }
    {
        if fault == DeskFault::Mapping(MappingError::Memory) {
            return Judged::unjudged();
        }
        Judged::refused(fault.code())
    }
}

/// The two books of a replay. Contracts see them as the record `Books`.
#[derive(Drop)]
pub(crate) struct Books {
    pair: Pair,
}

impl Model for Books {
    ghost use Rattle.lost_replay.specs.Books as spec;

    ghost Value = { spec.Books };

    ghost view = { λ b. b.pair };
}

impl Books {
    /// Two empty books within the widest limits.
    pub(crate) fn new(alloc: Global) -> Result<Books, AllocError>
        ensures { IfOk result (λ books.
            books ≡ record { published = empty_book widest; staged = empty_book widest }) }
    {
        Ok(Books {
            pair: Pair::new(alloc, Limits::widest())?,
        })
    }

    /// The published book.
    pub(crate) fn published(&self) -> &Routing
        ensures { result.now ≡ self.now.published }
    {
        self.pair.published()
    }

    /// The book with the staged edits too.
    pub(crate) fn staged(&self) -> &Routing
        ensures { result.now ≡ self.now.staged }
    {
        self.pair.staged()
    }

    /// Judges a line that was kept whole and read so.
    pub(crate) fn judge(
        &mut self,
        alloc: Global,
        name: &Source,
        moment: &Moment,
        read: Result<Line<'_>, DeskFault>,
    ) -> Judged
        ensures answered { (line : Text) → GivesWhole read.entry (desk_line line) (line_request line)
            → BooksStep (replay_terms name.now moment.now) self.old (Whole line) (reply_of result.answer) self.new }
        ensures outcome { (line : Text) → GivesWhole read.entry (desk_line line) (line_request line)
            → IsOutcomeOf result.outcome line (reply_of result.answer).text }
        ensures listed { IsListed result.outcome }
    {
        match read {
            Ok(Line::Request(request)) => self.request(alloc, name, moment, &request),
            Ok(Line::Desk(DeskLine::Edit(edit))) => self.stage(edit),
            Ok(Line::Desk(DeskLine::Commit)) => self.commit(),
            Ok(Line::Neither) => self.neither(),
            Err(fault) => Judged::of_fault(fault),
        }
    }

    /// Stages an edit: its refusal, or the number of edits staged and not published. A memory refusal is code 20.
    pub(crate) fn stage(&mut self, edit: Edit) -> Judged
        ensures answered { (name : Text) (t : Instant) (line : Text) → desk_line line ≡ Some (Ok (Stage (edit_of edit)))
            → BooksStep (replay_terms name t) self.old (Whole line) (reply_of result.answer) self.new }
        ensures desk_reply { (reply_of result.answer).is_internal_error ≡ false }
        ensures outcome { (line : Text) → IsOutcomeOf result.outcome line (reply_of result.answer).text }
        ensures listed { IsListed result.outcome }
    {
        let staged = self.pair.stage(edit);
        self.edit_answer(staged)
    }

    /// Answers for an edit that was staged or refused: its refusal, or the number of edits staged and not published. A
    /// memory refusal is code 20.
    pub(crate) fn edit_answer(&self, staged: Result<(), EditError>) -> Judged
        ensures told { reply_of result.answer ≡ record {
          text = edit_text (result_err staged) (self.now.staged.edits - self.now.published.edits);
          is_internal_error = false;
        } }
        ensures memory { staged ≡ Err EditError.Memory → reply_of result.answer ≡ record { text = refused_text 20; is_internal_error = false } }
        ensures outcome { (line : Text) → IsOutcomeOf result.outcome line (reply_of result.answer).text }
        ensures listed { IsListed result.outcome }
    {
        match staged {
            Ok(()) => {
                let pending = self.pair.pending();
                Judged {
                    answer: desk_answer(DeskReply::Staged(pending)),
                    outcome: Outcome::Staged(pending),
                }
            }
            Err(error) => Judged::refused(error.code()),
        }
    }

    /// Publishes all staged edits. It takes no memory.
    pub(crate) fn commit(&mut self) -> Judged
        ensures published { self.new ≡ with_committed self.old }
        ensures told { reply_of result.answer ≡ record { text = desk_text (DeskReply.Committed self.new.published.edits); is_internal_error = false } }
        ensures answered { (name : Text) (t : Instant) (line : Text) → desk_line line ≡ Some (Ok Commit)
            → BooksStep (replay_terms name t) self.old (Whole line) (reply_of result.answer) self.new }
        ensures desk_reply { (reply_of result.answer).is_internal_error ≡ false }
        ensures outcome { (line : Text) → IsOutcomeOf result.outcome line (reply_of result.answer).text }
        ensures listed { IsListed result.outcome }
    {
        self.pair.commit();
        let edition = self.pair.published().edition();
        Judged {
            answer: desk_answer(DeskReply::Committed(edition)),
            outcome: Outcome::Committed(edition),
        }
    }

    /// Answers a request, over the published book.
    pub(crate) fn request(
        &self,
        alloc: Global,
        name: &Source,
        moment: &Moment,
        request: &Request,
    ) -> Judged
        ensures answered { (line : Text) → desk_line line ≡ None → line_request line ≡ Some (request_of request.now)
            → BooksStep (replay_terms name.now moment.now) self.now (Whole line) (reply_of result.answer) self.now }
        ensures outcome { (line : Text) → desk_line line ≡ None → line_request line ≡ Some (request_of request.now)
            → IsOutcomeOf result.outcome line (reply_of result.answer).text }
        ensures listed { IsListed result.outcome }
    {
        match reply_request(alloc, self.pair.published(), name, moment, request) {
            Ok(text) => Judged {
                answer: Answer {
                    text: ReplyText::Kept(text),
                    is_internal_error: false,
                },
                outcome: Outcome::Answered,
            },
            Err(_) => Judged::unjudged(),
        }
    }

    /// Answers a line that is neither a desk line nor a request.
    #[tactic(auto, unfolding(lost_json::specs::Line::line_reply))]
    pub(crate) fn neither(&self) -> Judged
        ensures told { reply_of result.answer ≡ record { text = stream.bad_request; is_internal_error = false } }
        ensures answered { (name : Text) (t : Instant) (line : Text) → desk_line line ≡ None → line_request line ≡ None
            → BooksStep (replay_terms name t) self.now (Whole line) (reply_of result.answer) self.now }
        ensures outcome { (line : Text) → IsOutcomeOf result.outcome line (reply_of result.answer).text }
        ensures listed { IsListed result.outcome }
    {
        Judged::bad_request()
    }
}
