//! The line that answers a line.
ghost use Rattle.std.specs.Prelude.{◌≡◌, Some, IfOk, IsOkAnd};
ghost use Rattle.lost_spec.specs.Book.{Book};
ghost use Rattle.lost_spec.specs.Moment.{Instant};
ghost use Rattle.lost_spec.specs.Text.{Text};
ghost use Rattle.lost_mapping.specs.Reply.{reply_of};
ghost use Rattle.lost_mapping.specs.Request.{request_of};
ghost use Rattle.lost_reading.specs.Gives.{Refuses};
ghost use Rattle.lost_reading.specs.Requests.{line_request};
ghost use Rattle.lost_writing.specs.Replies.{reply_text};
ghost use Rattle.lost_query.specs.Asked.{reply_asked};
ghost use Rattle.lost_json.specs.Line.{line_reply};

use lost_mapping::{Moment, Source};
use lost_query::{Asked, Holdings, Reply, Request, answer, answer_asked};
use lost_reading::{ReadError, read_request};
use lost_writing::write_reply;
use std::alloc::{AllocError, Global};

/// Reads a request line, answers it over these holdings by the server of this name at an instant, and writes the
/// reply's line with its byte 10. A line that is no request gives `badRequest` (RFC 5222, section 13.1).
#[tactic(auto, unfolding(crate::specs::Line::line_reply))]
pub fn reply_line<H: Holdings>(
    alloc: Global,
    holdings: &H,
    name: &Source,
    moment: &Moment,
    line: &[u8],
) -> Result<Vec<u8>, AllocError>
    ensures { IfOk result (λ reply. reply.items ≡ line_reply (H.book holdings.now) name.now moment.now line.now) }
{
    match &read_request(alloc, line) {
        Ok(request) => reply_request(alloc, holdings, name, moment, request),
        Err(error) => reply_to_unread(alloc, *error),
    }
}

/// The reply to a line that was not read as a request, for this reason. If memory was refused, it is refused too.
#[tactic(auto, unfolding(crate::specs::Line::line_reply))]
pub fn reply_to_unread(alloc: Global, error: ReadError) -> Result<Vec<u8>, AllocError>
    ensures { IfOk result (λ reply. (b : Book) (name line : Text) (t : Instant) → Refuses error (line_request line)
        → reply.items ≡ line_reply b name t line) }
{
    match error {
        ReadError::BadRequest => write_reply(alloc, &Reply::BadRequest),
        ReadError::Memory => Err(AllocError),
    }
}

/// Answers a request that was read from a line, as [`reply_line`] does, and writes the reply's line.
#[tactic(auto, unfolding(crate::specs::Line::line_reply))]
pub fn reply_request<H: Holdings>(
    alloc: Global,
    holdings: &H,
    name: &Source,
    moment: &Moment,
    request: &Request<'_>,
) -> Result<Vec<u8>, AllocError>
    ensures { IfOk result (λ reply. (line : Text) → line_request line ≡ Some (request_of request.now)
        → reply.items ≡ line_reply (H.book holdings.now) name.now moment.now line) }
{
    write_answer(alloc, &answer(alloc, holdings, name, moment, request))
}

/// Answers what was asked over these holdings at an instant, and writes the reply's line.
pub fn reply_asked<H: Holdings>(
    alloc: Global,
    holdings: &H,
    moment: &Moment,
    asked: &Asked<'_>,
) -> Result<Vec<u8>, AllocError>
    ensures { IfOk result (λ reply. reply.items ≡ reply_text (reply_asked (H.book holdings.now) moment.now asked.now)) }
{
    write_answer(alloc, &answer_asked(alloc, holdings, moment, asked))
}

/// The line of a reply, if memory was not refused for it.
fn write_answer(
    alloc: Global,
    answer: &Result<Reply<'_>, AllocError>,
) -> Result<Vec<u8>, AllocError>
    ensures { IfOk result (λ line. IsOkAnd answer.now (λ reply. line.items ≡ reply_text (reply_of reply))) }
{
    match answer {
        Ok(reply) => write_reply(alloc, reply),
        Err(error) => Err(*error),
    }
}
