//! Replies that take no memory.
ghost use Rattle.std.specs.Prelude.{◌≡◌, true, false};
ghost use Rattle.lost_writing.specs.DeskReplies.{desk_text, IsInTable};
ghost use Rattle.lost_lines.specs.Answer.{reply_of};
ghost use Rattle.lost_json.specs.Stream as stream;

use lost_lines::{Answer, Text};
use lost_writing::{BAD_REQUEST, DeskReply, INTERNAL_ERROR, law_constant_lines, write_desk};

/// The desk's reply. A refusal must be one of the table.
pub fn desk_answer(reply: DeskReply) -> Answer
    requires { IsInTable reply }
    ensures { reply_of result ≡ record { text = desk_text reply; is_internal_error = false } }
{
    Answer {
        text: Text::Short(write_desk(&reply)),
        is_internal_error: false,
    }
}

/// The reply `internalError`, for a refusal of memory (RFC 5222, section 13.1).
pub fn internal_error() -> Answer
    ensures { reply_of result ≡ record { text = stream.internal_error; is_internal_error = true } }
{
    law_constant_lines();
    Answer {
        text: Text::Constant(INTERNAL_ERROR),
        is_internal_error: true,
    }
}

/// The reply `badRequest` (RFC 5222, section 13.1).
pub fn bad_request() -> Answer
    ensures { reply_of result ≡ record { text = stream.bad_request; is_internal_error = false } }
{
    law_constant_lines();
    Answer {
        text: Text::Constant(BAD_REQUEST),
        is_internal_error: false,
    }
}
