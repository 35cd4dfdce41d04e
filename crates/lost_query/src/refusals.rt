//! Replies that are errors.
ghost use Rattle.std.specs.Prelude.{◌≡◌};
ghost use Rattle.lost_spec.specs.Request.{Errors};
ghost use Rattle.lost_mapping.specs.Reply.{reply_of};

use crate::holdings::Holdings;
use lost_mapping::Reply;
use lost_spec::answers::AnswerError;

/// The reply that is this error (RFC 5222, section 13.1).
pub(crate) fn refusal<'a, H: Holdings>(holdings: &H, error: AnswerError) -> Reply<'a>
    ensures { reply_of result ≡ Errors (H.book holdings.now).edits error }
{
    Reply::Errors {
        edition: holdings.edition(),
        error,
    }
}
