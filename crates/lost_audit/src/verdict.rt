//! What a logged question comes to.
ghost use Rattle.std.specs.Prelude.{◌≡◌, IfOk, length};
ghost use Rattle.lost_audit.specs.Verdicts.{IsJudged};

use crate::judging::{differing_reply, reply_of_other_digest};
use crate::log_line::{Kept, Question};
use lost_desk::Desk;
use lost_mapping::Source;
use lost_tape::Scratch;
use std::alloc::{AllocError, Global};

/// What a line of the log comes to.
#[derive(Drop)]
pub enum Verdict {
    /// Its reply is the one that the journal's edits give.
    Right,
    /// Its reply is `internalError`.
    InternalError,
    /// Its reply is another one than this.
    Differs(Vec<u8>),
    /// It cannot be judged, for this reason.
    Unjudged(&'static str),
}

/// Judges a question over the book that a desk has published, which is of its edition.
///
/// # Errors
///
/// If memory is refused.
pub fn judge(
    alloc: Global,
    scratch: &mut Scratch,
    desk: &Desk,
    name: &Source,
    question: &Question,
) -> Result<Verdict, AllocError>
    requires edition { length desk.now.published ≡ question.now.edition }
    ensures judged { IfOk result (λ verdict. IsJudged desk.now name.now question.now verdict) }
{
    let (book, request) = (desk.published(), question.request.as_slice());
    let other = match &question.kept {
        Kept::Whole(given) => differing_reply(
            alloc,
            scratch,
            book,
            name,
            &question.moment,
            request,
            given.as_slice(),
        )?,
        Kept::Digest(digest) => {
            reply_of_other_digest(
                alloc,
                scratch,
                book,
                name,
                &question.moment,
                request,
                *digest,
            )?
        }
        Kept::Nothing => return Ok(Verdict::Unjudged("the log keeps nothing of its reply")),
    };
    match other {
        Some(reply) => Ok(Verdict::Differs(reply)),
        None => Ok(Verdict::Right),
    }
}
