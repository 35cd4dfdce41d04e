//! Judges a reply that was logged.
ghost use Rattle.std.specs.Prelude.{◌≡◌, ◌≢◌, IfOk, IsNone, IfSome};
ghost use Rattle.lost_json.specs.Line.{line_reply};

use lost_answer_log::{reply_digest, without_end};
use lost_json::{reply_line, reply_request};
use lost_mapping::{Moment, Source};
use lost_query::Holdings;
use lost_tape::{Scratch, read_common};
use std::alloc::{AllocError, Global};

/// The reply to a request line over a book, as the server of this name at a moment.
fn reply_over<H: Holdings>(
    alloc: Global,
    scratch: &mut Scratch,
    book: &H,
    name: &Source,
    moment: &Moment,
    line: &[u8],
) -> Result<Vec<u8>, AllocError>
    ensures { IfOk result (λ reply. reply.items ≡ line_reply (H.book book.now) name.now moment.now line.now) }
{
    match read_common(alloc, line, scratch) {
        Some(request) => reply_request(alloc, book, name, moment, &request),
        None => reply_line(alloc, book, name, moment, line),
    }
}

/// The reply to a request line over a book, as the server of this name at a moment, if it is not the one that was given;
/// both with their byte 10.
///
/// # Errors
///
/// If memory is refused.
pub fn differing_reply<H: Holdings>(
    alloc: Global,
    scratch: &mut Scratch,
    book: &H,
    name: &Source,
    moment: &Moment,
    request: &[u8],
    given: &[u8],
) -> Result<Option<Vec<u8>>, AllocError>
    ensures same { IfOk result (λ other. IsNone other → given.now ≡ line_reply (H.book book.now) name.now moment.now request.now) }
    ensures differs { IfOk result (λ other. IfSome other (λ reply.
        (reply.items ≡ line_reply (H.book book.now) name.now moment.now request.now) × (given.now ≢ reply.items))) }
{
    let right = reply_over(alloc, scratch, book, name, moment, request)?;
    if right.as_slice() == given {
        return Ok(None);
    }
    Ok(Some(right))
}

/// The same where only the digest of the text of the reply that was given is known.
///
/// # Errors
///
/// If memory is refused.
pub fn reply_of_other_digest<H: Holdings>(
    alloc: Global,
    scratch: &mut Scratch,
    book: &H,
    name: &Source,
    moment: &Moment,
    request: &[u8],
    digest: u64,
) -> Result<Option<Vec<u8>>, AllocError>
    ensures differs { IfOk result (λ other. IfSome other (λ reply.
        reply.items ≡ line_reply (H.book book.now) name.now moment.now request.now)) }
{
    let reply = reply_over(alloc, scratch, book, name, moment, request)?;
    if reply_digest(without_end(reply.as_slice())) == digest {
        return Ok(None);
    }
    Ok(Some(reply))
}
