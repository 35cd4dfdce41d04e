//! The report of a line.
ghost use Rattle.std.specs.Prelude.{◌≡◌, ◌≢◌, ◌≤◌, ◌++◌, All, IfOk, length};
ghost use Rattle.lost_lines.specs.Answer.{bytes_of};
ghost use Rattle.lost_lines.specs.Cutting.{newline};
ghost use Rattle.lost_replay.specs.Outcome.{IsListed};
ghost use Rattle.lost_replay.specs.Said.{IsHeaded, IsSaid};

use crate::Outcome;
use crate::head::{head, label};
use lost_lines::Text;
use lost_writing::DeskText;
use memchr::memchr;
use std::alloc::{AllocError, Global};

/// The report of the line with this number, by the outcome of a replay's answer to it. It is empty if the line is
/// taken; otherwise it has the line's number and why, then the cause up to its first byte 10. If memory is short, the
/// cause is left out. A code must be one of the desk's table.
pub(crate) fn say(alloc: Global, number: u64, outcome: Outcome, cause: &[u8]) -> Text
    requires { IsListed outcome }
    ensures { IsSaid number outcome (bytes_of result) }
{
    match outcome {
        Outcome::Answered | Outcome::Staged(_) | Outcome::Committed(_) => Text::Constant(b""),
        Outcome::Refused(code) => {
            let label = label(code);
            headed(alloc, head(number, label.bytes()), cause)
        }
        Outcome::BadRequest => headed(alloc, head(number, b"badRequest"), cause),
        Outcome::Unjudged => headed(alloc, head(number, b"internalError"), cause),
    }
}

/// A line of text with this head and this cause. The head must have at most 45 bytes.
fn headed(alloc: Global, head: DeskText, cause: &[u8]) -> Text
    requires { length head ≤ 45 }
    ensures { IsHeaded head (bytes_of result) }
{
    match whole_line(alloc, head.bytes(), cause) {
        Ok(line) => Text::Kept(line),
        Err(_) => Text::Short(ended(head)),
    }
}

/// A head that is the whole line.
fn ended(head: DeskText) -> DeskText
    requires { length head ≤ 45 }
    ensures { IsHeaded head result }
{
    let mut line = head;
    line.push(b"\n");
    line
}

/// A head and a cause as one line.
fn whole_line(alloc: Global, head: &[u8], cause: &[u8]) -> Result<Vec<u8>, AllocError>
    ensures { IfOk result (λ line. IsHeaded head.now line.items) }
{
    let mut line = Vec::new(alloc);
    line.extend_from_slice(head)?;
    line.extend_from_slice(first_line(cause))?;
    line.push(b'\n')?;
    Ok(line)
}

/// The bytes before the first byte 10, or all if there is none.
fn first_line(bytes: &[u8]) -> &[u8]
    ensures { All (λ b. b ≢ newline) result.now }
{
    match memchr(b'\n', bytes) {
        Some(end) => &bytes[..end],
        None => bytes,
    }
}
