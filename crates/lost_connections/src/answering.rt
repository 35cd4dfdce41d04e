//! Answers the lines of a burst.
ghost use Rattle.std.specs.Prelude.{◌≡◌, ◌≢◌, List, ℕ, [], ◌++◌, All, OnOk, IfErr};
ghost use Rattle.lost_lines.specs.Cutting.{newline, ended_lines, lines_of};
ghost use Rattle.lost_worker.specs.Lines.{HasSeenMore};
ghost use Rattle.lost_connections.specs.Worker.{worker};
ghost use Rattle.lost_connections.specs.Begun.{IsBegun};
ghost use Rattle.lost_connections.specs.Replies.{AnswersAll, AnswersBehind, AnswersFront, IsAnswering};
ghost use Rattle.lost_connections.specs.Parts.{replied_of};

use crate::faults::ClientFault;
use crate::replies::Replies;
use lost_mapping::Source;
use lost_worker::{Gate, Moments, Replier};
use memchr::memrchr;
use std::alloc::Global;

/// The most bytes kept of one line: one more than a line may have.
const MOST_KEPT: usize = 1_048_577;

/// The most bytes of room that stay for the next line.
const KEPT_ROOM: usize = 65_536;

/// Answers the lines that end in `bytes`, the first with its begun part, and keeps the rest.
pub(crate) fn answer<P: Replier, M: Moments, G: Gate>(
    alloc: Global,
    begun: &mut Vec<u8>,
    replies: &mut Replies,
    bytes: &[u8],
    replier: &mut P,
    name: &Source,
    moments: &mut M,
    gate: &G,
) -> Result<(), ClientFault>
    ensures answers { (piece : List ℕ) → IsBegun begun.old.items piece → OnOk result (AnswersBehind (G.says gate.now) name.now
        (worker (P.reader replier.old) (M.coming moments.old)) (worker (P.reader replier.new) (M.coming moments.new))
        piece bytes.now (replied_of replies.old) (replied_of replies.new) begun.new.items) }
    ensures front { (piece : List ℕ) → IsBegun begun.old.items piece → IfErr result (AnswersFront (G.says gate.now) name.now
        (worker (P.reader replier.old) (M.coming moments.old)) (worker (P.reader replier.new) (M.coming moments.new))
        (ended_lines (piece ++ bytes.now)) (replied_of replies.old) (replied_of replies.new)) }
    ensures cause { IfErr result IsAnswering }
    ensures seen { HasSeenMore (P.reader replier.old) (P.reader replier.new) }
{
    let Some(end) = memrchr(b'\n', bytes) else {
        return begin(begun, bytes);
    };
    let (lines, rest) = bytes.split_at(end + 1);
    answer_lines(alloc, begun, replies, lines, replier, name, moments, gate)?;
    begin(begun, rest)
}

/// Answers the line that was begun when the input ended.
pub(crate) fn answer_last<P: Replier, M: Moments, G: Gate>(
    alloc: Global,
    begun: &mut Vec<u8>,
    replies: &mut Replies,
    replier: &mut P,
    name: &Source,
    moments: &mut M,
    gate: &G,
) -> Result<(), ClientFault>
    ensures answers { (piece : List ℕ) → IsBegun begun.old.items piece → OnOk result (AnswersAll (G.says gate.now) name.now
        (worker (P.reader replier.old) (M.coming moments.old)) (worker (P.reader replier.new) (M.coming moments.new))
        (lines_of piece) (replied_of replies.old) (replied_of replies.new)) }
    ensures front { (piece : List ℕ) → IsBegun begun.old.items piece → IfErr result (AnswersFront (G.says gate.now) name.now
        (worker (P.reader replier.old) (M.coming moments.old)) (worker (P.reader replier.new) (M.coming moments.new))
        (lines_of piece) (replied_of replies.old) (replied_of replies.new)) }
    ensures empty { begun.new.items ≡ [] }
    ensures cause { IfErr result IsAnswering }
    ensures seen { HasSeenMore (P.reader replier.old) (P.reader replier.new) }
{
    let answered = replies.answer_text(alloc, begun.as_slice(), replier, name, moments, gate);
    forget(alloc, begun);
    answered
}

/// Answers the lines in these bytes, the first with its begun part.
fn answer_lines<P: Replier, M: Moments, G: Gate>(
    alloc: Global,
    begun: &mut Vec<u8>,
    replies: &mut Replies,
    lines: &[u8],
    replier: &mut P,
    name: &Source,
    moments: &mut M,
    gate: &G,
) -> Result<(), ClientFault>
    ensures answers { (piece : List ℕ) → IsBegun begun.old.items piece → OnOk result (AnswersAll (G.says gate.now) name.now
        (worker (P.reader replier.old) (M.coming moments.old)) (worker (P.reader replier.new) (M.coming moments.new))
        (lines_of (piece ++ lines.now)) (replied_of replies.old) (replied_of replies.new)) }
    ensures front { (piece : List ℕ) → IsBegun begun.old.items piece → IfErr result (AnswersFront (G.says gate.now) name.now
        (worker (P.reader replier.old) (M.coming moments.old)) (worker (P.reader replier.new) (M.coming moments.new))
        (lines_of (piece ++ lines.now)) (replied_of replies.old) (replied_of replies.new)) }
    ensures empty { OnOk result (begun.new.items ≡ []) }
    ensures cause { IfErr result IsAnswering }
    ensures seen { HasSeenMore (P.reader replier.old) (P.reader replier.new) }
{
    if begun.as_slice().is_empty() {
        return replies.answer_text(alloc, lines, replier, name, moments, gate);
    }
    if begun.extend_from_slice(lines).is_err() {
        return Err(ClientFault::Memory);
    }
    let answered = replies.answer_text(alloc, begun.as_slice(), replier, name, moments, gate);
    forget(alloc, begun);
    answered
}

/// Keeps further bytes of a line that was begun, up to the limit of a line.
fn begin(begun: &mut Vec<u8>, bytes: &[u8]) -> Result<(), ClientFault>
    requires unbroken { All (λ b. b ≢ newline) bytes.now }
    ensures begun { (piece : List ℕ) → IsBegun begun.old.items piece
        → OnOk result (IsBegun begun.new.items (piece ++ bytes.now)) }
    ensures cause { IfErr result (λ fault. fault ≡ ClientFault.Memory) }
{
    let room = MOST_KEPT.saturating_sub(begun.len());
    let count = room.min(bytes.len());
    if begun.extend_from_slice(&bytes[..count]).is_err() {
        return Err(ClientFault::Memory);
    }
    Ok(())
}

/// Forgets a line that was answered.
fn forget(alloc: Global, begun: &mut Vec<u8>)
    ensures { begun.new.items ≡ [] }
{
    if begun.len() > KEPT_ROOM {
        *begun = Vec::new(alloc);
        return;
    }
    begun.clear();
}
