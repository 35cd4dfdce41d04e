//! The lines of an audit.
ghost use Rattle.std.specs.Prelude.{◌≡◌, ◌≢◌, [], IfOk, OnOk};
ghost use Rattle.lost_audit.specs.Verdicts.{IsTold};

use crate::log_line::{Kept, Question};
use crate::verdict::Verdict;
use lost_answer_log::without_end;
use std::alloc::{AllocError, Global};

/// The line that tells the verdict on the line of this number; empty if there is nothing to tell.
pub(crate) fn report_text(
    alloc: Global,
    number: u64,
    question: Option<&Question>,
    verdict: &Verdict,
) -> Result<Vec<u8>, AllocError>
    ensures told { IfOk result (λ text. IsTold verdict.now → text.items ≢ []) }
{
    match verdict {
        Verdict::Right | Verdict::InternalError => Ok(Vec::new(alloc)),
        Verdict::Unjudged(cause) => unjudged_text(alloc, number, question, cause),
        Verdict::Differs(reply) => differing_text(alloc, number, question, reply.as_slice()),
    }
}

/// The line that tells why a line could not be judged.
fn unjudged_text(
    alloc: Global,
    number: u64,
    question: Option<&Question>,
    cause: &str,
) -> Result<Vec<u8>, AllocError>
    ensures some { IfOk result (λ text. text.items ≢ []) }
{
    let mut text = head_of(alloc, number, question)?;
    let words = format!(in alloc; "not judged: {cause}\n")?;
    text.extend_from_slice(words.as_bytes())?;
    Ok(text)
}

/// The line that tells what was given as a reply, and the right one.
fn differing_text(
    alloc: Global,
    number: u64,
    question: Option<&Question>,
    right: &[u8],
) -> Result<Vec<u8>, AllocError>
    ensures some { IfOk result (λ text. text.items ≢ []) }
{
    let mut text = head_of(alloc, number, question)?;
    push_given(alloc, &mut text, question)?;
    text.extend_from_slice(b", and the right reply is ")?;
    text.extend_from_slice(right)?;
    Ok(text)
}

/// The beginning of a line.
fn head_of(alloc: Global, number: u64, question: Option<&Question>) -> Result<Vec<u8>, AllocError>
    ensures some { IfOk result (λ text. text.items ≢ []) }
{
    let mut text = Vec::new(alloc);
    let place = match question {
        Some(question) => {
            let (edition, connection) = (question.edition, question.connection);
            format!(in alloc; "{number}: edition {edition}, connection {connection}: ")?
        }
        None => format!(in alloc; "{number}: ")?,
    };
    text.extend_from_slice(b"line ")?;
    text.extend_from_slice(place.as_bytes())?;
    Ok(text)
}

/// Adds what was given as the reply.
fn push_given(
    alloc: Global,
    text: &mut Vec<u8>,
    question: Option<&Question>,
) -> Result<(), AllocError>
    ensures stays { OnOk result (text.old.items ≢ [] → text.new.items ≢ []) }
{
    let Some(question) = question else {
        return Ok(());
    };
    match &question.kept {
        Kept::Whole(given) => {
            text.extend_from_slice(b"the reply was ")?;
            text.extend_from_slice(without_end(given.as_slice()))
        }
        Kept::Digest(digest) => {
            let words = format!(in alloc; "the reply had the digest {digest:016x}")?;
            text.extend_from_slice(words.as_bytes())
        }
        Kept::Nothing => Ok(()),
    }
}
