//! Reply lines.
ghost use Rattle.std.specs.Prelude.{◌≡◌, IfOk};
ghost use Rattle.lost_mapping.specs.Reply.{reply_of};
ghost use Rattle.lost_writing.specs.Replies.{reply_text};

mod found_line;
mod lists;
mod mappings;
mod members;
mod names;
mod prepared;
mod regions;
mod replies;

use crate::token_text::TokenText;
use found_line::{pieces_of, write_pieces};
use lost_mapping::Reply;
pub use prepared::prepare;
use replies::write_tree;
use std::alloc::{AllocError, Global};

/// The first room of a reply's line, in bytes.
const ROOM: usize = 1_024;

/// The line of a reply with its byte 10 (RFC 5222, sections 8.4, 9 to 11 and 13; own format). With one mapping that keeps
/// its text by reference, and nothing that needs an escape, it is put together from pieces.
pub fn write_reply(alloc: Global, reply: &Reply<'_>) -> Result<Vec<u8>, AllocError>
    ensures { IfOk result (λ line. line.items ≡ reply_text (reply_of reply.now)) }
{
    match pieces_of(reply) {
        Some(pieces) => write_pieces(alloc, &pieces),
        None => write_by_tokens(alloc, reply),
    }
}

/// The line of any reply, written token by token.
#[tactic(auto, unfolding(crate::specs::Replies::reply_text), using(crate::proofs::TokenLemmas::value_printed))]
fn write_by_tokens(alloc: Global, reply: &Reply<'_>) -> Result<Vec<u8>, AllocError>
    ensures { IfOk result (λ line. line.items ≡ reply_text (reply_of reply.now)) }
{
    let mut text = TokenText::with_room(alloc, ROOM)?;
    write_tree(&mut text, reply)?;
    text.into_line()
}
