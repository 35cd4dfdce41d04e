//! The lines that are sent most, written piece by piece: a `findService` reply with one mapping by reference.
ghost use Rattle.std.specs.Prelude.{◌≡◌, ◌≤◌, [], ◌∷◌, ◌++◌, None, IfOk, IfSome};
ghost use Rattle.serde_json.specs.Written.{compact_text};
ghost use Rattle.lost_spec.specs.Request as spec;
ghost use Rattle.lost_mapping.specs.Path.{shown_path};
ghost use Rattle.lost_mapping.specs.Reply.{all_shown_of, reply_of};
ghost use Rattle.lost_writing.specs.FoundLine.{found_text, IsPlain};
ghost use Rattle.lost_writing.specs.Replies.{list_data, reply_text, shown_data, texts_data};

use crate::plain::plain_len;
use itoa::Buffer;
use lost_mapping::{Boundary, FoundMappings, Path, Reply};
use std::alloc::{AllocError, Global};

/// What stands before the edition.
const BEFORE_EDITION: &[u8; 34] = b"{\"findServiceResponse\":{\"edition\":";

/// What stands before the id of the location used.
const BEFORE_ID: &[u8; 17] = b",\"locationUsed\":\"";

/// What stands before the mapping.
const BEFORE_MAPPING: &[u8; 13] = b"\",\"mapping\":[";

/// What stands before the server's name.
const BEFORE_SERVER: &[u8; 11] = b"],\"path\":[\"";

/// What stands after the server's name, up to the end of the line.
const AFTER_SERVER: &[u8; 5] = b"\"]}}\n";

/// The first room of a line beside its mapping, in bytes.
const ROOM: usize = 512;

/// The pieces of such a line.
#[derive(Drop)]
pub(crate) struct FoundLine<'a> {
    edition: u64,
    id: &'a [u8],
    mapping: &'a [u8],
    server: &'a [u8],
}

/// The pieces of a reply's line, where it has one mapping by reference that keeps its text, an id that needs no escape,
/// and no other server's name, warning or judged address. `None` says nothing of the reply.
pub(crate) fn pieces_of<'a>(reply: &'a Reply<'_>) -> Option<FoundLine<'a>>
    ensures { IfSome result (λ line. reply_text (reply_of reply.now) ≡ found_text line) }
{
    match reply {
        Reply::FindServiceResponse {
            edition,
            location_used,
            validation,
            mappings,
            path,
            warnings,
        } => {
            if validation.is_some() || !warnings.is_empty() {
                return None;
            }
            bare_line(*edition, location_used, mappings, path)
        }
        _ => None,
    }
}

/// The pieces of the line of a reply without a judged address and without a warning.
fn bare_line<'a>(
    edition: u64,
    location_used: &'a str,
    mappings: &'a FoundMappings,
    path: &'a Path<'_>,
) -> Option<FoundLine<'a>>
    ensures { IfSome result (λ line. reply_text (spec.FindServiceResponse edition location_used.now None
        (all_shown_of mappings.now) (shown_path path.now) []) ≡ found_text line) }
{
    let mapping = only_mapping(mappings)?;
    let server = only_server(path)?;
    let id = plain_bytes(location_used)?;
    Some(FoundLine {
        edition,
        id,
        mapping,
        server,
    })
}

/// The text of the mapping found, if it is one alone, shown by reference, and keeps its text.
fn only_mapping(found: &FoundMappings) -> Option<&[u8]>
    ensures { IfSome result
        (λ text. compact_text (list_data shown_data (all_shown_of found.now)) ≡ 91 ∷ (text.now ++ 93 ∷ [])) }
{
    if !found.rest.is_empty() {
        return None;
    }
    match found.boundary {
        Boundary::ByReference => found.first.reference_text(),
        Boundary::ByValue(_) => None,
    }
}

/// The server's name, if the request came by no other server.
fn only_server<'a>(path: &'a Path<'_>) -> Option<&'a [u8]>
    ensures { IfSome result
        (λ name. compact_text (texts_data (shown_path path.now)) ≡ 91 ∷ 34 ∷ (name.now ++ 34 ∷ 93 ∷ [])) }
{
    if !path.names.is_empty() {
        return None;
    }
    Some(path.server.text().as_bytes())
}

/// The bytes of a text, if it needs no escape.
fn plain_bytes(text: &str) -> Option<&[u8]>
    ensures { IfSome result (λ bytes. (bytes.now ≡ text.now) × IsPlain text.now) }
{
    let bytes = text.as_bytes();
    if plain_len(bytes) < bytes.len() {
        return None;
    }
    Some(bytes)
}

/// Writes the line of these pieces.
#[tactic(auto, unfolding(crate::specs::FoundLine::found_text, crate::specs::FoundLine::before_edition, crate::specs::FoundLine::before_id, crate::specs::FoundLine::before_mapping, crate::specs::FoundLine::before_server, crate::specs::FoundLine::after_server))]
pub(crate) fn write_pieces(alloc: Global, pieces: &FoundLine<'_>) -> Result<Vec<u8>, AllocError>
    ensures { IfOk result (λ line. line.items ≡ found_text pieces.now) }
{
    let mut line = Vec::with_capacity(alloc, pieces.mapping.len() + ROOM)?;
    let mut digits = Buffer::new();
    line.extend_from_slice(BEFORE_EDITION)?;
    line.extend_from_slice(digits.format(pieces.edition).as_bytes())?;
    line.extend_from_slice(BEFORE_ID)?;
    line.extend_from_slice(pieces.id)?;
    line.extend_from_slice(BEFORE_MAPPING)?;
    line.extend_from_slice(pieces.mapping)?;
    line.extend_from_slice(BEFORE_SERVER)?;
    line.extend_from_slice(pieces.server)?;
    line.extend_from_slice(AFTER_SERVER)?;
    Ok(line)
}
