//! Which kind of reply a line is.
ghost use Rattle.std.specs.Prelude.{◌≡◌, slice_index};
ghost use Rattle.lost_spec.specs.Request.{Reply};
ghost use Rattle.lost_writing.specs.Replies.{reply_text};
ghost use Rattle.lost_status.specs.ReplyKind.{kind_of_reply};
ghost use Rattle.lost_status.specs.LineKind.{byte_from_end as byte_from_end_of, told_error as told_error_of, told_kind as told_kind_of};

use crate::reply_kind::ReplyKind;

/// Where the name of a reply's one member begins in its line.
const NAME: usize = 2;

/// Where `listServicesByLocationResponse` and `listServicesResponse` first differ in their lines.
const PARTING: usize = 14;

/// Where the fifth letter of an error's name stands, counted from the end of the name and of the line.
const FIFTH_LETTER: usize = 9;

/// Where the eighth letter stands, counted from the end.
const EIGHTH_LETTER: usize = 12;

/// The kind of a reply's line, with its byte 10. It looks at few of the bytes, so the kind of any other line means
/// nothing.
pub fn kind_of(line: &[u8]) -> ReplyKind
    ensures told { result ≡ told_kind_of line.now }
    ensures kind { (reply : Reply) → line.now ≡ reply_text reply → result ≡ kind_of_reply reply }
{
    told_kind(line)
}

/// The kind by the first letter of the name and, if two names begin alike, by the letter at which they first differ.
fn told_kind(line: &[u8]) -> ReplyKind
    ensures { result ≡ told_kind_of line.now }
{
    match byte_at(line, NAME) {
        b'f' => ReplyKind::FindServiceResponse,
        b'e' => told_error(line),
        b'g' => ReplyKind::GetServiceBoundaryResponse,
        b'l' if byte_at(line, PARTING) == b'B' => ReplyKind::ListServicesByLocationResponse,
        b'l' => ReplyKind::ListServicesResponse,
        _ => ReplyKind::Other,
    }
}

/// The error of a line. The errors' names differ in the fifth letter from the end, and two of them in the eighth; a
/// quote stands before `loop`.
fn told_error(line: &[u8]) -> ReplyKind
    ensures { result ≡ told_error_of line.now }
{
    match byte_from_end(line, FIFTH_LETTER) {
        b'F' => ReplyKind::NotFound,
        b'e' => ReplyKind::ServiceNotImplemented,
        b'q' => ReplyKind::BadRequest,
        b'n' => ReplyKind::LocationProfileUnrecognized,
        b'E' => ReplyKind::InternalError,
        b'"' => ReplyKind::Loop,
        b'v' if byte_from_end(line, EIGHTH_LETTER) == b'S' => ReplyKind::SrsInvalid,
        b'v' => ReplyKind::LocationInvalid,
        _ => ReplyKind::Other,
    }
}

/// The byte at a place in a line; 0 past its end.
fn byte_at(line: &[u8], place: usize) -> u8
    ensures { result ≡ slice_index line.now place }
{
    line.get(place).copied().unwrap_or(0)
}

/// The byte `places` from the end of a line, where the last is 1; the first byte if the line is shorter.
fn byte_from_end(line: &[u8], places: usize) -> u8
    ensures { result ≡ byte_from_end_of line.now places }
{
    byte_at(line, line.len().saturating_sub(places))
}
