//! The reply to a line over a book. A request of a common shape is read by its tokens.
ghost use Rattle.std.specs.Prelude.{◌≡◌, Some, IfOk};
ghost use Rattle.lost_json.specs.Line.{line_reply};
ghost use Rattle.lost_spec.specs.Text.{Text};
ghost use Rattle.lost_mapping.specs.Request.{request_of};
ghost use Rattle.lost_location.specs.Place.{place_of};
ghost use Rattle.lost_reading.specs.Gives.{Gives};
ghost use Rattle.lost_reading.specs.Requests.{line_request};
ghost use Rattle.lost_spec.specs.Holders.{holders_of};
ghost use Rattle.lost_writing.specs.Replies.{reply_text};
ghost use Rattle.lost_query.specs.Asked.{reply_asked};
ghost use Rattle.lost_desk.specs.Sets.{AreRightIn, KeepsOnly};

use crate::sets::PlaceSets;
use crate::with_holders::WithHolders;
use lost_json::{reply_asked, reply_to_unread};
use lost_mapping::{Moment, Source};
use lost_query::{Asked, Place, Request};
use lost_reading::ReadError;
use lost_routing::Routing;
use lost_tape::{Scratch, read_request};
use std::alloc::{AllocError, Global};

/// The reply to a line over this book by the server of this name at an instant, as [`lost_json::reply_line`] gives it.
/// If the request is answered at a place, the place's set is taken from `sets`, or made and kept there if wanted.
/// `scratch` is kept from line to line, but holds nothing of the lines.
pub(crate) fn reply_over_sets<S: PlaceSets>(
    alloc: Global,
    sets: &mut S,
    book: &Routing,
    name: &Source,
    moment: &Moment,
    line: &[u8],
    scratch: &mut Scratch,
) -> Result<Vec<u8>, AllocError>
    requires { AreRightIn (S.keeps sets.old) book.now }
    ensures reply { IfOk result (λ reply. reply.items ≡ line_reply book.now name.now moment.now line.now) }
    ensures kept { KeepsOnly (S.keeps sets.old) book.now (S.keeps sets.new) }
{
    let read = read_request(alloc, line, scratch);
    reply_to_read(alloc, sets, book, name, moment, &read)
}

/// The reply to a line over this book, given what was read of it.
#[tactic(auto, unfolding(lost_json::specs::Line::line_reply))]
fn reply_to_read<S: PlaceSets>(
    alloc: Global,
    sets: &mut S,
    book: &Routing,
    name: &Source,
    moment: &Moment,
    read: &Result<Request, ReadError>,
) -> Result<Vec<u8>, AllocError>
    requires { AreRightIn (S.keeps sets.old) book.now }
    ensures reply { IfOk result (λ reply. (line : Text) → Gives request_of read.now (line_request line)
        → reply.items ≡ line_reply book.now name.now moment.now line) }
    ensures kept { KeepsOnly (S.keeps sets.old) book.now (S.keeps sets.new) }
{
    match read {
        Ok(request) => answer_request(alloc, sets, book, name, moment, request),
        Err(error) => reply_to_unread(alloc, *error),
    }
}

/// The reply to a request over this book. If it is asked at a place, the place's set is taken from `sets`, or made and
/// kept there if wanted.
#[tactic(auto, unfolding(lost_json::specs::Line::line_reply))]
fn answer_request<S: PlaceSets>(
    alloc: Global,
    sets: &mut S,
    book: &Routing,
    name: &Source,
    moment: &Moment,
    request: &Request,
) -> Result<Vec<u8>, AllocError>
    requires { AreRightIn (S.keeps sets.old) book.now }
    ensures reply { IfOk result (λ reply. (line : Text) → line_request line ≡ Some (request_of request.now)
        → reply.items ≡ line_reply book.now name.now moment.now line) }
    ensures kept { KeepsOnly (S.keeps sets.old) book.now (S.keeps sets.new) }
{
    let asked = Asked::of_request(alloc, name, request)?;
    answer_asked(alloc, sets, book, moment, asked)
}

/// The reply to what is asked over this book. If it is asked at a place, the place's set is taken from `sets`, or made
/// and kept there if it is wanted.
fn answer_asked<S: PlaceSets>(
    alloc: Global,
    sets: &mut S,
    book: &Routing,
    moment: &Moment,
    asked: Asked<'_>,
) -> Result<Vec<u8>, AllocError>
    requires { AreRightIn (S.keeps sets.old) book.now }
    ensures reply { IfOk result (λ reply. reply.items ≡ reply_text (reply_asked book.now moment.now asked.entry)) }
    ensures kept { KeepsOnly (S.keeps sets.old) book.now (S.keeps sets.new) }
{
    let Some(place) = asked.place() else {
        return reply_asked(alloc, book, moment, &asked);
    };
    let edition = book.edition();
    if let Some(holders) = sets.find(edition, place) {
        return answer_from_set(alloc, book, moment, &asked, place, holders);
    }
    if !sets.is_wanted() {
        return reply_asked(alloc, book, moment, &asked);
    }
    let holders = book.holders(place)?;
    let reply = answer_from_set(alloc, book, moment, &asked, place, &holders)?;
    if let Some(place) = asked.into_place() {
        sets.keep(edition, place, holders);
    }
    Ok(reply)
}

/// The reply to what is asked over this book, given the set of this place.
fn answer_from_set(
    alloc: Global,
    book: &Routing,
    moment: &Moment,
    asked: &Asked<'_>,
    place: &Place,
    holders: &[usize],
) -> Result<Vec<u8>, AllocError>
    requires { holders.now ≡ holders_of book.now (place_of place.now) }
    ensures { IfOk result (λ reply. reply.items ≡ reply_text (reply_asked book.now moment.now asked.now)) }
{
    let known = WithHolders {
        alloc,
        book,
        place,
        holders,
    };
    reply_asked(alloc, &known, moment, asked)
}
