//! A request of HTTP at the desk's address (RFC 9110, RFC 9112): the map that is published may be read back.
ghost use Rattle.std.specs.Prelude.{◌≡◌};
ghost use Rattle.lost_desks.specs.MapAsked.{asked_code, by_get, map_asked};

use httparse::Status;
use httparse::spans::{EMPTY_HEADER_SPAN, HeaderSpan, RequestSpans, parse_request};
use std::io;
use std::io::{ErrorKind, Read};

/// The most bytes that a request's head may have.
const MAX_HEAD: usize = 8_192;

/// The most fields that a request's head may have.
const MAX_FIELDS: usize = 64;

/// How many bytes are read at once.
const CHUNK: usize = 1_024;

/// What a request asks for.
#[derive(Clone, Copy, PartialEq, Eq, Debug)]
pub enum MapAsked {
    /// The map that is published.
    Map,
    /// The map, and before it what is remembered of withdrawals.
    MapWithTraces,
    /// Anything, for a page in a browser: its request has an `Origin`.
    FromBrowser,
    /// What is not there.
    OtherPath,
    /// The map, by another method than GET.
    OtherMethod,
}

impl MapAsked {
    /// The status code of the answer (RFC 9110, section 15).
    pub fn code(self) -> u16
        ensures { result ≡ asked_code self }
    {
        match self {
            MapAsked::Map | MapAsked::MapWithTraces => 200,
            MapAsked::FromBrowser => 403,
            MapAsked::OtherPath => 404,
            MapAsked::OtherMethod => 405,
        }
    }
}

/// What a request with this method and this target asks for. `has_origin` says whether it has an `Origin`.
pub fn asked_by(method: &[u8], target: &[u8], has_origin: bool) -> MapAsked
    ensures { result ≡ map_asked method.now target.now has_origin }
{
    if has_origin {
        return MapAsked::FromBrowser;
    }
    if target == b"/map".as_slice() {
        return by_get(method, MapAsked::Map);
    }
    if target == b"/map?traces".as_slice() {
        return by_get(method, MapAsked::MapWithTraces);
    }
    MapAsked::OtherPath
}

/// What is asked for by GET, unless the method is another one.
fn by_get(method: &[u8], asked: MapAsked) -> MapAsked
    ensures { result ≡ by_get method.now asked }
{
    if method == b"GET".as_slice() {
        asked
    } else {
        MapAsked::OtherMethod
    }
}

/// A request that was read.
#[derive(Clone, Copy, PartialEq, Eq, Debug)]
pub(crate) struct MapRequest {
    /// What it asks for.
    pub(crate) asked: MapAsked,
    /// Whether its peer reads a body in chunks, as all of HTTP/1.1 do.
    pub(crate) reads_chunks: bool,
}

/// Reads the head of a request that begins with these bytes; `None` if they begin none.
///
/// # Errors
///
/// If a read fails, if the input ends in the head, or if memory is refused.
pub(crate) fn read_request<I: Read>(
    input: &mut I,
    begun: Vec<u8>,
) -> io::Result<Option<MapRequest>> {
    let mut head = begun;
    let mut chunk = [0; CHUNK];
    // Each read gives a byte at least.
    for _ in 0..MAX_HEAD {
        if head.len() >= MAX_HEAD {
            break;
        }
        if let Some(found) = request_in(head.as_slice()) {
            return Ok(found);
        }
        match input.read(&mut chunk)? {
            0 => return Err(io::Error::from(ErrorKind::UnexpectedEof)),
            count => take_in(&mut head, &chunk, count)?,
        }
    }
    Ok(None)
}

/// Adds the first bytes of a chunk to a head.
fn take_in(head: &mut Vec<u8>, chunk: &[u8], count: usize) -> io::Result<()> {
    let Some(came) = chunk.get(..count) else {
        return Ok(());
    };
    match head.extend_from_slice(came) {
        Ok(()) => Ok(()),
        Err(_) => Err(io::Error::from(ErrorKind::OutOfMemory)),
    }
}

/// The request whose head these bytes are, `Some(None)` if they are none; `None` if its end has not come.
fn request_in(head: &[u8]) -> Option<Option<MapRequest>> {
    let mut fields = [EMPTY_HEADER_SPAN; MAX_FIELDS];
    match parse_request(head, &mut fields) {
        Ok(Status::Complete(spans)) => Some(Some(request_of(head, &spans, &fields))),
        Ok(Status::Partial) => None,
        Err(_) => Some(None),
    }
}

/// The request with these parts.
fn request_of(head: &[u8], spans: &RequestSpans, fields: &[HeaderSpan]) -> MapRequest {
    let has_origin = match fields.get(..spans.headers) {
        Some(fields) => fields.iter().any(|field| is_origin(head, field)),
        None => false,
    };
    MapRequest {
        asked: asked_by(
            part_of(head, spans.method.start, spans.method.end),
            part_of(head, spans.path.start, spans.path.end),
            has_origin,
        ),
        reads_chunks: spans.version >= 1,
    }
}

/// Whether a field is `Origin` (RFC 6454, section 7).
fn is_origin(head: &[u8], field: &HeaderSpan) -> bool {
    part_of(head, field.name.start, field.name.end).eq_ignore_ascii_case(b"origin")
}

/// A part of a head.
fn part_of(head: &[u8], start: usize, end: usize) -> &[u8] {
    match head.get(start..end) {
        Some(part) => part,
        None => b"",
    }
}
