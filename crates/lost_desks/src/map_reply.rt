//! The answer to a request of HTTP at the desk's address.
ghost use Rattle.std.specs.Prelude.{◌<◌, IfOk, length};
ghost use Rattle.lost_desks.specs.MapPieces.{IsPiece};

use crate::map_request::{MapAsked, MapRequest};
use lost_desk::Desk;
use lost_export::{COMMIT_LINE, publish_line, trace_lines};
use lost_routing::Routing;
use std::alloc::{AllocError, Global};
use std::io;
use std::io::Write;

/// How many bytes of the map are written at once, and perhaps a line more.
const PIECE: usize = 32_768;

/// Answers a request, and ends its connection. The map goes out in pieces, as the peer takes them.
///
/// # Errors
///
/// If a write fails or memory is refused. Of the map then a front was written, without its end.
pub(crate) fn answer<O: Write>(
    alloc: Global,
    output: &mut O,
    request: MapRequest,
    desk: &Desk,
) -> io::Result<()> {
    match request.asked {
        MapAsked::Map => {
            output.write_all(map_head(alloc, request.reads_chunks, desk)?.as_bytes())?;
            write_map(alloc, output, request.reads_chunks, desk.published())
        }
        MapAsked::MapWithTraces => {
            output.write_all(map_head(alloc, request.reads_chunks, desk)?.as_bytes())?;
            write_traces(alloc, output, request.reads_chunks, desk.published())?;
            write_map(alloc, output, request.reads_chunks, desk.published())
        }
        asked => output.write_all(refusal_text(asked).as_bytes()),
    }
}

/// The answer to what gets no map.
fn refusal_text(asked: MapAsked) -> &'static str {
    match asked {
        MapAsked::FromBrowser => {
            "HTTP/1.1 403 Forbidden\r\nContent-Type: text/plain\r\nContent-Length: 18\r\nConnection: close\r\n\r\nnot for a browser\n"
        }
        MapAsked::OtherMethod => {
            "HTTP/1.1 405 Method Not Allowed\r\nAllow: GET\r\nContent-Type: text/plain\r\nContent-Length: 4\r\nConnection: close\r\n\r\nGET\n"
        }
        MapAsked::Map | MapAsked::MapWithTraces | MapAsked::OtherPath => {
            "HTTP/1.1 404 Not Found\r\nContent-Type: text/plain\r\nContent-Length: 5\r\nConnection: close\r\n\r\n/map\n"
        }
    }
}

/// Writes what is remembered of withdrawals: for each a publish of a placeholder, and its withdrawal.
fn write_traces<O: Write>(
    alloc: Global,
    output: &mut O,
    in_chunks: bool,
    book: &Routing,
) -> io::Result<()> {
    for position in 0..book.traces() {
        let (identity, stamp) = book.trace(position);
        let lines = trace_lines(alloc, identity, stamp)?;
        write_piece(alloc, output, in_chunks, lines.as_slice())?;
    }
    Ok(())
}

/// Writes a map: a publish for each mapping, in order, and one commit.
fn write_map<O: Write>(
    alloc: Global,
    output: &mut O,
    in_chunks: bool,
    book: &Routing,
) -> io::Result<()> {
    let mut from = 0;
    while from < book.len() {
        let piece = piece_from(alloc, book, from)?;
        write_piece(alloc, output, in_chunks, piece.text.as_slice())?;
        from = piece.next;
    }
    write_piece(alloc, output, in_chunks, COMMIT_LINE)?;
    if in_chunks {
        output.write_all(b"0\r\n\r\n")?;
    }
    Ok(())
}

/// The head of the answer with the map (RFC 9112, section 4): its edition and its digest are fields.
fn map_head(alloc: Global, in_chunks: bool, desk: &Desk) -> Result<String, AllocError> {
    let edition = desk.edition();
    let digest = desk.digest().text(alloc)?;
    let coding = if in_chunks {
        "Transfer-Encoding: chunked\r\n"
    } else {
        ""
    };
    format!(in alloc;
        "HTTP/1.1 200 OK\r\nContent-Type: application/jsonl; charset=utf-8\r\nEdition: {edition}\r\nMap: {digest}\r\n{coding}Connection: close\r\n\r\n"
    )
}

/// Writes a piece of a body, as a chunk if the body goes out in chunks (RFC 9112, section 7.1).
fn write_piece<O: Write>(
    alloc: Global,
    output: &mut O,
    in_chunks: bool,
    text: &[u8],
) -> io::Result<()> {
    if !in_chunks {
        return output.write_all(text);
    }
    let size = text.len();
    let before = format!(in alloc; "{size:x}\r\n")?;
    output.write_all(before.as_bytes())?;
    output.write_all(text)?;
    output.write_all(b"\r\n")
}

/// A piece of a map's lines.
#[derive(Drop)]
struct MapPiece {
    /// The lines.
    text: Vec<u8>,
    /// The position of the mapping behind them.
    next: usize,
}

/// The lines of the mappings from a position on, up to some 32 KiB and at least one.
fn piece_from(alloc: Global, book: &Routing, from: usize) -> Result<MapPiece, AllocError>
    requires { from < length book.now.mappings }
    ensures { IfOk result (λ piece. IsPiece book.now.mappings from piece.next piece.text.items) }
{
    let bound = book.len();
    let mut text = publish_line(alloc, book.mapping(from))?;
    let mut next = from + 1;
    while next < bound && text.len() < PIECE {
        let line = publish_line(alloc, book.mapping(next))?;
        text.extend_from_slice(line.as_slice())?;
        next += 1;
    }
    Ok(MapPiece { text, next })
}
