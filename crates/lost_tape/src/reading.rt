//! Reads lines of a common shape by tokens, and any other by its tree.
ghost use Rattle.lost_mapping.specs.Request.{request_of};
ghost use Rattle.lost_reading.specs.Desk.{desk_line};
ghost use Rattle.lost_reading.specs.Gives.{Gives};
ghost use Rattle.lost_reading.specs.Lines.{GivesWhole};
ghost use Rattle.lost_reading.specs.Requests.{line_request};

use crate::compact::read_compact;
use crate::line::read_less_compact;
use json::Scratch;
use lost_mapping::Request;
use lost_reading::{DeskFault, Line, ReadError};
use std::alloc::Global;

/// Reads a line (own format) as [`lost_reading::read_line_by_tree`] does, with its errors, and sooner if its shape is
/// common. A request borrows its texts as in [`crate::read_common`]. `scratch` keeps its memory from line to line.
pub fn read_line<'a>(
    alloc: Global,
    line: &'a [u8],
    scratch: &'a mut Scratch,
) -> Result<Line<'a>, DeskFault>
    ensures { GivesWhole result (desk_line line.now) (line_request line.now) }
{
    // The lines that are sent most are read first, into the result itself.
    if let Some(request) = read_compact(alloc, line) {
        return Ok(Line::Request(request));
    }
    match read_less_compact(alloc, line, scratch) {
        Some(found) => Ok(found),
        None => lost_reading::read_line_by_tree(alloc, line),
    }
}

/// Reads a request line as [`lost_reading::read_request`] does, with its errors, and sooner if its shape is common.
/// It borrows its texts as in [`crate::read_common`]. `scratch` keeps its memory from line to line.
pub fn read_request<'a>(
    alloc: Global,
    line: &'a [u8],
    scratch: &'a mut Scratch,
) -> Result<Request<'a>, ReadError>
    ensures { Gives request_of result (line_request line.now) }
{
    if let Some(request) = read_compact(alloc, line) {
        return Ok(request);
    }
    match read_less_compact(alloc, line, scratch) {
        Some(Line::Request(request)) => Ok(request),
        _ => lost_reading::read_request(alloc, line),
    }
}
