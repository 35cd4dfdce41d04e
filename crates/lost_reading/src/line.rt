//! Whole lines, each read once: a desk line, a request, or neither.
ghost use Rattle.serde_json.specs.View.{view};
ghost use Rattle.lost_reading.specs.Desk.{order_of_member, order_in, desk_line};
ghost use Rattle.lost_reading.specs.Requests.{request_of_member, request_in, line_request};
ghost use Rattle.lost_reading.specs.Lines.{GivesWhole};

use crate::desk::{DeskFault, DeskLine, is_desk_name, read_order};
use crate::known_members::read_tree;
use crate::reading::only_member;
use crate::request::{ReadError, read_member_request};
use lost_mapping::Request;
use lost_spec::faults::MappingError;
use serde_json::Value;
use std::alloc::Global;

/// What a line is. A request borrows its texts from the line, or owns them.
#[derive(Drop)]
pub enum Line<'a> {
    /// A desk line, and what it orders.
    Desk(DeskLine),
    /// A request line.
    Request(Request<'a>),
    /// Neither a desk line nor a request.
    Neither,
}

/// Reads a line (own format) from one tree: a desk line as [`crate::read_desk`] does, any other as
/// [`crate::read_request`] does.
///
/// # Errors
///
/// Those of [`crate::read_desk`]. A memory refusal may replace any other answer.
pub fn read_line_by_tree<'a>(alloc: Global, line: &[u8]) -> Result<Line<'a>, DeskFault>
    ensures { GivesWhole result (desk_line line.now) (line_request line.now) }
{
    match read_tree(alloc, line) {
        Ok(tree) => read_tree_line(alloc, &tree),
        Err(ReadError::BadRequest) => Ok(Line::Neither),
        Err(ReadError::Memory) => Err(DeskFault::Mapping(MappingError::Memory)),
    }
}

/// What the tree of a line is.
fn read_tree_line<'a>(alloc: Global, tree: &Value) -> Result<Line<'a>, DeskFault>
    ensures { GivesWhole result (order_in (view tree.now)) (request_in (view tree.now)) }
{
    match only_member(tree) {
        Some((name, value)) => read_member_line(alloc, name, value),
        None => Ok(Line::Neither),
    }
}

/// What the one member of a line is.
fn read_member_line<'a>(alloc: Global, name: &str, value: &Value) -> Result<Line<'a>, DeskFault>
    ensures { GivesWhole result (order_of_member (name.now, view value.now)) (request_of_member (name.now, view value.now)) }
{
    if is_desk_name(name) {
        return Ok(Line::Desk(read_order(alloc, name, value)?));
    }
    match read_member_request(alloc, name, value) {
        Ok(request) => Ok(Line::Request(request)),
        Err(ReadError::BadRequest) => Ok(Line::Neither),
        Err(ReadError::Memory) => Err(DeskFault::Mapping(MappingError::Memory)),
    }
}
