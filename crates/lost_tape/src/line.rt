//! A line as one list of tokens.
ghost use Rattle.std.specs.Prelude.{◌≡◌, ℕ, List, Some, None, Ok, IfSome, OnSome, option_and_then};
ghost use Rattle.serde_json.specs.Read.{read};
ghost use Rattle.lost_mapping.specs.Request.{request_of};
ghost use Rattle.lost_reading.specs.Desk.{order_in, desk_line};
ghost use Rattle.lost_reading.specs.Lines.{GivesWhole};
ghost use Rattle.lost_reading.specs.Requests.{request_in, line_request};
ghost use Rattle.lost_tape.specs.Tapes.{data_of, IsTapeOf};

use crate::compact::read_compact;
use crate::compact_desk::read_compact_desk;
use crate::nesting::are_sure;
use crate::requests::read_root;
use crate::tree::Tree;
use json::{Scratch, Tape};
use lost_mapping::Request;
use lost_reading::Line;
use std::alloc::Global;

/// The longest line that is read by tokens, in bytes.
const MAX_TAPE_BYTES: usize = 131_072;

/// Reads a request line of a common shape by its tokens (RFC 5222, sections 8 to 12; own format). `None` says nothing
/// of the line, and comes if memory is refused too: the tree decides then. The request borrows its texts from the line,
/// or from `scratch` if they have escapes. `scratch` keeps its memory from line to line.
pub fn read_common<'a>(
    alloc: Global,
    line: &'a [u8],
    scratch: &'a mut Scratch,
) -> Option<Request<'a>>
    ensures request { IfSome result (λ request. line_request line.now ≡ Some (request_of request)) }
    ensures no_desk_line { OnSome result (desk_line line.now ≡ None) }
{
    if let Some(request) = read_compact(alloc, line) {
        return Some(request);
    }
    match read_less_compact(alloc, line, scratch) {
        Some(Line::Request(request)) => Some(request),
        _ => None,
    }
}

/// Reads a line of a common shape by its tokens: a request, or a desk line that publishes or replaces a mapping and is
/// not refused (own format). `None` says nothing of the line, as in [`read_common`]. Those that [`read_compact`] reads are
/// read sooner there.
pub(crate) fn read_less_compact<'a>(
    alloc: Global,
    line: &'a [u8],
    scratch: &'a mut Scratch,
) -> Option<Line<'a>>
    ensures { IfSome result (λ found. GivesWhole (Ok found) (desk_line line.now) (line_request line.now)) }
{
    match read_compact_desk(alloc, line) {
        Some(order) => Some(Line::Desk(order)),
        None => read_by_tokens(alloc, line, scratch),
    }
}

/// What a line is, by its tokens.
fn read_by_tokens<'a>(alloc: Global, line: &'a [u8], scratch: &'a mut Scratch) -> Option<Line<'a>>
    ensures { IfSome result (λ found. GivesWhole (Ok found) (desk_line line.now) (line_request line.now)) }
{
    if line.len() > MAX_TAPE_BYTES {
        return None;
    }
    match std::str::from_utf8(line) {
        Ok(text) => read_text(alloc, text, scratch),
        Err(_) => None,
    }
}

/// What a text is.
fn read_text<'a>(alloc: Global, text: &'a str, scratch: &'a mut Scratch) -> Option<Line<'a>>
    ensures { IfSome result (λ found. GivesWhole (Ok found) (option_and_then order_in (read text.now)) (option_and_then request_in (read text.now))) }
{
    match Tape::parse(text, scratch, Vec::new(alloc)) {
        Ok(tape) => read_tape(alloc, &tape),
        Err(_) => None,
    }
}

/// What the list of tokens of a text's value is.
fn read_tape<'a>(alloc: Global, tape: &Tape<'a>) -> Option<Line<'a>>
    requires { (text : List ℕ) × IsTapeOf text tape.now }
    ensures { (text : List ℕ) → IsTapeOf text tape.now → IfSome result (λ found.
        GivesWhole (Ok found) (option_and_then order_in (read text)) (option_and_then request_in (read text))) }
{
    let root = root_of(tape)?;
    read_root(alloc, &root)
}

/// The value of a list of tokens, if its numbers are whole and it nests no deeper than a tree may.
fn root_of<'t, 'a>(tape: &'t Tape<'a>) -> Option<Tree<'t, 'a>>
    requires { (text : List ℕ) × IsTapeOf text tape.now }
    ensures { (text : List ℕ) → IsTapeOf text tape.now → IfSome result (λ root. read text ≡ Some (data_of root)) }
{
    let nodes = tape.nodes();
    if !are_sure(nodes) {
        return None;
    }
    Some(Tree {
        element: tape.root(),
    })
}
