//! Reads what lines of a journal order.
ghost use Rattle.std.specs.Prelude.{◌≡◌, ◌∷◌, ◌++◌, [], IsTrue, IfOk, Some, Ok};
ghost use Rattle.lost_reading.specs.Desk.{Commit, desk_line};
ghost use Rattle.lost_reading.specs.DeskLines.{GivesLine};
ghost use Rattle.lost_keeping.specs.Kept.{OrdersCommit};

use lost_journal::{CLOSED, OPEN};
use lost_json::{DeskFault, DeskLine};
use lost_reading::Line;
use lost_spec::faults::MappingError;
use lost_tape::{Scratch, read_line};
use std::alloc::{AllocError, Global};

/// Reads a desk line; `None` if the line is no desk line.
pub(crate) fn read_order(
    alloc: Global,
    line: &[u8],
    scratch: &mut Scratch,
) -> Result<Option<DeskLine>, DeskFault>
    ensures { GivesLine result (desk_line line.now) }
{
    match read_line(alloc, line, scratch)? {
        Line::Desk(order) => Ok(Some(order)),
        Line::Request(_) | Line::Neither => Ok(None),
    }
}

/// Whether a line orders a commit.
///
/// # Errors
///
/// If memory is refused.
pub(crate) fn is_commit_order(
    alloc: Global,
    line: &[u8],
    scratch: &mut Scratch,
) -> Result<bool, AllocError>
    ensures { IfOk result (λ is_commit. IsTrue is_commit → desk_line line.now ≡ Some (Ok Commit)) }
{
    match read_order(alloc, line, scratch) {
        Ok(Some(DeskLine::Commit)) => Ok(true),
        Ok(_) => Ok(false),
        Err(DeskFault::Mapping(MappingError::Memory)) => Err(AllocError),
        Err(_) => Ok(false),
    }
}

/// Whether a commit's line up to its gate orders a commit with either gate.
///
/// # Errors
///
/// If memory is refused.
pub(crate) fn orders_commit(
    alloc: Global,
    line: &[u8],
    scratch: &mut Scratch,
) -> Result<bool, AllocError>
    ensures { IfOk result (λ is_commit. IsTrue is_commit → OrdersCommit line.now) }
{
    let mut text = Vec::new(alloc);
    text.extend_from_slice(line)?;
    text.push(OPEN)?;
    if !is_commit_order(alloc, &text, scratch)? {
        return Ok(false);
    }
    let last = line.len();
    text[last] = CLOSED;
    is_commit_order(alloc, &text, scratch)
}
