//! The cells that bounds meet, at the least level at which they are at most eight.

ghost use Rattle.std.specs.Prelude.{◌≡◌, ◌≤◌, slice_get};
ghost use Rattle.std.specs.List.{list_any};
ghost use Rattle.lost_geo.specs.Bounds.{AreInRange};
ghost use Rattle.lost_grid.specs.CellsApart.{same_cell};
ghost use Rattle.lost_grid.specs.Grid.{are_few, level_of, cells_within};

use crate::cell::Cell;
use crate::lines::{Lines, MAX_LEVEL};
use lost_geo::Bounds;

/// The greatest number of cells of a cover: as many as the level of the largest cells has. With few, a ring takes few notes,
/// and the cells of a large map are so few that they stay near the processor.
pub const MAX_CELLS: u32 = 8;

/// The cell at a position among those that bounds meet at the least level at which they are at most [`MAX_CELLS`], by row
/// and then by column.
pub(crate) fn cell_at(bounds: &Bounds, position: usize) -> Option<Cell>
    requires { AreInRange bounds.now }
    ensures { result ≡ slice_get (cells_within (level_of bounds.now) bounds.now) position }
{
    let level = level_of(bounds);
    let columns = Lines::columns(level, bounds);
    let count = columns.count() as usize;
    if count == 0 {
        return None;
    }
    let Some(row) = Lines::rows(level, bounds).at(position / count) else {
        return None;
    };
    match columns.at(position % count) {
        Some(column) => Some(Cell { level, row, column }),
        None => None,
    }
}

/// Whether the cell is one of them.
pub(crate) fn has_cell(bounds: &Bounds, cell: Cell) -> bool
    requires { AreInRange bounds.now }
    ensures { result ≡ list_any (same_cell cell) (cells_within (level_of bounds.now) bounds.now) }
{
    let level = level_of(bounds);
    if cell.level != level {
        return false;
    }
    if !Lines::rows(level, bounds).has(cell.row) {
        return false;
    }
    Lines::columns(level, bounds).has(cell.column)
}

/// The least level at which bounds meet at most [`MAX_CELLS`] cells.
fn level_of(bounds: &Bounds) -> u8
    requires { AreInRange bounds.now }
    ensures level { result ≡ level_of bounds.now }
    ensures in_range { result ≤ 6 }
{
    for level in 0..MAX_LEVEL {
        if are_few(bounds, level) {
            return level;
        }
    }
    MAX_LEVEL
}

/// Whether bounds meet at most [`MAX_CELLS`] cells of a level.
fn are_few(bounds: &Bounds, level: u8) -> bool
    requires bounds { AreInRange bounds.now }
    requires level { level ≤ 6 }
    ensures { result ≡ are_few bounds.now level }
{
    Lines::rows(level, bounds).count() * Lines::columns(level, bounds).count() <= MAX_CELLS
}
