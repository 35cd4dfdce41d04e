//! A cell: one square of one level.

ghost use Rattle.std.specs.Prelude.{◌≡◌, ℕ, ◌≤◌, ◌++◌};
ghost use Rattle.std.proofs.Common.{rules};
ghost use Rattle.std.specs.Hash as fed;
ghost use Rattle.std.specs.Cmp.Rules.{hashing};

use crate::lines::line_of;
use lost_geo::GeoPoint;
use std::hash::{Hash, Hasher};

/// A square cell: its level from 0 to 6, and its row and column at that level. At level k the side is `2^(18+2k)` units
/// of 1e-7 degrees. Cells are ordered by level, then by row, then by column.
#[derive(Clone, Copy, PartialEq, Eq, PartialOrd, Ord, Debug)]
pub struct Cell {
    /// The level, from 0 to 6.
    pub level: u8,
    /// The row: the latitude divided by the side, rounded down.
    pub row: i16,
    /// The column: the longitude divided by the side, rounded down.
    pub column: i16,
}

impl Cell {
    ghost use Rattle.lost_grid.specs.Grid.{cell_of};

    /// The cell of a level that a position is in.
    pub(crate) fn of(level: u8, place: &GeoPoint) -> Cell
        requires { level ≤ 6 }
        ensures { result ≡ cell_of level place.now }
    {
        Cell {
            level,
            row: line_of(level, place.lat()),
            column: line_of(level, place.lon()),
        }
    }
}

/// Row and column are hashed as numbers of 64 bits, which takes fewer steps than their 16 bits do.
impl Hash for Cell {
    ghost hash_input = { λ cell. fed.u8 cell.level ++ fed.i64 cell.row ++ fed.i64 cell.column };

    ghost respects_eq = { Prim.search (hashing, rules) };

    fn hash<H: Hasher>(&self, state: &mut H) {
        state.write_u8(self.level);
        state.write_i64(i64::from(self.row));
        state.write_i64(i64::from(self.column));
    }
}
