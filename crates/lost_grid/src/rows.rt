//! The worked rows of cells. Each function's contract is a row, which the check proves by computing.

ghost use Rattle.lost_grid.specs.Rows.{CoversRow, FarRow, PolesRow, FullRow, NextLevelRow};

/// A square of a degree is kept under one cell of level 3, and a point is looked up under one cell of each level.
pub fn covers()
    ensures { CoversRow }
{}

/// A square that meets lines of the grid is kept under four cells of level 3.
pub fn far()
    ensures { FarRow }
{}

/// The whole earth is kept under the eight cells of level 6.
pub fn poles()
    ensures { PolesRow }
{}

/// What is a little under two cells of level 2 high and under four of them wide is kept under these eight.
pub fn full()
    ensures { FullRow }
{}

/// What reaches a third row of level 2 is kept under one cell of level 3.
pub fn next_level()
    ensures { NextLevelRow }
{}
