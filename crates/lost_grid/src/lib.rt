//! Cells of seven sizes over the plane of latitudes and longitudes. A ring is kept under the cells that its bounds
//! meet, at the least level at which they are at most eight. A point is looked up in its one cell of each level.
#![tactic(auto)]

pub use cell::Cell;
pub use cover::MAX_CELLS;
pub use geodetic::Geodetic2d;

mod cell;
mod cover;
mod geodetic;
mod lines;
mod probe;
pub mod rows;
