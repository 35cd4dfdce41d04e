//! The cells that a position is in.

ghost use Rattle.std.specs.Prelude.{◌≡◌, map};
ghost use Rattle.lost_grid.specs.Grid.{cell_of, levels};

use crate::cell::Cell;
use crate::lines::LEVELS;
use lost_geo::GeoPoint;

/// The cells that a position is in, at the levels from 0 to 6.
pub(crate) fn cells_at(place: &GeoPoint) -> [Cell; LEVELS]
    ensures { result ≡ map (λ level. cell_of level place.now) levels }
{
    [
        Cell::of(0, place),
        Cell::of(1, place),
        Cell::of(2, place),
        Cell::of(3, place),
        Cell::of(4, place),
        Cell::of(5, place),
        Cell::of(6, place),
    ]
}
