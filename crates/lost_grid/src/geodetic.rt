//! The profile of points among rings.

ghost use Rattle.std.specs.Prelude.{◌≡◌};
ghost use Rattle.lost_spec.specs.Ring.{inside};
ghost use Rattle.lost_geo.specs.Bounds.{bounds_of, is_within_bounds, is_from_to as is_in_order};
ghost use Rattle.lost_geo.specs.Ranges.{IsInRange};
ghost use Rattle.lost_grid.specs.Areas.{IsArea, may_hold};
ghost use Rattle.lost_grid.specs.Grid.{cover_of, probes_of, kind_of};
ghost use Rattle.lost_grid.specs.BoundsAlike.{equal_bounds_agree};
ghost use Rattle.lost_grid.specs.CellsApart.{same_cell, same_cell_tells, equal_cells_are_of_one_kind};
ghost use Rattle.lost_grid.specs.CoverLaws.{cover_meets_probes, cover_is_distinct, cover_is_bounded, holder_is_near};

use crate::cell::Cell;
use crate::cover::{MAX_CELLS, cell_at, has_cell};
use crate::lines::LEVELS;
use crate::probe::cells_at;
use lost_geo::{Bounds, GeoPoint, Polygon};
use lost_profile::{KINDS, Profile};
use std::alloc::{AllocError, Global};

/// Points among rings (RFC 5222, section 12.2). A ring is kept under the cells that its bounds meet, at the least level
/// at which they are at most eight, and a point is looked up under the cells of its normal form at each level. An outline
/// is the bounds of the ring.
pub struct Geodetic2d;

impl Profile for Geodetic2d {
    type Location = GeoPoint;

    type Region = Polygon;

    type Key = Cell;

    type Probes = [Cell; LEVELS];

    type Outline = Bounds;

    ghost COVER_MAX = { 8 };

    const NAME: &'static str = "geodetic-2d";

    const COVER_MAX: usize = MAX_CELLS as usize;

    ghost is_region = { IsArea };

    ghost is_location = { IsInRange };

    ghost holds = { inside };

    ghost cover_of = { cover_of };

    ghost probes_of = { probes_of };

    ghost outline_of = { bounds_of };

    ghost may_hold = { may_hold };

    ghost kind_of = { kind_of };

    /// Whether the point is inside the ring.
    fn contains(region: &Polygon, location: &GeoPoint) -> bool {
        region.inside(location)
    }

    /// The cells that the ring's bounds meet, at the least level at which they are at most eight, by row, then by column.
    fn key_at(region: &Polygon, position: usize) -> Option<Cell> {
        cell_at(&region.bounds(), position)
    }

    fn has_key(region: &Polygon, key: &Cell) -> bool {
        has_cell(&region.bounds(), *key)
    }

    /// The cells of the point's normal form at the levels from 0 to 6. It takes no memory.
    fn probes(_alloc: Global, location: &GeoPoint) -> Result<[Cell; LEVELS], AllocError> {
        Ok(cells_at(&location.normal()))
    }

    /// The bounds of the ring.
    fn outline(region: &Polygon) -> Bounds {
        region.bounds()
    }

    /// Whether the point's normal form is within the bounds, all four included.
    fn is_near(outline: &Bounds, location: &GeoPoint) -> bool {
        is_within(outline, &location.normal())
    }

    /// The level of the cell.
    fn key_kind(key: &Cell) -> usize {
        usize::from(key.level) % KINDS
    }

    ghost cover_meets_probes = { cover_meets_probes };

    ghost cover_is_distinct = { λ region _. cover_is_distinct same_cell same_cell_tells region };

    ghost cover_is_bounded = { cover_is_bounded };

    ghost holder_is_near = { holder_is_near };

    ghost equal_outlines_agree = { equal_bounds_agree };

    ghost equal_keys_are_of_one_kind = { equal_cells_are_of_one_kind };
}

/// Whether the position is within the bounds, all four included.
fn is_within(bounds: &Bounds, place: &GeoPoint) -> bool
    ensures { result ≡ is_within_bounds bounds.now place.now }
{
    is_from_to(bounds.lat_min, bounds.lat_max, place.lat())
        & is_from_to(bounds.lon_min, bounds.lon_max, place.lon())
}

/// Whether the number lies from `low` to `high`, both included.
fn is_from_to(low: i32, high: i32, number: i64) -> bool
    ensures { result ≡ is_in_order low high number }
{
    (i64::from(low) <= number) & (number <= i64::from(high))
}
