//! The profile of points among the polygons of mappings.
ghost use Rattle.lost_spec.specs.Ring.{inside};
ghost use Rattle.lost_geo.specs.Bounds.{bounds_of};
ghost use Rattle.lost_geo.specs.Ranges.{IsInRange};
ghost use Rattle.lost_grid.specs.Areas.{IsArea, may_hold};
ghost use Rattle.lost_grid.specs.Grid.{cover_of, probes_of, kind_of};
ghost use Rattle.lost_grid.specs.BoundsAlike.{equal_bounds_agree};
ghost use Rattle.lost_grid.specs.CellsApart.{same_cell, same_cell_tells, equal_cells_are_of_one_kind};
ghost use Rattle.lost_grid.specs.CoverLaws.{cover_meets_probes, cover_is_distinct, cover_is_bounded, holder_is_near};

use crate::mapped_polygon::MappedPolygon;
use lost_geo::{Bounds, GeoPoint};
use lost_grid::{Cell, Geodetic2d, MAX_CELLS};
use lost_location::GEODETIC_2D;
use lost_profile::Profile;
use std::alloc::{AllocError, Global};

/// Points among the polygons of mappings, as [`Geodetic2d`] has points among polygons.
pub(crate) struct MappedGeodetic2d;

impl Profile for MappedGeodetic2d {
    type Location = GeoPoint;

    type Region = MappedPolygon;

    type Key = Cell;

    type Probes = <Geodetic2d as Profile>::Probes;

    type Outline = Bounds;

    ghost COVER_MAX = { 8 };

    const NAME: &'static str = GEODETIC_2D;

    const COVER_MAX: usize = MAX_CELLS as usize;

    ghost is_region = { IsArea };

    ghost is_location = { IsInRange };

    ghost holds = { inside };

    ghost cover_of = { cover_of };

    ghost probes_of = { probes_of };

    ghost outline_of = { bounds_of };

    ghost may_hold = { may_hold };

    ghost kind_of = { kind_of };

    fn contains(region: &MappedPolygon, location: &GeoPoint) -> bool {
        Geodetic2d::contains(region.polygon(), location)
    }

    fn key_at(region: &MappedPolygon, position: usize) -> Option<Cell> {
        Geodetic2d::key_at(region.polygon(), position)
    }

    fn has_key(region: &MappedPolygon, key: &Cell) -> bool {
        Geodetic2d::has_key(region.polygon(), key)
    }

    fn probes(
        alloc: Global,
        location: &GeoPoint,
    ) -> Result<<Geodetic2d as Profile>::Probes, AllocError> {
        Geodetic2d::probes(alloc, location)
    }

    fn outline(region: &MappedPolygon) -> Bounds {
        Geodetic2d::outline(region.polygon())
    }

    fn is_near(outline: &Bounds, location: &GeoPoint) -> bool {
        Geodetic2d::is_near(outline, location)
    }

    fn key_kind(key: &Cell) -> usize {
        Geodetic2d::key_kind(key)
    }

    ghost cover_meets_probes = { cover_meets_probes };

    ghost cover_is_distinct = { λ region _. cover_is_distinct same_cell same_cell_tells region };

    ghost cover_is_bounded = { cover_is_bounded };

    ghost holder_is_near = { holder_is_near };

    ghost equal_outlines_agree = { equal_bounds_agree };

    ghost equal_keys_are_of_one_kind = { equal_cells_are_of_one_kind };
}
