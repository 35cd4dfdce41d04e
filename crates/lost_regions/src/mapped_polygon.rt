//! A polygon where its mapping keeps it.
ghost use Rattle.std.specs.Prelude.{◌≡◌, ◌<◌, Some, length, slice_get, IfOk};

use lost_geo::Polygon;
use lost_mapping::Mapping;
use std::alloc::AllocError;
use std::marker::Model;

/// One of a mapping's polygons, by its position: it keeps the mapping, and takes no memory for the polygon. Contracts see
/// it as the list of the polygon's positions.
#[derive(Drop)]
pub(crate) struct MappedPolygon {
    mapping: Mapping,
    position: usize,
}

impl Model for MappedPolygon {
    ghost use Rattle.std.specs.Prelude.{List};
    ghost use Rattle.lost_spec.specs.Ring.{Point};
    ghost use Rattle.lost_regions.specs.MappedPolygons.{polygon_at, HasPolygon};

    ghost Value = { List Point };

    ghost view = { λ a. polygon_at a.mapping a.position };

    ghost invariant = { λ a. HasPolygon a.mapping a.position };
}

impl MappedPolygon {
    /// The polygon at a position of a mapping's.
    pub(crate) fn of(mapping: &Mapping, position: usize) -> Result<MappedPolygon, AllocError>
        requires { position < length mapping.now.regions.polygons }
        ensures { IfOk result (λ polygon. slice_get mapping.now.regions.polygons position ≡ Some polygon) }
    {
        Ok(MappedPolygon {
            mapping: mapping.clone()?,
            position,
        })
    }

    /// The polygon.
    pub(crate) fn polygon(&self) -> &Polygon
        ensures { result.now ≡ self.now }
    {
        &self.mapping.polygons()[self.position]
    }
}
