//! Rings of regions as they are handed in.
ghost use Rattle.std.specs.Prelude.{◌≡◌, map, IfOk, None};
ghost use Rattle.std.specs.List.{list_all};
ghost use Rattle.lost_spec.specs.Place.{point_of, is_ring};
ghost use Rattle.lost_location.specs.Refusals.{Refuses, bad_unless, is_position};

use lost_geo::{GeoPoint, Polygon};
use lost_spec::faults::MappingError;
use std::alloc::Global;

/// The polygon of these positions.
pub(crate) fn read_polygon(alloc: Global, positions: &[(i64, i64)]) -> Result<Polygon, MappingError>
    ensures polygon { IfOk result (λ polygon. polygon ≡ map point_of positions.now) }
    ensures refuses { Refuses result (bad_unless (is_ring positions.now)) }
{
    let points = read_points(alloc, positions)?;
    match Polygon::new(points) {
        Ok(polygon) => with_runs(alloc, polygon),
        Err(_) => Err(MappingError::BadRegion),
    }
}

/// The same polygon, with what makes a search faster.
fn with_runs(alloc: Global, polygon: Polygon) -> Result<Polygon, MappingError>
    ensures polygon { IfOk result (λ same. same ≡ polygon) }
    ensures refuses { Refuses result None }
{
    match polygon.with_runs(alloc) {
        Ok(polygon) => Ok(polygon),
        Err(_) => Err(MappingError::Memory),
    }
}

fn read_points(alloc: Global, positions: &[(i64, i64)]) -> Result<Vec<GeoPoint>, MappingError>
    ensures points { IfOk result (λ points. points.items ≡ map point_of positions.now) }
    ensures refuses { Refuses result (bad_unless (list_all is_position positions.now)) }
{
    let Ok(mut points) = Vec::with_capacity(alloc, positions.len()) else {
        return Err(MappingError::Memory);
    };
    for position in positions {
        let point = read_point(*position)?;
        if points.push(point).is_err() {
            return Err(MappingError::Memory);
        }
    }
    Ok(points)
}

fn read_point(position: (i64, i64)) -> Result<GeoPoint, MappingError>
    ensures point { IfOk result (λ point. point ≡ point_of position) }
    ensures refuses { Refuses result (bad_unless (is_position position)) }
{
    match GeoPoint::new(position.0, position.1) {
        Ok(point) => Ok(point),
        Err(_) => Err(MappingError::BadRegion),
    }
}
