//! The rings and the point of the rows.

use lost_geo::{GeoPoint, Polygon};
use std::alloc::Global;
use std::io;

/// Latitudes and longitudes of two opposite corners: south, west, north, east.
pub(crate) type Corners = (i64, i64, i64, i64);

/// A square of a degree.
pub(crate) const NEAR: Corners = (0, 0, 10_000_000, 10_000_000);

/// One far from it.
pub(crate) const FAR: Corners = (50_000_000, 50_000_000, 60_000_000, 60_000_000);

/// A little under two cells of level 2 high, and two of them high; both are a little under four of them wide.
pub(crate) const UNDER_TWO: Corners = (0, 0, 8_388_607, 16_777_215);

pub(crate) const TWO: Corners = (0, 0, 8_388_608, 16_777_215);

/// The whole earth.
pub(crate) const EARTH: Corners = (-900_000_000, -1_800_000_000, 900_000_000, 1_800_000_000);

/// The ring of a square.
pub(crate) fn square(alloc: Global, corners: Corners) -> io::Result<Polygon> {
    let (south, west, north, east) = corners;
    let mut ring = Vec::new(alloc);
    for (lat, lon) in [
        (south, west),
        (south, east),
        (north, east),
        (north, west),
        (south, west),
    ] {
        ring.push(point(lat, lon)?)?;
    }
    match Polygon::new(ring) {
        Ok(polygon) => Ok(polygon),
        Err(_) => Err(io::Error::from(io::ErrorKind::InvalidInput)),
    }
}

/// The position at a latitude and a longitude.
pub(crate) fn point(lat: i64, lon: i64) -> io::Result<GeoPoint> {
    match GeoPoint::new(lat, lon) {
        Ok(point) => Ok(point),
        Err(_) => Err(io::Error::from(io::ErrorKind::InvalidInput)),
    }
}
