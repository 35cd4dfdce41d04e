//! The least and the greatest latitude and longitude of a ring.

ghost use Rattle.std.specs.Prelude.{◌≡◌, [], ◌∷◌};
ghost use Rattle.std.specs.Int.{int_min, int_max};
ghost use Rattle.lost_geo.specs.Bounds.{is_from_to as is_in_order};
ghost use Rattle.lost_geo.specs.Ranges.{IsLon};

use crate::point::GeoPoint;

/// The least and the greatest latitude and longitude of a ring's positions, in whole 1e-7 degrees. They take 16 bytes.
#[derive(Clone, Copy, PartialEq, Eq, Hash, Debug)]
pub struct Bounds {
    /// The least latitude.
    pub lat_min: i32,
    /// The greatest latitude.
    pub lat_max: i32,
    /// The least longitude.
    pub lon_min: i32,
    /// The greatest longitude.
    pub lon_max: i32,
}

impl Bounds {
    ghost use Rattle.lost_geo.specs.Bounds.{bounds_of, is_within_bounds, AreInRange};
    ghost use Rattle.lost_geo.specs.Runs.{between};

    /// The bounds of a list of positions that begins with `first`.
    pub(crate) fn of(first: &GeoPoint, rest: &[GeoPoint]) -> Bounds
        ensures bounds { result ≡ bounds_of (first.now ∷ rest.now) }
        ensures in_range { AreInRange result }
    {
        let mut bounds = Bounds::at(first);
        for place in rest {
            bounds = bounds.widened(place);
        }
        bounds
    }

    /// The bounds of one position.
    fn at(place: &GeoPoint) -> Bounds
        ensures bounds { result ≡ bounds_of (place.now ∷ []) }
        ensures in_range { AreInRange result }
    {
        let (lat, lon) = (place.lat() as i32, place.lon() as i32);
        Bounds {
            lat_min: lat,
            lat_max: lat,
            lon_min: lon,
            lon_max: lon,
        }
    }

    /// The bounds between two corners.
    pub(crate) fn between(low: &GeoPoint, high: &GeoPoint) -> Bounds
        ensures { result ≡ between low.now high.now }
    {
        let (lat_min, lon_min) = low.pair();
        let (lat_max, lon_max) = high.pair();
        Bounds {
            lat_min,
            lat_max,
            lon_min,
            lon_max,
        }
    }

    /// The corners that these bounds are between.
    pub(crate) fn corners(&self) -> (GeoPoint, GeoPoint)
        requires { AreInRange self.now }
        ensures { between result.0 result.1 ≡ self.now }
    {
        (
            GeoPoint::at(i64::from(self.lat_min), i64::from(self.lon_min)),
            GeoPoint::at(i64::from(self.lat_max), i64::from(self.lon_max)),
        )
    }

    /// These bounds, widened to hold one more position.
    fn widened(self, place: &GeoPoint) -> Bounds
        requires { AreInRange self }
        ensures lat_min { result.lat_min ≡ int_min self.lat_min place.now.lat }
        ensures lat_max { result.lat_max ≡ int_max self.lat_max place.now.lat }
        ensures lon_min { result.lon_min ≡ int_min self.lon_min place.now.lon }
        ensures lon_max { result.lon_max ≡ int_max self.lon_max place.now.lon }
        ensures in_range { AreInRange result }
    {
        let (lat, lon) = (place.lat(), place.lon());
        Bounds {
            lat_min: lesser(self.lat_min, lat),
            lat_max: greater(self.lat_max, lat),
            lon_min: lesser(self.lon_min, lon),
            lon_max: greater(self.lon_max, lon),
        }
    }

    /// Whether the place is within, the four bounds included.
    pub(crate) fn holds(&self, place: &GeoPoint) -> bool
        ensures { result ≡ is_within_bounds self.now place.now }
    {
        is_from_to(self.lat_min, self.lat_max, place.lat())
            && is_from_to(self.lon_min, self.lon_max, place.lon())
    }
}

/// The lesser of a bound and a coordinate.
fn lesser(bound: i32, coordinate: i64) -> i32
    requires { IsLon coordinate }
    ensures { result ≡ int_min bound coordinate }
{
    i64::from(bound).min(coordinate) as i32
}

/// The greater of a bound and a coordinate.
fn greater(bound: i32, coordinate: i64) -> i32
    requires { IsLon coordinate }
    ensures { result ≡ int_max bound coordinate }
{
    i64::from(bound).max(coordinate) as i32
}

/// Whether the number lies from `low` to `high`, both included.
fn is_from_to(low: i32, high: i32, number: i64) -> bool
    ensures { result ≡ is_in_order low high number }
{
    i64::from(low) <= number && number <= i64::from(high)
}
