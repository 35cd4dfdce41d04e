//! A point of the plane of latitudes and longitudes.

ghost use Rattle.std.specs.Prelude.{◌≡◌, IfOk, if◌then◌else◌, pos, neg_ℤ, ◌-ℤ◌};
ghost use Rattle.std.specs.Ordering.{int_eq};
ghost use Rattle.std.specs.Result.{result_err};
ghost use Rattle.lost_spec.specs.Ring.{Point, lat_limit, lon_limit, point_fault, normal};
ghost use Rattle.lost_geo.specs.Ranges.{IsLat, IsLon, IsInRange};

use lost_spec::faults::GeoError;
use std::marker::Model;

/// The greatest latitude; the least is its negative.
const LAT_LIMIT: i64 = 900_000_000;

/// The greatest longitude; the least is its negative.
const LON_LIMIT: i64 = 1_800_000_000;

/// A position: latitude and longitude in whole 1e-7 degrees, within -900,000,000 to 900,000,000 and
/// -1,800,000,000 to 1,800,000,000 (RFC 5222, section 12.2; unit own). It takes 8 bytes. Contracts see it as `Point`.
#[derive(Clone, Copy, PartialEq, Eq, Hash, Debug)]
pub struct GeoPoint {
    lat: i32,
    lon: i32,
}

impl Model for GeoPoint {
    ghost Value = { Point };

    ghost view = { λ a. record { lat = a.lat; lon = a.lon } };

    ghost invariant = { λ a. IsInRange (record { lat = a.lat; lon = a.lon }) };

    ghost inverse = { λ p. record { lat = p.lat; lon = p.lon } };
}

impl GeoPoint {
    /// The point at this latitude and longitude.
    ///
    /// # Errors
    ///
    /// In this order: [`GeoError::Latitude`] and [`GeoError::Longitude`], where the number is outside its range.
    pub fn new(lat: i64, lon: i64) -> Result<GeoPoint, GeoError>
        ensures refused { result_err result ≡ point_fault lat lon }
        ensures point { IfOk result (λ point. point ≡ record { lat = lat; lon = lon }) }
    {
        if lat < -LAT_LIMIT || lat > LAT_LIMIT {
            return Err(GeoError::Latitude);
        }
        if lon < -LON_LIMIT || lon > LON_LIMIT {
            return Err(GeoError::Longitude);
        }
        Ok(GeoPoint::at(lat, lon))
    }

    /// The point at a latitude and a longitude that are within their ranges, and so fit 32 bits.
    pub(crate) fn at(lat: i64, lon: i64) -> GeoPoint
        requires lat { IsLat lat }
        requires lon { IsLon lon }
        ensures lat { result.lat ≡ lat }
        ensures lon { result.lon ≡ lon }
    {
        GeoPoint {
            lat: lat as i32,
            lon: lon as i32,
        }
    }

    /// The latitude in whole 1e-7 degrees.
    pub fn lat(&self) -> i64
        ensures lat { result ≡ self.now.lat }
        ensures in_range { IsInRange self.now }
    {
        self.lat as i64
    }

    /// The longitude in whole 1e-7 degrees.
    pub fn lon(&self) -> i64
        ensures lon { result ≡ self.now.lon }
        ensures in_range { IsInRange self.now }
    {
        self.lon as i64
    }

    /// The latitude and the longitude, as they are kept.
    pub(crate) fn pair(&self) -> (i32, i32)
        ensures lat { result.0 ≡ self.now.lat }
        ensures lon { result.1 ≡ self.now.lon }
    {
        (self.lat, self.lon)
    }

    /// The normal form: longitude 1,800,000,000 is taken at -1,800,000,000, and latitude 900,000,000 at
    /// 899,999,999.
    pub fn normal(&self) -> GeoPoint
        ensures normal { result ≡ normal self.now }
        ensures in_range { IsInRange result }
    {
        GeoPoint::at(normal_lat(self.lat()), normal_lon(self.lon()))
    }
}

/// The latitude of the normal form.
fn normal_lat(lat: i64) -> i64
    requires { IsLat lat }
    ensures normal { result ≡ (if int_eq lat lat_limit then lat_limit -ℤ pos 1 else lat) }
    ensures in_range { IsLat result }
{
    if lat == LAT_LIMIT { LAT_LIMIT - 1 } else { lat }
}

/// The longitude of the normal form.
fn normal_lon(lon: i64) -> i64
    requires { IsLon lon }
    ensures normal { result ≡ (if int_eq lon lon_limit then neg_ℤ lon_limit else lon) }
    ensures in_range { IsLon result }
{
    if lon == LON_LIMIT { -LON_LIMIT } else { lon }
}
