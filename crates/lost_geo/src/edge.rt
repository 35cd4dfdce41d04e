//! When an edge crosses at a place: the even-odd rule's test for one edge, and its count over a ring.

ghost use Rattle.std.specs.Prelude.{◌≡◌, ◌&&◌, ◌∷◌, ◌-ℤ◌, ◌*ℤ◌, int_le, int_lt};
ghost use Rattle.lost_spec.specs.Ring.{crosses as crosses_at, edges, crossings, is_odd};
ghost use Rattle.lost_geo.specs.Sides.{is_left_of, IsEastDifference, IsNorthDifference};

use crate::point::GeoPoint;

/// Whether an odd number of the edges between the positions cross at the place.
pub(crate) fn has_odd_crossings(positions: &[GeoPoint], place: &GeoPoint) -> bool
    ensures { result ≡ is_odd (crossings (edges positions.now) place.now) }
{
    match positions.split_first() {
        Some((first, rest)) => has_odd_crossings_from(first, rest, place),
        None => false,
    }
}

/// The same for positions that begin with `first`.
fn has_odd_crossings_from(first: &GeoPoint, rest: &[GeoPoint], place: &GeoPoint) -> bool
    ensures { result ≡ is_odd (crossings (edges (first.now ∷ rest.now)) place.now) }
{
    let mut odd = false;
    let mut from = first;
    for to in rest {
        odd ^= crosses(from, to, place);
        from = to;
    }
    odd
}

/// Whether the edge between two positions crosses at the place (own rule: lower and left edges belong, upper and
/// right ones do not). Most edges of a long ring are wholly above or wholly below, which one comparison tells.
fn crosses(from: &GeoPoint, to: &GeoPoint, place: &GeoPoint) -> bool
    ensures { result ≡ crosses_at (from.now, to.now) place.now }
{
    let lat = place.lat();
    let (begins_low, ends_low) = (from.lat() <= lat, to.lat() <= lat);
    if begins_low == ends_low {
        return false;
    }
    if begins_low {
        is_left(from, to, place)
    } else {
        is_left(to, from, place)
    }
}

/// Whether the place is to the left of the line from `low` to `high`.
fn is_left(low: &GeoPoint, high: &GeoPoint, place: &GeoPoint) -> bool
    ensures { result ≡ is_left_of low.now high.now place.now }
{
    has_smaller_area(
        east(low, place),
        north(low, high),
        east(low, high),
        north(low, place),
    )
}

/// How far `to` is east of `from`.
fn east(from: &GeoPoint, to: &GeoPoint) -> i64
    ensures difference { result ≡ to.now.lon -ℤ from.now.lon }
    ensures in_range { IsEastDifference result }
{
    to.lon() - from.lon()
}

/// How far `to` is north of `from`.
fn north(from: &GeoPoint, to: &GeoPoint) -> i64
    ensures difference { result ≡ to.now.lat -ℤ from.now.lat }
    ensures in_range { IsNorthDifference result }
{
    to.lat() - from.lat()
}

/// Whether the first two differences have a smaller product than the other two.
fn has_smaller_area(east: i64, north: i64, other_east: i64, other_north: i64) -> bool
    requires east { IsEastDifference east }
    requires north { IsNorthDifference north }
    requires other_east { IsEastDifference other_east }
    requires other_north { IsNorthDifference other_north }
    ensures { result ≡ int_lt (east *ℤ north) (other_east *ℤ other_north) }
{
    area(east, north) < area(other_east, other_north)
}

/// The product of two differences. It fits 64 bits, since 3,600,000,000 times 1,800,000,000 is below 2^63.
fn area(east: i64, north: i64) -> i64
    requires east { IsEastDifference east }
    requires north { IsNorthDifference north }
    ensures { result ≡ east *ℤ north }
{
    east * north
}
