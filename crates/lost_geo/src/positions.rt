//! Which latitudes and longitudes make a ring, before memory is taken for their points.

ghost use Rattle.std.specs.Prelude.{◌≡◌, ◌<◌, length, map, is_none};
ghost use Rattle.std.specs.List.{list_all};
ghost use Rattle.lost_spec.specs.Place.{is_ring, point_of};
ghost use Rattle.lost_spec.specs.Ring.{point_fault, same_point, ring_fault, is_closed as is_closed_list};

use crate::point::GeoPoint;
use crate::polygon::{MAX_POSITIONS, MIN_POSITIONS};

/// How to read positions from the items of a list, such as pairs of numbers or values of a tree.
pub trait Positions {
    ghost use Rattle.std.specs.Prelude.{◌≡◌, ℤ};

    /// An item that holds a position.
    type Item;

    // The latitude and the longitude of an item.
    ghost position_of: { Self.Item → ℤ × ℤ };

    /// The latitude and the longitude of an item, in whole 1e-7 degrees.
    fn position(item: &Self::Item) -> (i64, i64)
        ensures { result ≡ position_of item.now };
}

/// A pair is its own position.
impl Positions for (i64, i64) {
    type Item = (i64, i64);

    ghost position_of = { λ pair. pair };

    fn position(item: &(i64, i64)) -> (i64, i64) {
        *item
    }
}

/// Whether these latitudes and longitudes are points, and together a ring: whether `GeoPoint::new` takes each of them,
/// and `Polygon::new` all the points (RFC 5222, section 12.2; own bounds). It takes no memory.
pub fn is_ring(positions: &[(i64, i64)]) -> bool
    ensures { result ≡ is_ring positions.now }
{
    is_ring_of::<(i64, i64)>(positions)
}

/// The same for items that hold positions.
pub fn is_ring_of<T: Positions>(items: &[T::Item]) -> bool
    ensures { result ≡ is_ring (map T.position_of items.now) }
{
    are_points::<T>(items) && make_ring::<T>(items)
}

fn are_points<T: Positions>(items: &[T::Item]) -> bool
    ensures { result ≡ list_all (λ position. is_none (point_fault position.0 position.1)) (map T.position_of items.now) }
{
    items.iter().all(|item| is_point(T::position(item)))
}

fn is_point(position: (i64, i64)) -> bool
    ensures { result ≡ is_none (point_fault position.0 position.1) }
{
    match GeoPoint::new(position.0, position.1) {
        Ok(_) => true,
        Err(_) => false,
    }
}

/// Whether there are 4 to 4,096 positions, and the last is equal to the first.
fn make_ring<T: Positions>(items: &[T::Item]) -> bool
    ensures { result ≡ is_none (ring_fault (map point_of (map T.position_of items.now))) }
{
    items.len() >= MIN_POSITIONS && items.len() <= MAX_POSITIONS && is_closed::<T>(items)
}

/// Whether the last position is equal to the first.
fn is_closed<T: Positions>(items: &[T::Item]) -> bool
    requires { 0 < length items.now }
    ensures { result ≡ is_closed_list (map point_of (map T.position_of items.now)) }
{
    is_same(T::position(&items[0]), T::position(&items[items.len() - 1]))
}

fn is_same(first: (i64, i64), last: (i64, i64)) -> bool
    ensures { result ≡ same_point (point_of first) (point_of last) }
{
    first.0 == last.0 && first.1 == last.1
}
