//! Rows and columns: which of a level meet a range of latitudes or longitudes.

ghost use Rattle.std.specs.Prelude.{◌≡◌, ℕ, ◌≤◌, length, slice_get, IfSome, pos, ◌+ℤ◌, ◌≤ℤ◌};
ghost use Rattle.std.specs.List.{list_any};
ghost use Rattle.std.specs.Ordering.{int_eq};
ghost use Rattle.lost_geo.specs.Bounds.{AreInRange};
ghost use Rattle.lost_grid.specs.Lines.{line_of, IsOnEarth, IsLine, rows, columns};

use lost_geo::Bounds;

/// The level of the largest cells.
pub(crate) const MAX_LEVEL: u8 = 6;

/// The number of levels.
pub(crate) const LEVELS: usize = 7;

/// The row of a latitude, or the column of a longitude, at a level: divided by the side of its cells, rounded down.
pub(crate) fn line_of(level: u8, degrees: i64) -> i16
    requires level { level ≤ 6 }
    requires on_earth { IsOnEarth degrees }
    ensures line { result ≡ line_of level degrees }
    ensures in_range { IsLine result }
{
    (degrees >> (18 + 2 * level)) as i16
}

/// Consecutive rows or columns.
#[derive(Clone, Copy)]
pub(crate) struct Lines {
    /// The first one.
    pub(crate) first: i16,
    /// The one after the last.
    pub(crate) end: i16,
}

impl Lines {
    ghost use Rattle.lost_grid.specs.Stretch.{numbers, IsStretch};

    /// The rows of a level that bounds meet.
    pub(crate) fn rows(level: u8, bounds: &Bounds) -> Lines
        requires level { level ≤ 6 }
        requires bounds { AreInRange bounds.now }
        ensures rows { numbers result ≡ rows level bounds.now }
        ensures in_range { IsStretch result }
    {
        Lines::between(level, i64::from(bounds.lat_min), i64::from(bounds.lat_max))
    }

    /// The columns of a level that bounds meet.
    pub(crate) fn columns(level: u8, bounds: &Bounds) -> Lines
        requires level { level ≤ 6 }
        requires bounds { AreInRange bounds.now }
        ensures columns { numbers result ≡ columns level bounds.now }
        ensures in_range { IsStretch result }
    {
        Lines::between(level, i64::from(bounds.lon_min), i64::from(bounds.lon_max))
    }

    /// The rows or columns of a level, from the one of `low` to the one of `high`.
    fn between(level: u8, low: i64, high: i64) -> Lines
        requires level { level ≤ 6 }
        requires low { IsOnEarth low }
        requires high { IsOnEarth high }
        requires order { low ≤ℤ high }
        ensures first { result.first ≡ line_of level low }
        ensures end { result.end ≡ line_of level high +ℤ pos 1 }
        ensures in_range { IsStretch result }
    {
        Lines {
            first: line_of(level, low),
            end: line_of(level, high) + 1,
        }
    }

    /// How many there are.
    pub(crate) fn count(self) -> u32
        requires { IsStretch self }
        ensures count { result ≡ length (numbers self) }
        ensures in_range { result ≤ 13_734 }
    {
        (self.end - self.first) as u32
    }

    /// The one at a position; `None` behind the last.
    pub(crate) fn at(self, position: usize) -> Option<i16>
        requires { IsStretch self }
        ensures line { result ≡ slice_get (numbers self) position }
        ensures in_range { IfSome result IsLine }
    {
        if position >= self.count() as usize {
            return None;
        }
        Some(self.first + position as i16)
    }

    /// Whether the line is one of them.
    pub(crate) fn has(self, line: i16) -> bool
        requires { IsStretch self }
        ensures { result ≡ list_any (int_eq line) (numbers self) }
    {
        if line < self.first {
            return false;
        }
        if line >= self.end {
            return false;
        }
        true
    }
}
