//! Changes to one of the indexes.
ghost use Rattle.std.specs.Prelude.{◌≡◌, ◌+◌, ◌<◌, ◌^◌, ◌++◌, length};
ghost use Rattle.lost_index.specs.Entries.{with_number};
ghost use Rattle.lost_regions.specs.UnderNumber.{IsHeldWith};

use crate::mapped_geodetic::MappedGeodetic2d;
use lost_geo::Polygon;
use lost_index::Index;
use lost_profile::Profile;

/// Keeps the first regions of a number, those of `first`. It takes no memory.
pub(crate) fn keep_first<P: Profile>(
    index: &mut Index<P>,
    number: u64,
    first: &[P::Region],
    rest: &[P::Region],
)
    requires { IsHeldWith number (first.now ++ rest.now) index.old }
    ensures { index.new ≡ with_number number (λ _. first.now) index.old }
{
    index.cut(number, 0, first.len());
}

/// Keeps the regions of a number behind the first ones. It takes no memory.
pub(crate) fn keep_rest<P: Profile>(
    index: &mut Index<P>,
    number: u64,
    first: &[P::Region],
    rest: &[P::Region],
)
    requires held { IsHeldWith number (first.now ++ rest.now) index.old }
    requires count { length first.now + length rest.now < 2 ^ 64 }
    ensures { index.new ≡ with_number number (λ _. rest.now) index.old }
{
    index.cut(number, first.len(), first.len() + rest.len());
}

/// Does as [`keep_first`] for the polygons of a number.
pub(crate) fn keep_first_polygons(
    index: &mut Index<MappedGeodetic2d>,
    number: u64,
    first: &[Polygon],
    rest: &[Polygon],
)
    requires { IsHeldWith number (first.now ++ rest.now) index.old }
    ensures { index.new ≡ with_number number (λ _. first.now) index.old }
{
    index.cut(number, 0, first.len());
}

/// Does as [`keep_rest`] for the polygons of a number.
pub(crate) fn keep_rest_polygons(
    index: &mut Index<MappedGeodetic2d>,
    number: u64,
    first: &[Polygon],
    rest: &[Polygon],
)
    requires held { IsHeldWith number (first.now ++ rest.now) index.old }
    requires count { length first.now + length rest.now < 2 ^ 64 }
    ensures { index.new ≡ with_number number (λ _. rest.now) index.old }
{
    index.cut(number, first.len(), first.len() + rest.len());
}
