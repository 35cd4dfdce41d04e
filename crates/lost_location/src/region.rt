//! Regions as they are handed in, before anything has checked them.
ghost use Rattle.std.specs.Prelude.{◌≡◌};
ghost use Rattle.lost_location.specs.Region.{region_of, region_kind};

use lost_civic::CivicPattern;
use lost_geo::is_ring;
use lost_profile::is_token_set;
use lost_spec::places::PlaceKind;

/// One region of a mapping (RFC 5222, section 5.5).
#[derive(Debug, Drop)]
pub enum Region {
    /// The positions of a ring, each a latitude and a longitude in whole 1e-7 degrees.
    Ring(Vec<(i64, i64)>),
    /// The names and values of a civic pattern.
    Pattern(Vec<(String, String)>),
    /// The texts of a token set.
    Tokens(Vec<String>),
    /// A region of no known form.
    Unreadable,
}

impl Region {
    /// The kind of the region. `None` if it cannot be read, has a coordinate out of range, or is refused as a ring, a
    /// pattern or a token set. It takes no memory.
    pub fn kind(&self) -> Option<PlaceKind>
        ensures { result ≡ region_kind (region_of self.now) }
    {
        match self {
            Region::Ring(positions) => is_ring(positions.as_slice()).then_some(
                PlaceKind::Geodetic2d,
            ),
            Region::Pattern(pairs) => CivicPattern::check(pairs.as_slice())
                .is_ok()
                .then_some(PlaceKind::Civic),
            Region::Tokens(texts) => is_token_set(texts.as_slice()).then_some(PlaceKind::XToken),
            Region::Unreadable => None,
        }
    }
}
