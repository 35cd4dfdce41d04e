//! The kinds of places, and the profiles that name them.
ghost use Rattle.std.specs.Prelude.{◌≡◌};
ghost use Rattle.lost_spec.specs.Place.{kind_of, profile_of, has_system};

use lost_spec::places::PlaceKind;

/// The profile of points (RFC 5222, section 12.2).
pub const GEODETIC_2D: &str = "geodetic-2d";

/// The profile of civic addresses (RFC 5222, section 12.3).
pub const CIVIC: &str = "civic";

/// The profile of tokens.
pub const X_TOKEN: &str = "x-token";

/// The kind of place that a profile names, if the server knows it (RFC 5222, section 12.1).
pub fn kind_of(profile: &str) -> Option<PlaceKind>
    ensures { result ≡ kind_of profile.now }
{
    if profile == GEODETIC_2D {
        Some(PlaceKind::Geodetic2d)
    } else if profile == CIVIC {
        Some(PlaceKind::Civic)
    } else if profile == X_TOKEN {
        Some(PlaceKind::XToken)
    } else {
        None
    }
}

/// The profile of a kind.
pub fn profile_of(kind: PlaceKind) -> &'static str
    ensures { result.now ≡ profile_of kind }
{
    match kind {
        PlaceKind::Geodetic2d => GEODETIC_2D,
        PlaceKind::Civic => CIVIC,
        PlaceKind::XToken => X_TOKEN,
    }
}

/// Whether a location of this kind has a reference system (RFC 5222, section 12.2).
pub fn has_system(kind: Option<PlaceKind>) -> bool
    ensures { result ≡ has_system kind }
{
    match kind {
        Some(PlaceKind::Geodetic2d) => true,
        Some(PlaceKind::Civic) => false,
        Some(PlaceKind::XToken) => false,
        None => false,
    }
}
