//! Where a request asks.
ghost use Rattle.std.specs.Prelude.{◌≡◌};
ghost use Rattle.std.specs.Option.{option_copied};
ghost use Rattle.lost_spec.specs.Place.{kind_at, address_at};
ghost use Rattle.lost_location.specs.Place.{place_of, EqualPlacesAreOne};

use lost_civic::CivicAddress;
use lost_geo::GeoPoint;
use lost_profile::Token;
use lost_spec::places::PlaceKind;

/// A point, a civic address (RFC 5222, section 12), or a token. Two places are equal if they are points of one latitude
/// and one longitude, addresses with the same pairs in the same order, names and values byte for byte, or tokens with the
/// same bytes. An address and a token lie in a box, so that a place at a point is small.
#[derive(PartialEq, Eq, Hash, Drop)]
pub enum Place {
    /// A point of the profile `geodetic-2d`.
    Point(GeoPoint),
    /// An address of the profile `civic`.
    Address(Box<CivicAddress>),
    /// A token of the profile `x-token`.
    Token(Box<Token>),
}

impl Place {
    /// The kind of the place.
    pub fn kind(&self) -> PlaceKind
        ensures { result ≡ kind_at (place_of self.now) }
    {
        match self {
            Place::Point(_) => PlaceKind::Geodetic2d,
            Place::Address(_) => PlaceKind::Civic,
            Place::Token(_) => PlaceKind::XToken,
        }
    }

    /// The address that the place is, if it is one.
    pub fn address(&self) -> Option<&CivicAddress>
        ensures { option_copied result ≡ address_at (place_of self.now) }
    {
        match self {
            Place::Point(_) => None,
            Place::Address(address) => Some(address),
            Place::Token(_) => None,
        }
    }
}

/// Equal places are seen as one place.
pub fn law_equal_places_are_one()
    ensures holds { EqualPlacesAreOne ⟦<Place as PartialEq>⟧.eq }
{}
