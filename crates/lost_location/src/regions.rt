//! The regions of a mapping.
ghost use Rattle.std.specs.Prelude.{◌≡◌, IfOk};
ghost use Rattle.std.specs.List.{list_any};
ghost use lib.Pointwise.{pointwise};
ghost use Rattle.lost_spec.specs.Ring.{same_point, inside};
ghost use Rattle.lost_spec.specs.Civic.{matches};
ghost use Rattle.lost_spec.specs.Token.{contains_token};
ghost use Rattle.lost_spec.specs.Place.{by_kind, contains, same_regions};
ghost use Rattle.lost_location.specs.Place.{place_of};
ghost use Rattle.lost_location.specs.Refusals.{Refuses, regions_fault};
ghost use Rattle.lost_location.specs.Region.{regions_of};

use crate::lists::RegionLists;
use crate::place::Place;
use crate::polygons::Polygons;
use crate::region::Region;
use lost_civic::{CivicAddress, CivicPattern};
use lost_geo::{GeoPoint, Polygon};
use lost_profile::{Token, TokenSet};
use lost_spec::faults::MappingError;
use std::alloc::Global;
use std::marker::Model;

/// Where a mapping holds: its polygons, its patterns and its token sets, each kind in the order in which it was given.
/// Contracts see the record of the three lists.
pub struct Regions {
    polygons: Polygons,
    patterns: Vec<CivicPattern>,
    token_sets: Vec<TokenSet>,
}

impl Drop for Regions {
    fn drop(self) {
        let Regions {
            polygons: _,
            patterns: _,
            token_sets: _,
        } = self;
    }
}

impl Model for Regions {
    ghost use Rattle.lost_spec.specs.Place as spec;
    ghost use Rattle.lost_location.specs.Polygons.{polygons_in};

    ghost Value = { spec.Regions };

    ghost view = { λ r. record { polygons = polygons_in r.polygons; patterns = r.patterns.items; token_sets = r.token_sets.items } };
}

impl Regions {
    /// The regions that were handed in, by kind.
    ///
    /// # Errors
    ///
    /// [`MappingError::BadRegion`] where one cannot be read, has a coordinate out of range, or is refused as a ring, a
    /// pattern or a token set, and [`MappingError::Memory`].
    pub fn read(alloc: Global, regions: Vec<Region>) -> Result<Regions, MappingError>
        ensures regions { IfOk result (λ read. read ≡ by_kind (regions_of regions.items)) }
        ensures refuses { Refuses result (regions_fault (regions_of regions.items)) }
    {
        let RegionLists {
            polygons,
            mut patterns,
            mut token_sets,
        } = RegionLists::read(alloc, regions)?;
        patterns.shrink_to_fit();
        token_sets.shrink_to_fit();
        Ok(Regions {
            polygons: Polygons::of(polygons),
            patterns,
            token_sets,
        })
    }

    /// The polygons, in the order given (RFC 5222, section 5.5).
    pub fn polygons(&self) -> &[Polygon]
        ensures { result.now ≡ self.now.polygons }
    {
        self.polygons.as_slice()
    }

    /// The civic patterns, in the order given (RFC 5222, section 5.5).
    pub fn patterns(&self) -> &[CivicPattern]
        ensures { result.now ≡ self.now.patterns }
    {
        &self.patterns
    }

    /// The token sets, in the order given.
    pub fn token_sets(&self) -> &[TokenSet]
        ensures { result.now ≡ self.now.token_sets }
    {
        &self.token_sets
    }

    /// Whether some region contains the place (RFC 5222, section 12.1): a polygon has the point inside, a pattern matches
    /// the address, or a set has the token. It takes no memory.
    pub fn contains(&self, place: &Place) -> bool
        ensures { result ≡ contains self.now (place_of place.now) }
    {
        match place {
            Place::Point(point) => self.has_inside(point),
            Place::Address(address) => self.matches(address),
            Place::Token(token) => self.has_token(token),
        }
    }

    fn has_inside(&self, point: &GeoPoint) -> bool
        ensures { result ≡ list_any (λ ring. inside ring point.now) self.now.polygons }
    {
        self.polygons().iter().any(|polygon| polygon.inside(point))
    }

    fn matches(&self, address: &CivicAddress) -> bool
        ensures { result ≡ list_any (λ pattern. matches pattern address.now) self.now.patterns }
    {
        self.patterns.iter().any(|pattern| pattern.matches(address))
    }

    fn has_token(&self, token: &Token) -> bool
        ensures { result ≡ list_any (λ tokens. contains_token tokens token.now) self.now.token_sets }
    {
        self.token_sets.iter().any(|set| set.contains(token))
    }

    /// Whether the regions are the same: polygons by positions, patterns by names and values, token sets by tokens, each
    /// as given and each list in its order. It takes no memory.
    pub fn is_same(&self, other: &Regions) -> bool
        ensures { result ≡ same_regions self.now other.now }
    {
        are_same_polygons(self.polygons(), other.polygons())
            && self.patterns == other.patterns
            && self.token_sets == other.token_sets
    }
}

/// Whether the lists have the same positions, polygon by polygon.
fn are_same_polygons(mut ones: &[Polygon], mut others: &[Polygon]) -> bool
    ensures { result ≡ pointwise (λ x y. pointwise same_point x y) ones.entry.now others.entry.now }
{
    while let (Some((one, later)), Some((other, later_others))) = (
        ones.split_first(),
        others.split_first(),
    ) {
        if one.positions() != other.positions() {
            return false;
        }
        ones = later;
        others = later_others;
    }
    ones.is_empty() && others.is_empty()
}
