//! Questions about a place. Lists are of positions, rising. Each question is one walk over the mappings that the index
//! gives for the place.
ghost use Rattle.std.specs.Prelude.{◌≡◌, Bool, true, IfOk};
ghost use Rattle.std.specs.Fn.{FnReturnsAt};
ghost use Rattle.lost_spec.specs.Mapping as spec;
ghost use Rattle.lost_spec.specs.Positions.{positions};
ghost use Rattle.lost_spec.specs.Find.{holds, is_holder};
ghost use Rattle.lost_spec.specs.Services.{is_holding};
ghost use Rattle.lost_location.specs.Place.{place_of};
ghost use Rattle.lost_tables.specs.Picks.{Covers};
ghost use Rattle.lost_routing.specs.Chain.{is_eligible as is_eligible_for, is_chain_holder, IsHolderBelow};

use crate::scan::{FEW, scan};
use crate::store::Store;
use lost_book::{holds, serves};
use lost_location::Place;
use lost_mapping::{Mapping, Moment};
use lost_query::Picked;
use lost_urn::ServiceUrn;
use std::alloc::AllocError;

impl Store {
    /// The mappings that pass a test. Only mappings that hold the place pass it.
    fn selected<F: Fn(&Mapping) -> bool>(&self, place: &Place, passes: F) -> Picked
        requires callable { F.IsAlwaysCallable passes }
        ensures { (test : spec.Mapping → Bool) → ((m : spec.Mapping) (r : Bool) → FnReturnsAt F.Fn passes m r → r ≡ test m)
            → ((m : spec.Mapping) → test m ≡ true → holds m (place_of place.now) ≡ true)
            → IfOk result (λ found. found.items ≡ positions test self.now.mappings) }
    {
        if self.rows.len() <= FEW {
            return scan(self.alloc, &self.rows, passes);
        }
        let candidates = self.regions.near(place)?;
        self.pick(candidates.as_slice(), passes)
    }

    /// The mappings that hold the place, live or not.
    pub(crate) fn holders_of(&self, place: &Place) -> Picked
        ensures { IfOk result (λ found.
            found.items ≡ positions (λ m. holds m (place_of place.now)) self.now.mappings) }
    {
        self.selected(place, |mapping| holds(mapping, place))
    }

    /// The mappings that are live, are no defaults and hold the place.
    pub(crate) fn holding(&self, moment: &Moment, place: &Place) -> Picked
        ensures { IfOk result (λ found.
            found.items ≡ positions (is_holding moment.now (place_of place.now)) self.now.mappings) }
    {
        self.selected(place, |mapping| {
            mapping.is_live(moment) && !mapping.is_default() && holds(mapping, place)
        })
    }

    /// The mappings that are live, are no defaults, have this service and hold the place.
    pub(crate) fn at(&self, moment: &Moment, place: &Place, service: &ServiceUrn) -> Picked
        ensures { IfOk result (λ found.
            found.items ≡ positions (is_holder moment.now (place_of place.now) service.now) self.now.mappings) }
    {
        self.selected(place, |mapping| {
            serves(mapping, moment, service) && !mapping.is_default() && holds(mapping, place)
        })
    }

    /// The mappings that are live, are no defaults, have this service or one above it and hold the place.
    pub(crate) fn chain_at(&self, moment: &Moment, place: &Place, service: &ServiceUrn) -> Picked
        ensures { IfOk result (λ found.
            found.items ≡ positions (is_chain_holder moment.now (place_of place.now) service.now) self.now.mappings) }
    {
        self.selected_below(place, service, |mapping| {
            is_eligible(mapping, moment, service) && holds(mapping, place)
        })
    }

    /// The mappings that pass a test. Only mappings that hold the place and have the service or one above it pass it.
    fn selected_below<F: Fn(&Mapping) -> bool>(
        &self,
        place: &Place,
        service: &ServiceUrn,
        passes: F,
    ) -> Picked
        requires callable { F.IsAlwaysCallable passes }
        ensures { (test : spec.Mapping → Bool) → ((m : spec.Mapping) (r : Bool) → FnReturnsAt F.Fn passes m r → r ≡ test m)
            → ((m : spec.Mapping) → test m ≡ true → IsHolderBelow service.now (place_of place.now) m)
            → IfOk result (λ found. found.items ≡ positions test self.now.mappings) }
    {
        if self.rows.len() <= FEW {
            return scan(self.alloc, &self.rows, passes);
        }
        let candidates = self.near_below(place, service)?;
        self.pick(candidates.as_slice(), passes)
    }

    /// The numbers of the mappings that may hold the place and have the service or one above it; mostly those alone.
    fn near_below(&self, place: &Place, service: &ServiceUrn) -> Result<Vec<u64>, AllocError>
        ensures { (test : spec.Mapping → Bool) → ((m : spec.Mapping) → test m ≡ true → IsHolderBelow service.now (place_of place.now) m)
            → IfOk result (λ near. Covers test self.now.numbers self.now.mappings near.items) }
    {
        let mut candidates = self.regions.near(place)?;
        let Some(classes) = self.strays.without(service) else {
            return Ok(candidates);
        };
        classes.keep(&mut candidates);
        Ok(candidates)
    }
}

/// Whether the mapping is live, is no default, and has this service or one above it. It costs less than a look at regions.
fn is_eligible(mapping: &Mapping, moment: &Moment, service: &ServiceUrn) -> bool
    ensures { result ≡ is_eligible_for moment.now service.now mapping.now }
{
    mapping.is_live(moment) && !mapping.is_default() && service.is_at_or_below(mapping.service())
}
