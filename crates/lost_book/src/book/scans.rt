//! The queries of a book, each answered by a scan of the list. Results are lists of positions, rising.
ghost use Rattle.std.specs.Prelude.{◌≡◌, Bool, None, IfOk, MatchOption, position, slice_get};
ghost use Rattle.std.specs.Fn.{FnReturnsAt};
ghost use Rattle.lost_spec.specs.Mapping as spec;
ghost use Rattle.lost_spec.specs.Positions.{positions};
ghost use Rattle.lost_spec.specs.Find.{is_holder, is_standby, serves, is_implemented};
ghost use Rattle.lost_spec.specs.Services.{is_holding, has_live_key, by_key};
ghost use Rattle.lost_location.specs.Place.{place_of};

use crate::book::Book;
use crate::held::position_of_live_key;
use crate::places::{holds, is_of_chain, serves};
use lost_location::Place;
use lost_mapping::{Mapping, Moment};
use lost_urn::ServiceUrn;
use std::alloc::{AllocError, Global};

impl Book {
    /// The mappings that are live, are no defaults, have this service and hold the place (RFC 5222, section 8).
    pub fn at(
        &self,
        moment: &Moment,
        place: &Place,
        service: &ServiceUrn,
    ) -> Result<Vec<usize>, AllocError>
        ensures { IfOk result (λ found.
            found.items ≡ positions (is_holder moment.now (place_of place.now) service.now) self.now.mappings) }
    {
        positions_of(self.mappings(), self.alloc(), |mapping| {
            serves(mapping, moment, service) && !mapping.is_default() && holds(mapping, place)
        })
    }

    /// The mappings that are live, are no defaults and hold the place (RFC 5222, section 11).
    pub fn holding(&self, moment: &Moment, place: &Place) -> Result<Vec<usize>, AllocError>
        ensures { IfOk result (λ found.
            found.items ≡ positions (is_holding moment.now (place_of place.now)) self.now.mappings) }
    {
        positions_of(self.mappings(), self.alloc(), |mapping| {
            mapping.is_live(moment) && !mapping.is_default() && holds(mapping, place)
        })
    }

    /// The defaults that are live and have this service.
    pub fn defaults(&self, moment: &Moment, service: &ServiceUrn) -> Result<Vec<usize>, AllocError>
        ensures { IfOk result (λ found.
            found.items ≡ positions (is_standby moment.now service.now) self.now.mappings) }
    {
        positions_of(self.mappings(), self.alloc(), |mapping| {
            serves(mapping, moment, service) && mapping.is_default()
        })
    }

    /// The mappings that are live and have this service, defaults too (RFC 5222, section 8.4.2; own rule).
    pub fn of_service(
        &self,
        moment: &Moment,
        service: &ServiceUrn,
    ) -> Result<Vec<usize>, AllocError>
        ensures { IfOk result (λ found.
            found.items ≡ positions (λ m. serves m moment.now service.now) self.now.mappings) }
    {
        positions_of(
            self.mappings(),
            self.alloc(),
            |mapping| serves(mapping, moment, service),
        )
    }

    /// The positions of the mappings that pass a test.
    pub fn positions<F: Fn(&Mapping) -> bool>(&self, passes: F) -> Result<Vec<usize>, AllocError>
        requires { F.IsAlwaysCallable passes }
        ensures { (test : spec.Mapping → Bool) → ((m : spec.Mapping) (r : Bool) → FnReturnsAt F.Fn passes m r → r ≡ test m)
            → IfOk result (λ found. found.items ≡ positions test self.now.mappings) }
    {
        positions_of(self.mappings(), self.alloc(), passes)
    }

    /// The position of the first mapping that is live and has this key (RFC 5222, section 9; keys are an own rule).
    pub fn by_key(&self, moment: &Moment, key: &str) -> Option<usize>
        ensures position { result ≡ position (has_live_key moment.now key.now) self.now.mappings }
        ensures mapping { MatchOption result (by_key self.now moment.now key.now ≡ None)
            (λ position. by_key self.now moment.now key.now ≡ slice_get self.now.mappings position) }
    {
        position_of_live_key(self.mappings(), moment, key)
    }

    /// Whether some live mapping has the service or one above it (RFC 5222, section 13.1; own reading).
    #[tactic(auto, unfolding(lost_spec::specs::Find::is_implemented))]
    pub fn implemented(&self, moment: &Moment, service: &ServiceUrn) -> bool
        ensures { result ≡ is_implemented self.now moment.now service.now }
    {
        self.mappings()
            .iter()
            .any(|mapping| is_of_chain(mapping, moment, service))
    }
}

/// The positions of the mappings that pass a test.
fn positions_of<F: Fn(&Mapping) -> bool>(
    mappings: &[Mapping],
    alloc: Global,
    passes: F,
) -> Result<Vec<usize>, AllocError>
    requires { F.IsAlwaysCallable passes }
    ensures { (test : spec.Mapping → Bool) → ((m : spec.Mapping) (r : Bool) → FnReturnsAt F.Fn passes m r → r ≡ test m)
        → IfOk result (λ found. found.items ≡ positions test mappings.now) }
{
    let mut found = Vec::new(alloc);
    for (position, mapping) in mappings.iter().enumerate() {
        if passes(mapping) {
            found.push(position)?;
        }
    }
    Ok(found)
}
