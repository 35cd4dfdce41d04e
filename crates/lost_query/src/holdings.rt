//! What holds mappings, and the questions that it answers.
ghost use Rattle.std.specs.Prelude.{◌≡◌, ◌<◌, Some, IfOk, length, position, slice_get};
ghost use Rattle.std.specs.List.{All, list_any};
ghost use Rattle.std.specs.Option.{option_copied};
ghost use Rattle.lost_spec.specs.Book as spec;
ghost use Rattle.lost_spec.specs.Positions.{positions};
ghost use Rattle.lost_spec.specs.Find.{is_holder, is_standby, serves, is_implemented};
ghost use Rattle.lost_spec.specs.Services.{is_holding, has_live_key, all_services, holding};
ghost use Rattle.lost_query.specs.Finding.{at_positions, of_chain};
ghost use Rattle.lost_query.specs.Reference.{is_referring_by, is_naming_by};
ghost use Rattle.lost_location.specs.Place.{place_of};

use crate::reference::Reference;
use lost_civic::Element;
use lost_location::Place;
use lost_mapping::{Mapping, Moment};
use lost_urn::ServiceUrn;
use smallvec::SmallVec;
use std::alloc::AllocError;

/// Positions of mappings in a book's list, rising. Up to two take no memory (own rule).
pub type Positions = SmallVec<usize, 2>;

/// The positions that a question picks, unless memory is refused.
pub type Picked = Result<Positions, AllocError>;

/// A store of mappings. Contracts see it as a book, however it keeps them. A position is that of a mapping in the
/// book's list, from 0; lists of positions are rising.
pub trait Holdings {
    /// The book that contracts see.
    ghost book: { Self → spec.Book };

    /// The number of accepted edits.
    fn edition(&self) -> u64
        ensures { result ≡ (book self.now).edits };

    /// The number of mappings held.
    fn len(&self) -> usize
        ensures { result ≡ length (book self.now).mappings };

    /// The mapping at a position, which is below `len`.
    fn mapping(&self, position: usize) -> &Mapping
        requires { position < length (book self.now).mappings }
        ensures { slice_get (book self.now).mappings position ≡ Some result.now };

    /// The position of the live mapping with this key (RFC 5222, section 9; keys own).
    fn by_key(&self, moment: &Moment, key: &str) -> Option<usize>
        ensures { result ≡ position (has_live_key moment.now key.now) (book self.now).mappings };

    /// Whether some live mapping has the service or one above it (RFC 5222, section 13.1; own reading).
    fn implemented(&self, moment: &Moment, service: &ServiceUrn) -> bool
        ensures { result ≡ is_implemented (book self.now) moment.now service.now };

    /// The mappings that are live, are no defaults and hold the place (RFC 5222, section 11).
    fn holding(&self, moment: &Moment, place: &Place) -> Picked
        ensures { IfOk result (λ found.
            found.items ≡ positions (is_holding moment.now (place_of place.now)) (book self.now).mappings) };

    /// Of the mappings that are live, are no defaults and hold the place, those that have this service or one above it,
    /// and perhaps others (RFC 5222, section 8; policy own).
    fn of_chain(&self, moment: &Moment, place: &Place, service: &ServiceUrn) -> Picked
        ensures within { IfOk result (λ found.
            All (λ position. position < length (book self.now).mappings) found.items) }
        ensures of_chain { IfOk result (λ found. of_chain service.now (at_positions (book self.now).mappings found.items)
            ≡ of_chain service.now (holding (book self.now) moment.now (place_of place.now))) }
    {
        self.holding(moment, place)
    }

    /// The mappings that are live, are no defaults, have this service and hold the place (RFC 5222, section 8).
    fn at(&self, moment: &Moment, place: &Place, service: &ServiceUrn) -> Picked
        ensures { IfOk result (λ found.
            found.items ≡ positions (is_holder moment.now (place_of place.now) service.now) (book self.now).mappings) };

    /// The live defaults of this service.
    fn defaults(&self, moment: &Moment, service: &ServiceUrn) -> Picked
        ensures { IfOk result (λ found.
            found.items ≡ positions (is_standby moment.now service.now) (book self.now).mappings) };

    /// The live mappings of this service, defaults too (RFC 5222, section 8.4.2; own policy).
    fn of_service(&self, moment: &Moment, service: &ServiceUrn) -> Picked
        ensures { IfOk result (λ found.
            found.items ≡ positions (λ m. serves m moment.now service.now) (book self.now).mappings) };

    /// Whether some mapping, defaults too, has this reference: it is live, has the service, and a pattern of it names each
    /// of the elements with the address's comparison text (RFC 5222, section 8.4.2; own policy).
    fn is_agreed(&self, reference: &Reference<'_>) -> Result<bool, AllocError>
        ensures { IfOk result (λ agreed.
            agreed ≡ list_any (is_referring_by reference.now) (book self.now).mappings) };

    /// Whether some mapping, defaults too, has this reference in a pattern that names another element too, with any text
    /// (RFC 5222, section 8.4.2; own policy).
    fn is_named(&self, reference: &Reference<'_>, named: Element) -> Result<bool, AllocError>
        ensures { IfOk result (λ found.
            found ≡ list_any (is_naming_by reference.now named) (book self.now).mappings) };

    /// The services just below one, or the topmost, of all live mappings, defaults too, in the order of their texts,
    /// each once (RFC 5222, section 10; own order).
    fn services_below(
        &self,
        moment: &Moment,
        above: Option<&ServiceUrn>,
    ) -> Result<Vec<ServiceUrn>, AllocError>
        ensures { IfOk result (λ found.
            found.items ≡ all_services (book self.now) moment.now (option_copied above.entry)) };
}
