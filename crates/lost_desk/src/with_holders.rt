//! A book with the set of one place.
ghost use Rattle.std.specs.Prelude.{◌≡◌, ◌<◌, IfOk, length, filter};
ghost use Rattle.std.specs.List.{All};
ghost use Rattle.std.specs.Option.{option_copied};
ghost use Rattle.lost_spec.specs.Holders.{holders_of};
ghost use Rattle.lost_location.specs.Place.{place_of};

use crate::living::living_among;
use lost_civic::Element;
use lost_mapping::{Mapping, Moment};
use lost_query::{Holdings, Picked, Place, Reference};
use lost_routing::Routing;
use lost_urn::ServiceUrn;
use std::alloc::{AllocError, Global};

/// A book with the set of one place. It answers which mappings hold that place from the set, and asks the book
/// everything else.
#[derive(Drop)]
pub(crate) struct WithHolders<'a> {
    pub(crate) alloc: Global,
    pub(crate) book: &'a Routing,
    pub(crate) place: &'a Place,
    pub(crate) holders: &'a [usize],
    ghost right: { holders.now ≡ holders_of book.now (place_of place.now) },
}

impl Holdings for WithHolders<'_> {
    ghost book = { λ w. w.book.now };

    fn edition(&self) -> u64 {
        self.book.edition()
    }

    fn len(&self) -> usize {
        self.book.len()
    }

    fn mapping(&self, position: usize) -> &Mapping {
        self.book.mapping(position)
    }

    fn by_key(&self, moment: &Moment, key: &str) -> Option<usize> {
        self.book.by_key(moment, key)
    }

    fn implemented(&self, moment: &Moment, service: &ServiceUrn) -> bool {
        self.book.implemented(moment, service)
    }

    fn holding(&self, moment: &Moment, place: &Place) -> Picked {
        if place == self.place {
            living_among(self.alloc, self.book, moment, self.holders)
        } else {
            self.book.holding(moment, place)
        }
    }

    fn at(&self, moment: &Moment, place: &Place, service: &ServiceUrn) -> Picked {
        self.book.at(moment, place, service)
    }

    fn defaults(&self, moment: &Moment, service: &ServiceUrn) -> Picked {
        self.book.defaults(moment, service)
    }

    fn of_service(&self, moment: &Moment, service: &ServiceUrn) -> Picked {
        self.book.of_service(moment, service)
    }

    fn is_agreed(&self, reference: &Reference<'_>) -> Result<bool, AllocError> {
        self.book.is_agreed(reference)
    }

    fn is_named(&self, reference: &Reference<'_>, named: Element) -> Result<bool, AllocError> {
        self.book.is_named(reference, named)
    }

    fn services_below(
        &self,
        moment: &Moment,
        above: Option<&ServiceUrn>,
    ) -> Result<Vec<ServiceUrn>, AllocError> {
        self.book.services_below(moment, above)
    }
}
