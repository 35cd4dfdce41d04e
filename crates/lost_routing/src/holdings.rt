//! The routing as holdings.
ghost use Rattle.std.specs.Prelude.{◌≡◌, IfOk};
ghost use Rattle.std.specs.Option.{option_copied};
ghost use Rattle.lost_spec.specs.Services.{all_services};

use crate::routing::Routing;
use lost_civic::Element;
use lost_location::Place;
use lost_mapping::{Mapping, Moment};
use lost_query::{Holdings, Picked, Reference};
use lost_urn::ServiceUrn;
use std::alloc::AllocError;

impl Holdings for Routing {
    ghost book = { λ b. b };

    fn edition(&self) -> u64 {
        self.edits
    }

    fn len(&self) -> usize {
        self.store.len()
    }

    fn mapping(&self, position: usize) -> &Mapping {
        self.store.mapping(position)
    }

    fn by_key(&self, moment: &Moment, key: &str) -> Option<usize> {
        self.store.of_live_key(moment, key)
    }

    #[tactic(auto, unfolding(lost_spec::specs::Find::is_implemented))]
    fn implemented(&self, moment: &Moment, service: &ServiceUrn) -> bool {
        self.store.implemented(moment, service)
    }

    fn holding(&self, moment: &Moment, place: &Place) -> Picked {
        self.store.holding(moment, place)
    }

    fn of_chain(&self, moment: &Moment, place: &Place, service: &ServiceUrn) -> Picked {
        self.store.chain_at(moment, place, service)
    }

    fn at(&self, moment: &Moment, place: &Place, service: &ServiceUrn) -> Picked {
        self.store.at(moment, place, service)
    }

    fn defaults(&self, moment: &Moment, service: &ServiceUrn) -> Picked {
        self.store.defaults(moment, service)
    }

    fn of_service(&self, moment: &Moment, service: &ServiceUrn) -> Picked {
        self.store.of_service(moment, service)
    }

    fn is_agreed(&self, reference: &Reference<'_>) -> Result<bool, AllocError> {
        self.store.is_agreed(reference)
    }

    fn is_named(&self, reference: &Reference<'_>, named: Element) -> Result<bool, AllocError> {
        self.store.is_named(reference, named)
    }

    #[tactic(auto, unfolding(lost_spec::specs::Services::all_services))]
    fn services_below(
        &self,
        moment: &Moment,
        above: Option<&ServiceUrn>,
    ) -> Result<Vec<ServiceUrn>, AllocError> {
        self.store.services_below(moment, above)
    }
}
