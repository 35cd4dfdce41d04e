//! Whether a service of a chain is held.
ghost use Rattle.std.specs.Prelude.{◌≡◌, ◌≤◌, take, length};
ghost use Rattle.std.specs.List.{list_any};
ghost use Rattle.lost_spec.specs.Service.{same_service};
ghost use Rattle.lost_spec.specs.Find.{serves, is_of_chain};

use crate::store::Store;
use lost_mapping::{Mapping, Moment};
use lost_tables::picks;
use lost_urn::ServiceUrn;

impl Store {
    /// Whether some live mapping has the service or one above it. It takes no memory.
    pub(crate) fn implemented(&self, moment: &Moment, service: &ServiceUrn) -> bool
        ensures { result ≡ list_any (is_of_chain moment.now service.now) self.now.mappings }
    {
        for cut in 0..service.depth() {
            if self.is_served(moment, service, service.depth() - cut) {
                return true;
            }
        }
        false
    }

    /// Whether some live mapping has the service of the first `labels` labels of another one, from 1 to its depth. It
    /// takes no memory.
    #[tactic(auto, using(crate::proofs::CoverLemmas::covers_service))]
    fn is_served(&self, moment: &Moment, service: &ServiceUrn, labels: usize) -> bool
        requires some { 1 ≤ labels }
        requires within { labels ≤ length service.now }
        ensures { result ≡ list_any (λ m. serves m moment.now (take labels service.now)) self.now.mappings }
    {
        let candidates = self.tables.of_service(service.front(labels));
        picks::any(&self.rows, candidates, |mapping| {
            mapping.is_live(moment) && is_front(mapping, service, labels)
        })
    }
}

/// Whether the mapping has the service of the first `labels` labels of another one.
fn is_front(mapping: &Mapping, service: &ServiceUrn, labels: usize) -> bool
    requires some { 1 ≤ labels }
    requires within { labels ≤ length service.now }
    ensures { result ≡ same_service mapping.now.service (take labels service.now) }
{
    mapping.service().text() == service.front(labels)
}
