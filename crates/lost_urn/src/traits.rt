//! Services are equal where their labels are, and are ordered and hashed by their text.
ghost use Rattle.std.specs.Prelude.{◌≡◌, refl};
ghost use Rattle.std.proofs.Common.{rules};
ghost use Rattle.std.specs.Ordering.{nat_cmp, as_partial_cmp};
ghost use Rattle.std.specs.Hash as fed;
ghost use Rattle.std.specs.Cmp.Rules.{comparing};
ghost use Rattle.std.specs.Cmp.Lexicographic.{slice_cmp};
ghost use Rattle.lost_spec.specs.Service.{same_service, service_text};
ghost use Rattle.lost_urn.specs.Order.{service_cmp, service_total, service_partial, service_ties, service_hash};

use crate::ServiceUrn;
use std::alloc::AllocError;
use std::cmp::Ordering;
use std::hash::{Hash, Hasher};

impl Clone for ServiceUrn {
    ghost is_clone = { λ s copy. copy ≡ s };

    fn clone(&self) -> Result<ServiceUrn, AllocError> {
        ServiceUrn::clone(self)
    }
}

impl PartialEq for ServiceUrn {
    ghost eq = { same_service };

    ghost laws = { Prim.search (comparing, rules) };

    fn eq(&self, other: &ServiceUrn) -> bool {
        self.text() == other.text()
    }
}

impl Eq for ServiceUrn {
    ghost laws = { Prim.search (comparing, rules) };
}

impl PartialOrd for ServiceUrn {
    ghost partial_cmp = { as_partial_cmp service_cmp };

    ghost laws = { service_partial };

    fn partial_cmp(&self, other: &ServiceUrn) -> Option<Ordering> {
        Some(self.cmp(other))
    }
}

impl Ord for ServiceUrn {
    ghost cmp = { service_cmp };

    ghost total = { service_total };

    ghost matches_partial_cmp = { λ s u. refl };

    ghost matches_eq = { service_ties };

    fn cmp(&self, other: &ServiceUrn) -> Ordering
        ensures order { result ≡ service_cmp self.now other.now }
        ensures by_text { result ≡ slice_cmp nat_cmp (service_text self.now) (service_text other.now) }
    {
        self.text().cmp(other.text())
    }
}

impl Hash for ServiceUrn {
    ghost hash_input = { λ s. fed.str (service_text s) };

    ghost respects_eq = { service_hash };

    fn hash<H: Hasher>(&self, state: &mut H) {
        self.text().hash(state);
    }
}
