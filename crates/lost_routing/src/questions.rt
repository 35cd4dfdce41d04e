//! Questions about the mappings. Lists are of positions, rising.
ghost use Rattle.std.specs.Prelude.{◌≡◌, ◌&&◌, not, IfOk, find, position};
ghost use Rattle.std.specs.List.{list_any};
ghost use Rattle.std.specs.Option.{option_copied};
ghost use Rattle.lost_spec.specs.Book.{has_identity, has_key};
ghost use Rattle.lost_spec.specs.Positions.{positions};
ghost use Rattle.lost_spec.specs.Find.{is_standby, serves};
ghost use Rattle.lost_spec.specs.Services.{has_live_key};

use crate::store::Store;
use lost_book::{has_identity, has_key, serves};
use lost_mapping::{Identity, Mapping, Moment};
use lost_query::Picked;
use lost_tables::picks;
use lost_urn::ServiceUrn;

impl Store {
    /// The position of the mapping with this identity.
    #[tactic(auto, using(crate::proofs::CoverLemmas::covers_identity))]
    pub(crate) fn of_identity(&self, identity: &Identity) -> Option<usize>
        ensures { result ≡ position (λ m. has_identity m identity.now) self.now.mappings }
    {
        let candidates = self.tables.of_identity(identity);
        picks::first(&self.rows, candidates, |mapping| {
            has_identity(mapping, identity)
        })
    }

    /// Whether a mapping with this identity is held.
    #[tactic(auto, using(crate::proofs::CoverLemmas::covers_identity))]
    pub(crate) fn is_held(&self, identity: &Identity) -> bool
        ensures { result ≡ list_any (λ m. has_identity m identity.now) self.now.mappings }
    {
        let candidates = self.tables.of_identity(identity);
        picks::any(&self.rows, candidates, |mapping| {
            has_identity(mapping, identity)
        })
    }

    /// The mapping with this identity.
    pub(crate) fn with_identity(&self, identity: &Identity) -> Option<&Mapping>
        ensures { option_copied result ≡ find (λ m. has_identity m identity.now) self.now.mappings }
    {
        match self.of_identity(identity) {
            Some(position) => self.rows.get(position),
            None => None,
        }
    }

    /// Whether a mapping of another identity has this key.
    #[tactic(auto, using(crate::proofs::CoverLemmas::covers_other_key))]
    pub(crate) fn is_key_of_another(&self, identity: &Identity, key: &str) -> bool
        ensures { result ≡ list_any (λ m. not (has_identity m identity.now) && has_key m key.now) self.now.mappings }
    {
        let candidates = self.tables.of_key(key);
        picks::any(&self.rows, candidates, |mapping| {
            !has_identity(mapping, identity) && has_key(mapping, key)
        })
    }

    /// The position of the first mapping that is live at an instant and has this key.
    #[tactic(auto, using(crate::proofs::CoverLemmas::covers_live_key))]
    pub(crate) fn of_live_key(&self, moment: &Moment, key: &str) -> Option<usize>
        ensures { result ≡ position (has_live_key moment.now key.now) self.now.mappings }
    {
        let candidates = self.tables.of_key(key);
        picks::first(&self.rows, candidates, |mapping| {
            mapping.is_live(moment) && has_key(mapping, key)
        })
    }

    /// The defaults that are live and have this service.
    #[tactic(auto, using(crate::proofs::CoverLemmas::covers_default))]
    pub(crate) fn defaults(&self, moment: &Moment, service: &ServiceUrn) -> Picked
        ensures { IfOk result (λ found.
            found.items ≡ positions (is_standby moment.now service.now) self.now.mappings) }
    {
        let candidates = self.tables.of_default(service.text());
        self.pick(
            candidates,
            |mapping| serves(mapping, moment, service) && mapping.is_default(),
        )
    }

    /// The mappings that are live and have this service.
    #[tactic(auto, using(crate::proofs::CoverLemmas::covers_service))]
    pub(crate) fn of_service(&self, moment: &Moment, service: &ServiceUrn) -> Picked
        ensures { IfOk result (λ found.
            found.items ≡ positions (λ m. serves m moment.now service.now) self.now.mappings) }
    {
        let candidates = self.tables.of_service(service.text());
        self.pick(candidates, |mapping| serves(mapping, moment, service))
    }
}
