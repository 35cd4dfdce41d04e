//! Replaces and withdraws mappings. Nothing here checks the edit.
ghost use Rattle.std.specs.Prelude.{◌≡◌, OnOk, OnErr};
ghost use Rattle.lost_spec.specs.Book.{replaced, without};
ghost use Rattle.lost_routing.specs.Invariants.{StaysBelow};

use crate::store::Store;
use lost_mapping::{Identity, Mapping};
use std::alloc::AllocError;

impl Store {
    /// Replaces the mapping that has the same identity. If memory is refused, nothing changes.
    pub(crate) fn replace(&mut self, mapping: Mapping) -> Result<(), AllocError>
        ensures replaced { OnOk result (self.new.mappings ≡ replaced mapping self.old.mappings) }
        ensures numbers { OnOk result (self.new.numbers ≡ self.old.numbers) }
        ensures refused { OnErr result (self.new ≡ self.old) }
    {
        match self.of_identity(mapping.identity()) {
            Some(position) => self.change(position, mapping),
            None => Ok(()),
        }
    }

    /// Removes the mapping with this identity, and closes up. It takes no memory.
    pub(crate) fn withdraw(&mut self, identity: &Identity)
        ensures taken { self.new.mappings ≡ without identity.now self.old.mappings }
        ensures below { StaysBelow self.old.numbers self.new.numbers }
    {
        if let Some(position) = self.of_identity(identity) {
            self.take(position);
        }
    }
}
