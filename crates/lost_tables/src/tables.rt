//! The numbers of mappings by identity, by key, by service, and by service of defaults.

use crate::cell::Cell;
use crate::defaults::default_text;
use crate::{identities, lists, texts};
use indexmap::IndexMap;
use lost_mapping::{Identity, Mapping};
use std::alloc::{AllocError, Global};

/// Lists of the numbers of mappings by identity, key, service and default. Contracts see them by `numbers_of`. A list
/// may contain numbers whose mappings no longer belong there: a reader tests what it finds.
pub struct Tables {
    alloc: Global,
    identities: IndexMap<Identity, Cell>,
    keys: IndexMap<String, Cell>,
    services: IndexMap<String, Cell>,
    defaults: IndexMap<String, Cell>,
}

impl Drop for Tables {
    fn drop(self) {
        let Tables {
            alloc: _,
            identities: _,
            keys: _,
            services: _,
            defaults: _,
        } = self;
    }
}

impl Tables {
    ghost use Rattle.std.specs.Prelude.{◌≡◌, ◌<◌, Some, [], length, slice_get, OnOk, OnErr};
    ghost use Rattle.lost_spec.specs.Service.{Service, service_text};
    ghost use Rattle.lost_tables.specs.Lookup.{LookupKey, ByIdentity, ByKey, ByService, ByDefault, numbers_of, service_rows, Keeps, KeepsOthers, IsFullyListed, IsNowhereListed, IsListedAtMostAs};

    /// Tables with no number. It takes no memory.
    pub fn new(alloc: Global) -> Tables
        ensures { (note : LookupKey) → numbers_of result note ≡ [] }
    {
        Tables {
            alloc,
            identities: IndexMap::new(alloc),
            keys: IndexMap::new(alloc),
            services: IndexMap::new(alloc),
            defaults: IndexMap::new(alloc),
        }
    }

    /// The numbers listed under an identity. It takes no memory.
    pub fn of_identity(&self, identity: &Identity) -> &[u64]
        ensures { result.now ≡ numbers_of self.now (ByIdentity identity.now) }
    {
        lists::numbers_under(&self.identities, identity)
    }

    /// The numbers listed under a key. It takes no memory.
    pub fn of_key(&self, key: &str) -> &[u64]
        ensures { result.now ≡ numbers_of self.now (ByKey key.now) }
    {
        texts::numbers_under(&self.keys, key)
    }

    /// The numbers listed under the service of a text. It takes no memory.
    pub fn of_service(&self, text: &str) -> &[u64]
        ensures { (service : Service) → text.now ≡ service_text service
            → result.now ≡ numbers_of self.now (ByService service) }
    {
        texts::numbers_under(&self.services, text)
    }

    /// The numbers listed under the service of a text as defaults. It takes no memory.
    pub fn of_default(&self, text: &str) -> &[u64]
        ensures { (service : Service) → text.now ≡ service_text service
            → result.now ≡ numbers_of self.now (ByDefault service) }
    {
        texts::numbers_under(&self.defaults, text)
    }

    /// The number of services with a list.
    pub fn service_count(&self) -> usize
        ensures { result ≡ length (service_rows self.now) }
    {
        self.services.len()
    }

    /// The text of one of the services with a list, and the numbers in its list. It takes no memory.
    pub fn service_at(&self, position: usize) -> (&str, &[u64])
        requires { position < length (service_rows self.now) }
        ensures { slice_get (service_rows self.now) position ≡ Some (result.0.now, result.1.now) }
    {
        match self.services.get_index(position) {
            Some((text, cell)) => (text.as_str(), cell.numbers()),
            None => unreachable!(),
        }
    }

    /// Lists a number under each note of a mapping. If memory is refused, it is listed under none of them.
    pub fn add_mapping(&mut self, mapping: &Mapping, number: u64) -> Result<(), AllocError>
        ensures listed { OnOk result (IsFullyListed self.new mapping.now number) }
        ensures keeps { OnOk result (Keeps self.old self.new) }
        ensures refused { OnErr result (IsNowhereListed self.new mapping.now number) }
        ensures others { KeepsOthers number self.old self.new }
    {
        if self.list(mapping, number).is_err() {
            self.remove_mapping(mapping, number);
            return Err(AllocError);
        }
        Ok(())
    }

    /// Removes a number from each note of a mapping. It takes no memory.
    pub fn remove_mapping(&mut self, mapping: &Mapping, number: u64)
        ensures gone { IsNowhereListed self.new mapping.now number }
        ensures others { KeepsOthers number self.old self.new }
    {
        let service = mapping.service().text();
        lists::unlist(&mut self.identities, mapping.identity(), None, number);
        texts::unlist(&mut self.keys, mapping.key(), None, number);
        texts::unlist(&mut self.services, Some(service), None, number);
        texts::unlist(&mut self.defaults, default_text(mapping), None, number);
    }

    /// Lists the number of a mapping under each note of its replacement. If memory is refused, it is listed under none
    /// of the notes that the old mapping does not have.
    pub fn add_change(
        &mut self,
        old: &Mapping,
        new: &Mapping,
        number: u64,
    ) -> Result<(), AllocError>
        ensures listed { OnOk result (IsFullyListed self.new new.now number) }
        ensures keeps { OnOk result (Keeps self.old self.new) }
        ensures refused { OnErr result (IsListedAtMostAs self.new old.now new.now number) }
        ensures others { KeepsOthers number self.old self.new }
        ensures remaining { IsFullyListed self.old old.now number → IsFullyListed self.new old.now number }
    {
        if self.list(new, number).is_err() {
            self.remove_change(new, old, number);
            return Err(AllocError);
        }
        Ok(())
    }

    /// Removes a number from those notes of a mapping that another mapping does not have. It takes no memory.
    pub fn remove_change(&mut self, gone: &Mapping, remaining: &Mapping, number: u64)
        ensures gone { IsListedAtMostAs self.new remaining.now gone.now number }
        ensures others { KeepsOthers number self.old self.new }
        ensures remaining { IsFullyListed self.old remaining.now number → IsFullyListed self.new remaining.now number }
    {
        let (service, kept) = (gone.service().text(), remaining.service().text());
        let (identity, same) = (gone.identity(), remaining.identity());
        lists::unlist(&mut self.identities, identity, Some(same), number);
        texts::unlist(&mut self.keys, gone.key(), remaining.key(), number);
        texts::unlist(&mut self.services, Some(service), Some(kept), number);
        texts::unlist(
            &mut self.defaults,
            default_text(gone),
            default_text(remaining),
            number,
        );
    }

    /// Lists a number under each note of a mapping. If memory is refused, what was listed stays.
    fn list(&mut self, mapping: &Mapping, number: u64) -> Result<(), AllocError>
        ensures listed { OnOk result (IsFullyListed self.new mapping.now number) }
        ensures keeps { Keeps self.old self.new }
    {
        let service = mapping.service().text();
        identities::list(&mut self.identities, self.alloc, mapping.identity(), number)?;
        texts::list(&mut self.keys, self.alloc, mapping.key(), number)?;
        texts::list(&mut self.services, self.alloc, Some(service), number)?;
        texts::list(
            &mut self.defaults,
            self.alloc,
            default_text(mapping),
            number,
        )?;
        Ok(())
    }
}
