//! The mappings under their numbers, with the tables and the indexes that find them.
ghost use Rattle.std.specs.Prelude.{◌≡◌, ◌<◌, Some, length, slice_get, IfOk, OnOk, OnErr};
ghost use Rattle.lost_routing.specs.Invariants.{IsNew};
ghost use Rattle.lost_routing.specs.Store.{nothing_stored, with_last, with_mapping_at, without_position};

use crate::classes::Classes;
use crate::entering::{enter, exchange, leave};
use lost_mapping::Mapping;
use lost_regions::Regions;
use lost_tables::{NumberedMappings, Tables};
use std::alloc::{AllocError, Global};
use std::marker::Model;

/// Mappings, each under a number; the numbers rise. Contracts see the numbers, and the mappings at the same positions.
/// A number tells the class of its mapping's service. A class is among the strays once a mapping has it whose number tells
/// another one, since a replacement changed the service.
#[derive(Drop)]
pub(crate) struct Store {
    pub(crate) alloc: Global,
    pub(crate) rows: NumberedMappings,
    pub(crate) tables: Tables,
    pub(crate) regions: Regions,
    pub(crate) strays: Classes,
}

impl Model for Store {
    ghost use Rattle.lost_routing.specs.Store as spec;
    ghost use Rattle.lost_routing.specs.Invariants.{IsClassed};

    ghost Value = { spec.Stored };

    ghost view = { λ h. record { numbers = h.rows.numbers; mappings = h.rows.mappings } };

    ghost invariant = { λ h. IsClassed h.rows.numbers h.rows.mappings h.tables h.regions h.strays };
}

impl Store {
    /// No mappings. It takes no memory.
    pub(crate) fn new(alloc: Global) -> Store
        ensures { result ≡ nothing_stored }
    {
        Store {
            alloc,
            rows: NumberedMappings::new(alloc),
            tables: Tables::new(alloc),
            regions: Regions::new(alloc),
            strays: Classes::none(),
        }
    }

    /// The number of mappings.
    pub(crate) fn len(&self) -> usize
        ensures { result ≡ length self.now.mappings }
    {
        self.rows.len()
    }

    /// The mapping at a position.
    pub(crate) fn mapping(&self, position: usize) -> &Mapping
        requires { position < length self.now.mappings }
        ensures { slice_get self.now.mappings position ≡ Some result.now }
    {
        self.rows.at(position)
    }

    /// Adds a mapping at the end, under a number that is above all. If memory is refused, nothing changes.
    pub(crate) fn put(&mut self, number: u64, mapping: Mapping) -> Result<(), AllocError>
        requires { IsNew number self.old.numbers }
        ensures put { OnOk result (self.new ≡ with_last number mapping self.old) }
        ensures refused { OnErr result (self.new ≡ self.old) }
    {
        let position = self.rows.len();
        self.rows.push(number, mapping)?;
        let mapping = self.rows.at(position);
        if enter(&mut self.tables, &mut self.regions, mapping, number).is_err() {
            self.rows.remove(position);
            return Err(AllocError);
        }
        self.strays.mark_untold(number, mapping);
        Ok(())
    }

    /// Replaces the mapping at a position, under its number. If memory is refused, nothing changes.
    pub(crate) fn change(&mut self, position: usize, mapping: Mapping) -> Result<(), AllocError>
        requires { position < length self.old.mappings }
        ensures changed { OnOk result (self.new ≡ with_mapping_at position mapping self.old) }
        ensures refused { OnErr result (self.new ≡ self.old) }
    {
        let number = self.rows.number_at(position);
        exchange(
            &mut self.tables,
            &mut self.regions,
            self.rows.at(position),
            &mapping,
            number,
        )?;
        self.strays.mark_untold(number, &mapping);
        self.rows.set(position, mapping);
        Ok(())
    }

    /// Removes the mapping at a position, with its number. It takes no memory.
    pub(crate) fn take(&mut self, position: usize)
        requires { position < length self.old.mappings }
        ensures { self.new ≡ without_position position self.old }
    {
        let (number, mapping) = self.rows.remove(position);
        leave(&mut self.tables, &mut self.regions, &mapping, number);
    }

    /// The same mappings under the same numbers, with indexes of their own.
    pub(crate) fn clone(&self) -> Result<Store, AllocError>
        ensures { IfOk result (λ copy. copy ≡ self.now) }
    {
        let mut copy = Store::new(self.alloc);
        for position in 0..self.rows.len() {
            let mapping = self.rows.at(position).clone()?;
            copy.put(self.rows.number_at(position), mapping)?;
        }
        Ok(copy)
    }
}
