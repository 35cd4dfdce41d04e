//! Mappings under their numbers.
ghost use Rattle.std.specs.Prelude.{◌≡◌, ◌<◌, ◌++◌, ◌∷◌, [], length, slice_get, slice_set, remove, OnOk, OnErr};
ghost use Rattle.std.specs.List.{slice_index_or};
ghost use Rattle.std.specs.Option.{option_copied};

use crate::tiered::TieredVec;
use lost_mapping::Mapping;
use std::alloc::{AllocError, Global};
use std::marker::Model;

/// Mappings, each under a number, in one list: a search that finds a number finds its mapping beside it. Contracts see
/// the list of the numbers, and that of the mappings at the same positions.
#[derive(Drop)]
pub struct NumberedMappings {
    pairs: TieredVec<(u64, Mapping)>,
}

impl Model for NumberedMappings {
    ghost use Rattle.lost_tables.specs.Numbered.{Numbered, numbered};

    ghost Value = { Numbered };

    ghost view = { λ a. numbered a.pairs };
}

impl NumberedMappings {
    ghost use Rattle.lost_tables.specs.Numbered.{numbered};

    /// No mappings. It takes no memory.
    pub fn new(alloc: Global) -> NumberedMappings
        ensures { result ≡ numbered [] }
    {
        NumberedMappings {
            pairs: TieredVec::new(alloc),
        }
    }

    /// The number of mappings.
    pub fn len(&self) -> usize
        ensures numbers { result ≡ length self.now.numbers }
        ensures mappings { result ≡ length self.now.mappings }
    {
        self.pairs.len()
    }

    /// The number at a position, if there is one.
    pub fn number(&self, position: usize) -> Option<u64>
        ensures { result ≡ slice_get self.now.numbers position }
    {
        match self.pairs.get(position) {
            Some(pair) => Some(pair.0),
            None => None,
        }
    }

    /// The mapping at a position, if there is one.
    pub fn get(&self, position: usize) -> Option<&Mapping>
        ensures { option_copied result ≡ slice_get self.now.mappings position }
    {
        match self.pairs.get(position) {
            Some(pair) => Some(&pair.1),
            None => None,
        }
    }

    /// The number at a position below `len`.
    pub fn number_at(&self, position: usize) -> u64
        requires { position < length self.now.mappings }
        ensures { result ≡ slice_index_or self.now.numbers position result }
    {
        self.pairs.at(position).0
    }

    /// The mapping at a position below `len`.
    pub fn at(&self, position: usize) -> &Mapping
        requires { position < length self.now.mappings }
        ensures { result.now ≡ slice_index_or self.now.mappings position result.now }
    {
        &self.pairs.at(position).1
    }

    /// Adds a mapping at the end, under a number. If memory is refused, nothing changes and the mapping is dropped.
    pub fn push(&mut self, number: u64, mapping: Mapping) -> Result<(), AllocError>
        ensures numbers { OnOk result (self.new.numbers ≡ self.old.numbers ++ number ∷ []) }
        ensures mappings { OnOk result (self.new.mappings ≡ self.old.mappings ++ mapping ∷ []) }
        ensures refused { OnErr result (self.new ≡ self.old) }
    {
        self.pairs.push((number, mapping))
    }

    /// Replaces the mapping at a position, under its number.
    pub fn set(&mut self, position: usize, mapping: Mapping)
        requires { position < length self.old.mappings }
        ensures numbers { self.new.numbers ≡ self.old.numbers }
        ensures mappings { self.new.mappings ≡ slice_set self.old.mappings position mapping }
    {
        let number = self.number_at(position);
        self.pairs.set(position, (number, mapping));
    }

    /// Removes the mapping at a position, with its number. It takes no memory.
    pub fn remove(&mut self, position: usize) -> (u64, Mapping)
        requires { position < length self.old.mappings }
        ensures number { result.0 ≡ slice_index_or self.old.numbers position result.0 }
        ensures mapping { result.1 ≡ slice_index_or self.old.mappings position result.1 }
        ensures numbers { self.new.numbers ≡ remove self.old.numbers position }
        ensures mappings { self.new.mappings ≡ remove self.old.mappings position }
    {
        self.pairs.remove(position)
    }
}
