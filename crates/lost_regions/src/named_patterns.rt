//! The indexes of what patterns name.
ghost use Rattle.std.specs.Prelude.{◌≡◌, ◌∷◌, ◌++◌, ℕ, [], All, Contains, IfOk, OnOk, OnErr};
ghost use Rattle.std.specs.List.Sorted.{IsStrictlyIncreasing};
ghost use Rattle.lost_civicdex.specs.Covers.{names_all};
ghost use Rattle.lost_civicdex.specs.NamedElements.{names_element};
ghost use Rattle.lost_index.specs.Entries.{IsAbove, IsHeld, holders, with_number, without};
ghost use Rattle.lost_regions.specs.UnderNumber.{IsHeldWith};

use crate::copies::patterns_of;
use crate::part::{keep_first, keep_rest};
use lost_civic::Element;
use lost_civicdex::{Named, References, RequiredElements};
use lost_index::Index;
use lost_mapping::Mapping;
use std::alloc::{AllocError, Global};
use std::marker::Model;

/// The patterns of mappings under their numbers, which rise, in two indexes: by the elements that a pattern names with
/// their texts, and by the elements alone. Contracts see the list of (number, patterns) that both have.
#[derive(Drop)]
pub(crate) struct NamedPatterns {
    references: Index<References>,
    elements: Index<Named>,
}

impl Model for NamedPatterns {
    ghost use Rattle.std.specs.Prelude.{◌≡◌, ℕ, List};
    ghost use Rattle.lost_spec.specs.Civic.{Pairs};

    ghost Value = { List (ℕ × List Pairs) };

    ghost view = { λ p. p.references };

    ghost invariant = { λ p. p.elements ≡ p.references };
}

impl NamedPatterns {
    /// No patterns. It takes no memory.
    pub(crate) fn new(alloc: Global) -> NamedPatterns
        ensures { result ≡ [] }
    {
        NamedPatterns {
            references: Index::new(alloc),
            elements: Index::new(alloc),
        }
    }

    /// Adds a number with the patterns of a mapping. The number is above all held. If memory is refused, nothing
    /// changes.
    pub(crate) fn put(
        &mut self,
        alloc: Global,
        number: u64,
        mapping: &Mapping,
    ) -> Result<(), AllocError>
        requires { IsAbove number self.old }
        ensures put { OnOk result (self.new ≡ self.old ++ (number, mapping.now.regions.patterns) ∷ []) }
        ensures refused { OnErr result (self.new ≡ self.old) }
    {
        let patterns = patterns_of(alloc, mapping)?;
        self.references.put(number, patterns_of(alloc, mapping)?)?;
        if self.elements.put(number, patterns).is_err() {
            self.references.take(number);
            return Err(AllocError);
        }
        Ok(())
    }

    /// Adds the patterns of another mapping behind those of a number. If memory is refused, nothing changes.
    pub(crate) fn add(
        &mut self,
        alloc: Global,
        number: u64,
        old: &Mapping,
        new: &Mapping,
    ) -> Result<(), AllocError>
        requires { IsHeldWith number old.now.regions.patterns self.old }
        ensures added { OnOk result (self.new ≡ with_number number (λ regions. regions ++ new.now.regions.patterns) self.old) }
        ensures refused { OnErr result (self.new ≡ self.old) }
    {
        let patterns = patterns_of(alloc, new)?;
        self.references.add(number, patterns_of(alloc, new)?)?;
        if self.elements.add(number, patterns).is_err() {
            keep_first(&mut self.references, number, old.patterns(), new.patterns());
            return Err(AllocError);
        }
        Ok(())
    }

    /// Keeps only the new mapping's patterns of a number, which stand behind the old mapping's. It takes no memory.
    pub(crate) fn shed(&mut self, number: u64, old: &Mapping, new: &Mapping)
        requires { IsHeldWith number (old.now.regions.patterns ++ new.now.regions.patterns) self.old }
        ensures { self.new ≡ with_number number (λ _. new.now.regions.patterns) self.old }
    {
        keep_rest(&mut self.references, number, old.patterns(), new.patterns());
        keep_rest(&mut self.elements, number, old.patterns(), new.patterns());
    }

    /// Removes a held number with its patterns. It takes no memory.
    pub(crate) fn take(&mut self, number: u64)
        requires { IsHeld number self.old }
        ensures { self.new ≡ without number self.old }
    {
        self.references.take(number);
        self.elements.take(number);
    }

    /// Numbers whose patterns may name all required elements, rising, each once. Each number with a pattern that names
    /// them is among them. No pattern is asked.
    pub(crate) fn near_required(&self, required: &RequiredElements) -> Result<Vec<u64>, AllocError>
        ensures holders { IfOk result (λ near. (number : ℕ)
            → Contains (holders names_all required.now self.now) number → Contains near.items number) }
        ensures held { IfOk result (λ near. All (λ number. IsHeld number self.now) near.items) }
        ensures rising { IfOk result (λ near. IsStrictlyIncreasing near.items) }
    {
        self.references.near(required)
    }

    /// Numbers whose patterns may name the element, rising, each once. Each number with a pattern that names it is among
    /// them. No pattern is asked.
    pub(crate) fn near_element(&self, element: Element) -> Result<Vec<u64>, AllocError>
        ensures holders { IfOk result (λ near. (number : ℕ)
            → Contains (holders names_element element self.now) number → Contains near.items number) }
        ensures held { IfOk result (λ near. All (λ number. IsHeld number self.now) near.items) }
        ensures rising { IfOk result (λ near. IsStrictlyIncreasing near.items) }
    {
        self.elements.near(&element)
    }
}
