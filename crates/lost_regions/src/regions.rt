//! The indexes of regions.
ghost use Rattle.std.specs.Prelude.{◌≡◌, ◌∷◌, ◌++◌, ℕ, [], All, Contains, IfOk, OnOk, OnErr};
ghost use Rattle.std.specs.List.Sorted.{IsStrictlyIncreasing};
ghost use Rattle.lost_location.specs.Place.{place_of};
ghost use Rattle.lost_civicdex.specs.Covers.{names_all};
ghost use Rattle.lost_civicdex.specs.NamedElements.{names_element};
ghost use Rattle.lost_index.specs.Entries.{IsAbove, IsHeld, holders, with_number};
ghost use Rattle.lost_regions.specs.UnderNumber.{IsHeldWith};
ghost use Rattle.lost_regions.specs.Regions.{no_regions, AreHeld, IsAboveAll, HasAll, joined, with_mapping, with_more, with_other, without_number, numbers_at, holders_at};

use crate::copies::{patterns_of, polygons_of, token_sets_of};
use crate::mapped_geodetic::MappedGeodetic2d;
use crate::named_patterns::NamedPatterns;
use crate::part::{keep_first, keep_first_polygons, keep_rest, keep_rest_polygons};
use lost_civic::Element;
use lost_civicdex::{Civic, RequiredElements};
use lost_index::Index;
use lost_location::Place;
use lost_mapping::Mapping;
use lost_profile::Tokens;
use std::alloc::{AllocError, Global};
use std::marker::Model;

/// The regions of mappings under their numbers, which rise. Contracts see four lists of (number, regions).
pub struct Regions {
    alloc: Global,
    points: Index<MappedGeodetic2d>,
    addresses: Index<Civic>,
    references: NamedPatterns,
    tokens: Index<Tokens>,
}

impl Drop for Regions {
    fn drop(self) {
        let Regions {
            alloc: _,
            points: _,
            addresses: _,
            references: _,
            tokens: _,
        } = self;
    }
}

impl Model for Regions {
    ghost use Rattle.lost_regions.specs.Regions as spec;

    ghost Value = { spec.Regions };

    ghost view = { λ r. record { points = r.points; addresses = r.addresses; references = r.references; tokens = r.tokens } };
}

impl Regions {
    /// No regions. It takes no memory.
    pub fn new(alloc: Global) -> Regions
        ensures { result ≡ no_regions }
    {
        Regions {
            alloc,
            points: Index::new(alloc),
            addresses: Index::new(alloc),
            references: NamedPatterns::new(alloc),
            tokens: Index::new(alloc),
        }
    }

    /// Adds a number with the regions of a mapping. The number is above all held. If memory is refused, nothing
    /// changes.
    pub fn put(&mut self, number: u64, mapping: &Mapping) -> Result<(), AllocError>
        requires { IsAboveAll number self.old }
        ensures put { OnOk result (self.new ≡ with_mapping number mapping.now self.old) }
        ensures refused { OnErr result (self.new ≡ self.old) }
    {
        self.points.put(number, polygons_of(self.alloc, mapping)?)?;
        if self.put_named(number, mapping).is_err() {
            self.points.take(number);
            return Err(AllocError);
        }
        Ok(())
    }

    /// Does the same for the token sets and the patterns alone.
    fn put_named(&mut self, number: u64, mapping: &Mapping) -> Result<(), AllocError>
        requires addresses { IsAbove number self.old.addresses }
        requires references { IsAbove number self.old.references }
        requires tokens { IsAbove number self.old.tokens }
        ensures put { OnOk result (self.new ≡ record {
          points = self.old.points;
          addresses = self.old.addresses ++ (number, mapping.now.regions.patterns) ∷ [];
          references = self.old.references ++ (number, mapping.now.regions.patterns) ∷ [];
          tokens = self.old.tokens ++ (number, mapping.now.regions.token_sets) ∷ [];
        }) }
        ensures refused { OnErr result (self.new ≡ self.old) }
    {
        self.tokens
            .put(number, token_sets_of(self.alloc, mapping)?)?;
        if self.put_patterns(number, mapping).is_err() {
            self.tokens.take(number);
            return Err(AllocError);
        }
        Ok(())
    }

    /// Does the same for the patterns alone.
    fn put_patterns(&mut self, number: u64, mapping: &Mapping) -> Result<(), AllocError>
        requires addresses { IsAbove number self.old.addresses }
        requires references { IsAbove number self.old.references }
        ensures put { OnOk result (self.new ≡ record {
          points = self.old.points;
          addresses = self.old.addresses ++ (number, mapping.now.regions.patterns) ∷ [];
          references = self.old.references ++ (number, mapping.now.regions.patterns) ∷ [];
          tokens = self.old.tokens;
        }) }
        ensures refused { OnErr result (self.new ≡ self.old) }
    {
        self.addresses
            .put(number, patterns_of(self.alloc, mapping)?)?;
        if self.references.put(self.alloc, number, mapping).is_err() {
            self.addresses.take(number);
            return Err(AllocError);
        }
        Ok(())
    }

    /// Replaces the regions of a held number by those of another mapping. If memory is refused, nothing changes.
    pub fn change(&mut self, number: u64, old: &Mapping, new: &Mapping) -> Result<(), AllocError>
        requires { HasAll number old.now.regions self.old }
        ensures changed { OnOk result (self.new ≡ with_other number new.now self.old) }
        ensures refused { OnErr result (self.new ≡ self.old) }
    {
        self.grow(number, old, new)?;
        self.shed(number, old, new);
        Ok(())
    }

    /// Adds the regions of another mapping behind those of a number. If memory is refused, nothing changes.
    fn grow(&mut self, number: u64, old: &Mapping, new: &Mapping) -> Result<(), AllocError>
        requires { HasAll number old.now.regions self.old }
        ensures grown { OnOk result (self.new ≡ with_more number new.now self.old) }
        ensures refused { OnErr result (self.new ≡ self.old) }
    {
        self.points.add(number, polygons_of(self.alloc, new)?)?;
        if self.grow_named(number, old, new).is_err() {
            keep_first_polygons(&mut self.points, number, old.polygons(), new.polygons());
            return Err(AllocError);
        }
        Ok(())
    }

    /// Does the same for the token sets and the patterns alone.
    fn grow_named(&mut self, number: u64, old: &Mapping, new: &Mapping) -> Result<(), AllocError>
        requires addresses { IsHeldWith number old.now.regions.patterns self.old.addresses }
        requires references { IsHeldWith number old.now.regions.patterns self.old.references }
        requires tokens { IsHeldWith number old.now.regions.token_sets self.old.tokens }
        ensures grown { OnOk result (self.new ≡ record {
          points = self.old.points;
          addresses = with_number number (λ regions. regions ++ new.now.regions.patterns) self.old.addresses;
          references = with_number number (λ regions. regions ++ new.now.regions.patterns) self.old.references;
          tokens = with_number number (λ regions. regions ++ new.now.regions.token_sets) self.old.tokens;
        }) }
        ensures refused { OnErr result (self.new ≡ self.old) }
    {
        self.tokens.add(number, token_sets_of(self.alloc, new)?)?;
        if self.grow_patterns(number, old, new).is_err() {
            keep_first(&mut self.tokens, number, old.token_sets(), new.token_sets());
            return Err(AllocError);
        }
        Ok(())
    }

    /// Does the same for the patterns alone.
    fn grow_patterns(&mut self, number: u64, old: &Mapping, new: &Mapping) -> Result<(), AllocError>
        requires addresses { IsHeldWith number old.now.regions.patterns self.old.addresses }
        requires references { IsHeldWith number old.now.regions.patterns self.old.references }
        ensures grown { OnOk result (self.new ≡ record {
          points = self.old.points;
          addresses = with_number number (λ regions. regions ++ new.now.regions.patterns) self.old.addresses;
          references = with_number number (λ regions. regions ++ new.now.regions.patterns) self.old.references;
          tokens = self.old.tokens;
        }) }
        ensures refused { OnErr result (self.new ≡ self.old) }
    {
        self.addresses.add(number, patterns_of(self.alloc, new)?)?;
        if self.references.add(self.alloc, number, old, new).is_err() {
            keep_first(&mut self.addresses, number, old.patterns(), new.patterns());
            return Err(AllocError);
        }
        Ok(())
    }

    /// Keeps only the new mapping's regions of a number, which stand behind the old mapping's. It takes no memory.
    fn shed(&mut self, number: u64, old: &Mapping, new: &Mapping)
        requires { HasAll number (joined old.now.regions new.now.regions) self.old }
        ensures { self.new ≡ with_other number new.now self.old }
    {
        keep_rest_polygons(&mut self.points, number, old.polygons(), new.polygons());
        keep_rest(&mut self.addresses, number, old.patterns(), new.patterns());
        self.references.shed(number, old, new);
        keep_rest(&mut self.tokens, number, old.token_sets(), new.token_sets());
    }

    /// Removes a held number with its regions. It takes no memory.
    pub fn take(&mut self, number: u64)
        requires { AreHeld number self.old }
        ensures { self.new ≡ without_number number self.old }
    {
        self.points.take(number);
        self.addresses.take(number);
        self.references.take(number);
        self.tokens.take(number);
    }

    /// Numbers with a region of the place's kind that may contain it, rising, each once. Each number with a region that
    /// contains it is among them (RFC 5222, section 12). No region is asked.
    pub fn near(&self, place: &Place) -> Result<Vec<u64>, AllocError>
        ensures holders { IfOk result (λ near. (number : ℕ)
            → Contains (holders_at (place_of place.now) self.now) number → Contains near.items number) }
        ensures held { IfOk result (λ near. All (Contains (numbers_at (place_of place.now) self.now)) near.items) }
        ensures rising { IfOk result (λ near. IsStrictlyIncreasing near.items) }
    {
        match place {
            Place::Point(point) => {
                // A local copy is not read anew for each note.
                let point = *point;
                self.points.near(&point)
            }
            Place::Address(address) => self.addresses.near(address),
            Place::Token(token) => self.tokens.near(token),
        }
    }

    /// Numbers with a pattern that may name all required elements, rising, each once. Each number with a pattern that
    /// names them is among them (RFC 5222, section 8.4.2; own policy). No region is asked.
    pub fn near_required(&self, required: &RequiredElements) -> Result<Vec<u64>, AllocError>
        ensures holders { IfOk result (λ near. (number : ℕ)
            → Contains (holders names_all required.now self.now.references) number → Contains near.items number) }
        ensures held { IfOk result (λ near. All (λ number. IsHeld number self.now.references) near.items) }
        ensures rising { IfOk result (λ near. IsStrictlyIncreasing near.items) }
    {
        self.references.near_required(required)
    }

    /// Numbers with a pattern that may name the element, rising, each once. Each number with a pattern that names it is
    /// among them (RFC 5222, section 8.4.2; own policy). No region is asked.
    pub fn near_element(&self, element: Element) -> Result<Vec<u64>, AllocError>
        ensures holders { IfOk result (λ near. (number : ℕ)
            → Contains (holders names_element element self.now.references) number → Contains near.items number) }
        ensures held { IfOk result (λ near. All (λ number. IsHeld number self.now.references) near.items) }
        ensures rising { IfOk result (λ near. IsStrictlyIncreasing near.items) }
    {
        self.references.near_element(element)
    }
}
