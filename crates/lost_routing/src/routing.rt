//! The indexed book.
ghost use Rattle.std.specs.Prelude.{◌≡◌, ◌<◌, Some, IfOk, length, slice_get};
ghost use Rattle.lost_spec.specs.Book.{empty_book};
ghost use Rattle.lost_spec.specs.Holders.{holders_of};
ghost use Rattle.lost_location.specs.Place.{place_of};

use crate::store::Store;
use lost_book::{Limits, Traces};
use lost_location::Place;
use lost_mapping::{Identity, Mapping, Stamp};
use std::alloc::{AllocError, Global};
use std::marker::Model;

/// A book with tables and indexes to find the mappings that a question is about, and the withdrawal of an identity.
/// Contracts see it as the record `Book`. A mapping's number is 64 times the edition before its publish, and the
/// class of its service; a replacement keeps it.
pub struct Routing {
    pub(crate) limits: Limits,
    pub(crate) edits: u64,
    pub(crate) store: Store,
    pub(crate) traces: Traces,
}

impl Drop for Routing {
    fn drop(self) {
        let Routing {
            limits: _,
            edits: _,
            store: _,
            traces: _,
        } = self;
    }
}

impl Model for Routing {
    ghost use Rattle.lost_spec.specs.Book as spec;
    ghost use Rattle.lost_routing.specs.Invariants.{IsRouted};

    ghost Value = { spec.Book };

    ghost view = { λ r. record { limits = r.limits; mappings = r.store.mappings; traces = r.traces; edits = r.edits } };

    ghost invariant = { λ r. IsRouted (record { limits = r.limits; mappings = r.store.mappings; traces = r.traces; edits = r.edits }) r.store.numbers };
}

impl Routing {
    /// An empty book within these limits.
    pub fn new(alloc: Global, limits: Limits) -> Result<Routing, AllocError>
        ensures { IfOk result (λ book. book ≡ empty_book limits) }
    {
        // Shows to the proof that the limit of edits has 32 bits.
        let _edits = limits.edits();
        Ok(Routing {
            limits,
            edits: 0,
            store: Store::new(alloc),
            traces: Traces::new(alloc),
        })
    }

    /// The number of accepted edits.
    pub fn edition(&self) -> u64
        ensures { result ≡ self.now.edits }
    {
        self.edits
    }

    /// The number of mappings held.
    pub fn len(&self) -> usize
        ensures { result ≡ length self.now.mappings }
    {
        self.store.len()
    }

    /// The mapping at a position, which is below `len`.
    pub fn mapping(&self, position: usize) -> &Mapping
        requires { position < length self.now.mappings }
        ensures { slice_get self.now.mappings position ≡ Some result.now }
    {
        self.store.mapping(position)
    }

    /// How many withdrawals are remembered.
    pub fn traces(&self) -> usize
        ensures { result ≡ length self.now.traces }
    {
        self.traces.len()
    }

    /// The identity and the stamp of the withdrawal at a position, which is below `traces`.
    pub fn trace(&self, position: usize) -> (&Identity, &Stamp)
        requires { position < length self.now.traces }
        ensures { slice_get self.now.traces position ≡ Some (result.0.now, result.1.now) }
    {
        self.traces.at(position)
    }

    /// The set of a place: the mappings that hold it, live or not, in rising positions (own rule).
    pub fn holders(&self, place: &Place) -> Result<Vec<usize>, AllocError>
        ensures { IfOk result (λ places. places.items ≡ holders_of self.now (place_of place.now)) }
    {
        let places = self.store.holders_of(place)?;
        Ok(places.into_vec()?)
    }

    /// An equal book. It costs a pointer for each mapping, a copy of each trace, and new indexes.
    pub fn clone(&self) -> Result<Routing, AllocError>
        ensures { IfOk result (λ copy. copy ≡ self.now) }
    {
        Ok(Routing {
            limits: self.limits,
            edits: self.edits,
            store: self.store.clone()?,
            traces: self.traces.clone()?,
        })
    }
}
