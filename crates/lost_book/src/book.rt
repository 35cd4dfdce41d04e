//! The book: the mappings held, in order, and the stamps of withdrawn identities.
ghost use Rattle.std.specs.Prelude.{◌≡◌, ◌<◌, Some, IfOk, length, slice_get};
ghost use Rattle.lost_spec.specs.Book.{empty_book};

use crate::limits::Limits;
use crate::traces::Traces;
use lost_mapping::Mapping;
use std::alloc::{AllocError, Global};
use std::marker::Model;

mod apply;
mod check;
mod scans;

/// The mappings held, in order, with the limits, the stamps of withdrawn identities, and the number of accepted edits.
/// Contracts see it as the record `Book`.
pub struct Book {
    limits: Limits,
    mappings: Vec<Mapping>,
    traces: Traces,
    edits: u64,
}

impl Drop for Book {
    fn drop(self) {
        let Book {
            limits: _,
            mappings: _,
            traces: _,
            edits: _,
        } = self;
    }
}

impl Model for Book {
    ghost use Rattle.lost_spec.specs.Book as spec;
    ghost use Rattle.lost_book.specs.Bounds.{IsCounted};

    ghost Value = { spec.Book };

    ghost view = { λ b. record { limits = b.limits; mappings = b.mappings.items; traces = b.traces; edits = b.edits } };

    ghost invariant = { λ b. IsCounted (record { limits = b.limits; mappings = b.mappings.items; traces = b.traces; edits = b.edits }) };
}

impl Book {
    /// An empty book within these limits.
    pub fn new(alloc: Global, limits: Limits) -> Result<Book, AllocError>
        ensures { IfOk result (λ book. book ≡ empty_book limits) }
    {
        // Shows to the proof that the limit of edits has 32 bits.
        let _edits = limits.edits();
        Ok(Book {
            limits,
            mappings: Vec::new(alloc),
            traces: Traces::new(alloc),
            edits: 0,
        })
    }

    /// How many edits were accepted.
    pub fn edition(&self) -> u64
        ensures { result ≡ self.now.edits }
    {
        self.edits
    }

    /// How many mappings are held.
    pub fn len(&self) -> usize
        ensures { result ≡ length self.now.mappings }
    {
        self.mappings.len()
    }

    /// The mapping at a position, which is below `len`.
    pub fn mapping(&self, position: usize) -> &Mapping
        requires { position < length self.now.mappings }
        ensures { slice_get self.now.mappings position ≡ Some result.now }
    {
        &self.mappings[position]
    }

    /// The mappings held, in order.
    fn mappings(&self) -> &[Mapping]
        ensures { result.now ≡ self.now.mappings }
    {
        self.mappings.as_slice()
    }

    /// The allocator that the book keeps.
    pub fn alloc(&self) -> Global {
        *self.mappings.allocator()
    }

    /// A copy. It costs a pointer for each mapping, and a copy of each trace.
    pub fn clone(&self) -> Result<Book, AllocError>
        ensures { IfOk result (λ copy. copy ≡ self.now) }
    {
        Ok(Book {
            limits: self.limits,
            mappings: copied(&self.mappings)?,
            traces: self.traces.clone()?,
            edits: self.edits,
        })
    }
}

/// The same mappings in a list of their own.
fn copied(mappings: &Vec<Mapping>) -> Result<Vec<Mapping>, AllocError>
    ensures { IfOk result (λ copy. copy.items ≡ mappings.now.items) }
{
    let mut copy = Vec::with_capacity(*mappings.allocator(), mappings.len())?;
    for mapping in mappings {
        copy.push(mapping.clone()?)?;
    }
    Ok(copy)
}
