//! A list in chunks of one size.
ghost use Rattle.std.specs.Prelude.{◌≡◌, ◌<◌, ◌++◌, ◌∷◌, [], length, slice_get, slice_set, remove, OnOk, OnErr};
ghost use Rattle.std.specs.List.{slice_index_or};
ghost use Rattle.std.specs.Option.{option_copied};

use crate::chunks;
use std::alloc::{AllocError, Global};
use std::collections::VecDeque;
use std::marker::Model;

/// A list in chunks, all full but the last: a tiered vector. An element is found at once. A removal moves only the rest
/// of the chunk and one element of each later chunk. Contracts see it as its list.
#[derive(Drop)]
pub struct TieredVec<T> {
    alloc: Global,
    len: usize,
    chunks: Vec<VecDeque<T>>,
}

impl<T> Model for TieredVec<T> {
    ghost use Rattle.std.specs.Prelude.{List};
    ghost use Rattle.lost_tables.specs.Chunks.{elements, IsTiered};

    ghost Value = { List T };

    ghost view = { λ v. elements v.chunks.items };

    ghost invariant = { λ v. IsTiered v.len v.chunks.items };
}

impl<T> TieredVec<T> {
    /// An empty list. It takes no memory.
    pub fn new(alloc: Global) -> TieredVec<T>
        ensures { result ≡ [] }
    {
        TieredVec {
            alloc,
            len: 0,
            chunks: Vec::new(alloc),
        }
    }

    /// The number of elements.
    pub fn len(&self) -> usize
        ensures { result ≡ length self.now }
    {
        self.len
    }

    /// The element at a position, if there is one.
    pub fn get(&self, position: usize) -> Option<&T>
        ensures { option_copied result ≡ slice_get self.now position }
    {
        chunks::get(&self.chunks, position)
    }

    /// The element at a position below `len`.
    pub fn at(&self, position: usize) -> &T
        requires { position < length self.now }
        ensures { result.now ≡ slice_index_or self.now position result.now }
    {
        match self.get(position) {
            Some(element) => element,
            None => unreachable!(),
        }
    }

    /// Adds an element at the end. If memory is refused, nothing changes and the element is dropped.
    pub fn push(&mut self, element: T) -> Result<(), AllocError>
    where
        T: Drop,
        ensures pushed { OnOk result (self.new ≡ self.old ++ element ∷ []) }
        ensures refused { OnErr result (self.new ≡ self.old) }
    {
        let Some(len) = self.len.checked_add(1) else {
            return Err(AllocError);
        };
        chunks::push(&mut self.chunks, self.alloc, element)?;
        self.len = len;
        Ok(())
    }

    /// Replaces the element at a position.
    pub fn set(&mut self, position: usize, element: T)
    where
        T: Drop,
        requires { position < length self.old }
        ensures { self.new ≡ slice_set self.old position element }
    {
        chunks::set(&mut self.chunks, position, element);
    }

    /// Removes the element at a position. It takes no memory.
    pub fn remove(&mut self, position: usize) -> T
    where
        T: Drop,
        requires { position < length self.old }
        ensures value { result ≡ slice_index_or self.old position result }
        ensures rest { self.new ≡ remove self.old position }
    {
        let element = chunks::remove(&mut self.chunks, position);
        self.len -= 1;
        element
    }
}
