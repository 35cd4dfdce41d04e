//! Which places came before, in a table of fixed size.

use std::alloc::{AllocError, Global};

/// The marks that places leave: the hash of a place, in the slot that the hash picks, until another place takes the
/// slot. Marks are hints: a lost mark, or one that stands for another place, changes only what is kept.
#[derive(Drop)]
pub(crate) struct Marks {
    slots: Vec<u64>,
}

impl Marks {
    /// No place came yet. There are `count` slots. With as many as the cache has room for places, a mark mostly lasts about
    /// as long as a place would stay in the cache: what comes more seldom would be pushed out before it is of use.
    pub(crate) fn new(alloc: Global, count: usize) -> Result<Marks, AllocError> {
        Ok(Marks {
            slots: vec![in alloc; 0; count]?,
        })
    }

    /// Whether a place with this hash has its mark. It has it afterwards.
    pub(crate) fn has_met(&mut self, hash: u64) -> bool {
        let Some(picked) = hash.checked_rem(self.slots.len() as u64) else {
            return false;
        };
        let Some(slot) = self.slots.get_mut(picked as usize) else {
            return false;
        };
        let has_met = *slot == hash;
        *slot = hash;
        has_met
    }
}
