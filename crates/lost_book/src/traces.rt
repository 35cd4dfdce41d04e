//! The remembered stamps of withdrawn identities.
ghost use Rattle.std.specs.Prelude.{◌≡◌, ◌<◌, [], length, slice_get, Some, IfOk, OnOk, OnErr};
ghost use Rattle.std.specs.Option.{option_copied};
ghost use Rattle.lost_spec.specs.Book.{stamp_of_trace, with_trace, without_trace};

use indexmap::IndexMap;
use lost_mapping::{Identity, Stamp};
use std::alloc::{AllocError, Global};
use std::marker::Model;

/// The withdrawn identities, each with the stamp of its withdrawal. Contracts see them as the list of these pairs. No
/// call but `clone` costs more where more are remembered.
#[derive(Drop)]
pub struct Traces {
    alloc: Global,
    stamps: IndexMap<Identity, Stamp>,
}

impl Model for Traces {
    ghost use Rattle.std.specs.Prelude.{List};
    ghost use Rattle.lost_spec.specs.Book.{Trace};

    ghost Value = { List Trace };

    ghost view = { λ t. t.stamps.entries };
}

impl Traces {
    /// No traces. It takes no memory.
    pub fn new(alloc: Global) -> Traces
        ensures { result ≡ [] }
    {
        Traces {
            alloc,
            stamps: IndexMap::new(alloc),
        }
    }

    /// How many identities are remembered. It takes no memory.
    pub fn len(&self) -> usize
        ensures { result ≡ length self.now }
    {
        self.stamps.len()
    }

    /// The stamp of the withdrawal of this identity, where it is remembered. It takes no memory.
    pub fn stamp(&self, identity: &Identity) -> Option<&Stamp>
        ensures { option_copied result ≡ stamp_of_trace self.now identity.now }
    {
        self.stamps.get(identity)
    }

    /// The identity and the stamp at a position, which is below `len`. It takes no memory.
    pub fn at(&self, position: usize) -> (&Identity, &Stamp)
        requires { position < length self.now }
        ensures { slice_get self.now position ≡ Some (result.0.now, result.1.now) }
    {
        match self.stamps.get_index(position) {
            Some(trace) => trace,
            None => unreachable!(),
        }
    }

    /// Remembers a withdrawal. If memory is refused, nothing changes.
    #[tactic(auto, using(crate::proofs::TraceLemmas::remembers))]
    pub fn remember(&mut self, identity: &Identity, stamp: &Stamp) -> Result<(), AllocError>
        ensures remembered { OnOk result (self.new ≡ with_trace identity.now stamp.now self.old) }
        ensures refused { OnErr result (self.new ≡ self.old) }
    {
        self.stamps.insert(identity.clone()?, stamp.clone()?)?;
        Ok(())
    }

    /// Forgets the withdrawal of this identity, where it is remembered. It takes no memory.
    #[tactic(auto, using(crate::proofs::TraceLemmas::forgets))]
    pub fn forget(&mut self, identity: &Identity)
        ensures { self.new ≡ without_trace identity.now self.old }
    {
        self.stamps.swap_remove(identity);
    }

    /// A copy.
    pub fn clone(&self) -> Result<Traces, AllocError>
        ensures { IfOk result (λ copy. copy ≡ self.now) }
    {
        let mut copy = Traces::new(self.alloc);
        for position in 0..self.stamps.len() {
            match self.stamps.get_index(position) {
                Some((identity, stamp)) => copy.remember(identity, stamp)?,
                None => unreachable!(),
            }
        }
        Ok(copy)
    }
}
