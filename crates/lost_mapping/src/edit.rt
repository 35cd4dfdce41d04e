//! The edits of a map desk.
ghost use Rattle.std.specs.Prelude.{◌≡◌, IfOk};

use crate::{Identity, Mapping, Stamp};
use std::alloc::AllocError;

/// An edit by the map desk.
#[derive(Drop)]
pub enum Edit {
    /// Holds a mapping of a new identity, after those held.
    Publish(Mapping),
    /// Replaces the mapping held with the same identity, in its place.
    Replace(Mapping),
    /// Removes the mapping with this identity; the stamp says when that was decided.
    Withdraw(Identity, Stamp),
}

impl Edit {
    ghost use Rattle.lost_mapping.specs.Edit.{edit_of};

    /// A copy. A mapping costs a pointer.
    pub fn clone(&self) -> Result<Edit, AllocError>
        ensures { IfOk result (λ copy. edit_of copy ≡ edit_of self.now) }
    {
        match self {
            Edit::Publish(mapping) => Ok(Edit::Publish(mapping.clone()?)),
            Edit::Replace(mapping) => Ok(Edit::Replace(mapping.clone()?)),
            Edit::Withdraw(identity, stamp) => Ok(Edit::Withdraw(
                identity.clone()?,
                stamp.clone()?,
            )),
        }
    }
}
