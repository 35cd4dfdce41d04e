//! The change that each kind of edit makes to the list of mappings. Nothing here checks the edit.
ghost use Rattle.std.specs.Prelude.{◌≡◌};
ghost use Rattle.lost_spec.specs.Book.{replaced, without};

use crate::held::position_of;
use lost_mapping::{Identity, Mapping};

/// Replaces the mapping that has the same identity, in its place.
pub(crate) fn replace(mappings: &mut Vec<Mapping>, mapping: Mapping)
    ensures { mappings.new.items ≡ replaced mapping mappings.old.items }
{
    if let Some(position) = position_of(mappings.as_slice(), mapping.identity()) {
        mappings[position] = mapping;
    }
}

/// Removes the mapping with this identity.
pub(crate) fn withdraw(mappings: &mut Vec<Mapping>, identity: &Identity)
    ensures { mappings.new.items ≡ without identity.now mappings.old.items }
{
    if let Some(position) = position_of(mappings.as_slice(), identity) {
        let _withdrawn = mappings.remove(position);
    }
}
