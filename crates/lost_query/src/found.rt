//! Mappings found, one after another.
ghost use Rattle.std.specs.Prelude.{◌≡◌, [], ◌∷◌, ◌++◌, OnOk};
ghost use Rattle.lost_query.specs.Finding.{all_found};

use lost_mapping::Mapping;
use std::alloc::{AllocError, Global};

/// The mappings found of a service, at least one, in their order. A single one takes no memory for a list.
#[derive(Drop)]
pub(crate) struct Found {
    pub first: Mapping,
    pub rest: Vec<Mapping>,
}

/// Adds a mapping at the end.
pub(crate) fn add_found(
    alloc: Global,
    found: &mut Option<Found>,
    mapping: Mapping,
) -> Result<(), AllocError>
    ensures { OnOk result (all_found found.new ≡ all_found found.old ++ mapping ∷ []) }
{
    match found {
        Some(found) => found.rest.push(mapping)?,
        None => {
            *found = Some(Found {
                first: mapping,
                rest: Vec::new(alloc),
            });
        }
    }
    Ok(())
}
