//! Lists of numbers under identities.
ghost use Rattle.std.specs.Prelude.{OnOk};
ghost use Rattle.lost_tables.specs.Lists.{Stands, KeepsLists, under_identity};

use crate::cell::Cell;
use crate::lists;
use indexmap::IndexMap;
use lost_mapping::Identity;
use std::alloc::{AllocError, Global};

/// Lists a number under an identity. If memory is refused, what was listed stays.
pub(crate) fn list(
    lists: &mut IndexMap<Identity, Cell>,
    alloc: Global,
    identity: &Identity,
    number: u64,
) -> Result<(), AllocError>
    ensures listed { OnOk result (Stands number (under_identity lists.new identity.now)) }
    ensures keeps { KeepsLists (under_identity lists.old) (under_identity lists.new) }
{
    if lists::add(lists, identity, number)? {
        return Ok(());
    }
    lists::insert(lists, alloc, identity.clone()?, number)?;
    Ok(())
}
