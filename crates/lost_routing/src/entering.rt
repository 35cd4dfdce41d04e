//! Changes to the tables and the indexes by an edit.
ghost use Rattle.std.specs.Prelude.{◌≡◌, OnOk, OnErr};
ghost use Rattle.lost_tables.specs.Lookup.{IsFullyListed, IsNowhereListed, IsListedAtMostAs, KeepsOthers};
ghost use Rattle.lost_regions.specs.Regions.{IsAboveAll, AreHeld, HasAll, with_mapping, with_other, without_number};

use lost_mapping::Mapping;
use lost_regions::Regions;
use lost_tables::Tables;
use std::alloc::AllocError;

/// Notes a mapping under a new number, and puts its regions there. If memory is refused, no region changes and the
/// notes are taken back.
pub(crate) fn enter(
    tables: &mut Tables,
    regions: &mut Regions,
    mapping: &Mapping,
    number: u64,
) -> Result<(), AllocError>
    requires { IsAboveAll number regions.old }
    ensures listed { OnOk result (IsFullyListed tables.new mapping.now number) }
    ensures unlisted { OnErr result (IsNowhereListed tables.new mapping.now number) }
    ensures others { KeepsOthers number tables.old tables.new }
    ensures put { OnOk result (regions.new ≡ with_mapping number mapping.now regions.old) }
    ensures refused { OnErr result (regions.new ≡ regions.old) }
{
    tables.add_mapping(mapping, number)?;
    if regions.put(number, mapping).is_err() {
        tables.remove_mapping(mapping, number);
        return Err(AllocError);
    }
    Ok(())
}

/// Notes a mapping in the place of another, under its number, and puts its regions there. If memory is refused, no
/// region changes and the new notes are taken back.
pub(crate) fn exchange(
    tables: &mut Tables,
    regions: &mut Regions,
    old: &Mapping,
    new: &Mapping,
    number: u64,
) -> Result<(), AllocError>
    requires { HasAll number old.now.regions regions.old }
    ensures listed { OnOk result (IsFullyListed tables.new new.now number) }
    ensures taken_back { OnOk result (IsListedAtMostAs tables.new new.now old.now number) }
    ensures unlisted { OnErr result (IsListedAtMostAs tables.new old.now new.now number) }
    ensures others { KeepsOthers number tables.old tables.new }
    ensures remaining { OnErr result (IsFullyListed tables.old old.now number → IsFullyListed tables.new old.now number) }
    ensures changed { OnOk result (regions.new ≡ with_other number new.now regions.old) }
    ensures refused { OnErr result (regions.new ≡ regions.old) }
{
    tables.add_change(old, new, number)?;
    if regions.change(number, old, new).is_err() {
        tables.remove_change(new, old, number);
        return Err(AllocError);
    }
    tables.remove_change(old, new, number);
    Ok(())
}

/// Takes back the notes of a mapping, and removes its regions. It takes no memory.
pub(crate) fn leave(tables: &mut Tables, regions: &mut Regions, mapping: &Mapping, number: u64)
    requires { AreHeld number regions.old }
    ensures unlisted { IsNowhereListed tables.new mapping.now number }
    ensures others { KeepsOthers number tables.old tables.new }
    ensures taken { regions.new ≡ without_number number regions.old }
{
    tables.remove_mapping(mapping, number);
    regions.take(number);
}
