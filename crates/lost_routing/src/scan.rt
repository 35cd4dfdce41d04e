//! The questions of a small book, which look at each mapping.
ghost use Rattle.std.specs.Prelude.{◌≡◌, Bool, IfOk};
ghost use Rattle.std.specs.Fn.{FnReturnsAt};
ghost use Rattle.lost_spec.specs.Mapping as spec;
ghost use Rattle.lost_spec.specs.Positions.{positions};

use lost_mapping::Mapping;
use lost_query::{Picked, Positions};
use lost_tables::NumberedMappings;
use std::alloc::Global;

/// The most mappings for a look at each: to ask the index about a place costs as much as some thirty looks.
pub(crate) const FEW: usize = 16;

/// The positions, rising, of the mappings that pass a test, by a look at each.
pub(crate) fn scan<F: Fn(&Mapping) -> bool>(
    alloc: Global,
    rows: &NumberedMappings,
    passes: F,
) -> Picked
    requires { F.IsAlwaysCallable passes }
    ensures { (test : spec.Mapping → Bool) → ((m : spec.Mapping) (r : Bool) → FnReturnsAt F.Fn passes m r → r ≡ test m)
        → IfOk result (λ found. found.items ≡ positions test rows.now.mappings) }
{
    let mut found = Positions::new(alloc);
    for position in 0..rows.len() {
        if passes(rows.at(position)) {
            found.push(position)?;
        }
    }
    Ok(found)
}
