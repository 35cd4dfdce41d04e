//! Which mappings of a set are shown at an instant.
ghost use Rattle.std.specs.Prelude.{◌≡◌, ◌<◌, IfOk, length, filter};
ghost use Rattle.std.specs.List.{All};
ghost use Rattle.lost_desk.specs.Sets.{is_living_at};

use lost_mapping::Moment;
use lost_query::Positions;
use lost_routing::Routing;
use std::alloc::{AllocError, Global};

/// The positions whose mappings are live and no defaults, in their order. The positions are below the book's `len`; up
/// to two of them take no memory.
pub(crate) fn living_among(
    alloc: Global,
    book: &Routing,
    moment: &Moment,
    positions: &[usize],
) -> Result<Positions, AllocError>
    requires { All (λ place. place < length book.now.mappings) positions.now }
    ensures { IfOk result (λ living.
        living.items ≡ filter (is_living_at moment.now book.now.mappings) positions.now) }
{
    let mut living = Positions::with_capacity(alloc, positions.len())?;
    for position in positions {
        let mapping = book.mapping(*position);
        if mapping.is_live(moment) && !mapping.is_default() {
            living.push(*position)?;
        }
    }
    Ok(living)
}
