//! Mappings by their positions.
ghost use Rattle.std.specs.Prelude.{◌≡◌, ◌<◌, IfOk, length, filter};
ghost use Rattle.std.specs.List.{All};
ghost use Rattle.lost_spec.specs.Service.{same_service};
ghost use Rattle.lost_query.specs.Finding.{at_positions, all_found};

use crate::found::{Found, add_found};
use crate::holdings::Holdings;
use lost_urn::ServiceUrn;
use std::alloc::{AllocError, Global};

/// The mappings at these positions, in their order.
pub(crate) fn standing_at<H: Holdings>(
    alloc: Global,
    holdings: &H,
    positions: &[usize],
) -> Result<Option<Found>, AllocError>
    requires { All (λ position. position < length (H.book holdings.now).mappings) positions.now }
    ensures { IfOk result (λ found.
        all_found found ≡ at_positions (H.book holdings.now).mappings positions.now) }
{
    let mut found = None;
    for position in positions {
        add_found(alloc, &mut found, holdings.mapping(*position).clone()?)?;
    }
    Ok(found)
}

/// The mappings at these positions that have this service, in their order.
pub(crate) fn of_service_at<H: Holdings>(
    alloc: Global,
    holdings: &H,
    positions: &[usize],
    service: &ServiceUrn,
) -> Result<Option<Found>, AllocError>
    requires { All (λ position. position < length (H.book holdings.now).mappings) positions.now }
    ensures { IfOk result (λ found. all_found found
        ≡ filter (λ m. same_service m.service service.now) (at_positions (H.book holdings.now).mappings positions.now)) }
{
    let mut found = None;
    for position in positions {
        let mapping = holdings.mapping(*position);
        if mapping.service() == service {
            add_found(alloc, &mut found, mapping.clone()?)?;
        }
    }
    Ok(found)
}
