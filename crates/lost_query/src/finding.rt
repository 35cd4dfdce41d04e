//! What is found for a service at a place (RFC 5222, section 8; policy own).
ghost use Rattle.std.specs.Prelude.{◌≡◌, IfOk};
ghost use Rattle.lost_spec.specs.Service.{chain};
ghost use Rattle.lost_spec.specs.Find.{at, defaults, first_with, found};
ghost use Rattle.lost_query.specs.Finding.{all_found, first_of, finding_of};
ghost use Rattle.lost_location.specs.Place.{place_of};

use crate::chain::ChainService;
use crate::found::Found;
use crate::holdings::Holdings;
use crate::picks::{of_service_at, standing_at};
use lost_location::Place;
use lost_mapping::Moment;
use lost_urn::ServiceUrn;
use std::alloc::{AllocError, Global};

/// What is found for a service at a place: the first service of its chain that has any mappings, with them.
#[derive(Drop)]
pub(crate) enum Finding<'a> {
    /// Mappings that hold the place.
    Holders(ChainService<'a>, Found),
    /// Defaults, if no service of the chain has a mapping that holds the place.
    Defaults(ChainService<'a>, Found),
    /// Neither holders nor defaults.
    Nothing,
}

/// The live mappings that hold the place, of the first service of the chain that has any. If none has, those of the
/// first that has live defaults (RFC 5222, section 8; policy own).
#[tactic(auto, unfolding(lost_spec::specs::Find::found))]
pub(crate) fn find<'a, H: Holdings>(
    alloc: Global,
    holdings: &H,
    moment: &Moment,
    place: &Place,
    service: &'a ServiceUrn,
) -> Result<Finding<'a>, AllocError>
    ensures { IfOk result (λ finding.
        finding_of finding ≡ found (H.book holdings.now) moment.now (place_of place.now) service.now) }
{
    if let Some((service, found)) = first_holders(alloc, holdings, moment, place, service)? {
        return Ok(Finding::Holders(service, found));
    }
    if let Some((service, found)) = first_defaults(alloc, holdings, moment, service)? {
        return Ok(Finding::Defaults(service, found));
    }
    Ok(Finding::Nothing)
}

/// The first service of the chain with live mappings that hold the place, with these mappings. The holdings are asked
/// once.
fn first_holders<'a, H: Holdings>(
    alloc: Global,
    holdings: &H,
    moment: &Moment,
    place: &Place,
    service: &'a ServiceUrn,
) -> Result<Option<(ChainService<'a>, Found)>, AllocError>
    ensures { IfOk result (λ first. first_of first
        ≡ first_with (at (H.book holdings.now) moment.now (place_of place.now)) (chain service.now)) }
{
    let positions = holdings.of_chain(moment, place, service)?;
    let mut depth = service.depth();
    while depth > 0 {
        let candidate = ChainService::of_depth(alloc, service, depth)?;
        if let Some(found) = of_service_at(alloc, holdings, &positions, candidate.service())? {
            return Ok(Some((candidate, found)));
        }
        depth -= 1;
    }
    Ok(None)
}

/// The first service of the chain with live defaults, with these defaults.
fn first_defaults<'a, H: Holdings>(
    alloc: Global,
    holdings: &H,
    moment: &Moment,
    service: &'a ServiceUrn,
) -> Result<Option<(ChainService<'a>, Found)>, AllocError>
    ensures { IfOk result (λ first.
        first_of first ≡ first_with (defaults (H.book holdings.now) moment.now) (chain service.now)) }
{
    let mut depth = service.depth();
    while depth > 0 {
        let candidate = ChainService::of_depth(alloc, service, depth)?;
        if let Some(found) = defaults(alloc, holdings, moment, candidate.service())? {
            return Ok(Some((candidate, found)));
        }
        depth -= 1;
    }
    Ok(None)
}

/// The live defaults of a service.
fn defaults<H: Holdings>(
    alloc: Global,
    holdings: &H,
    moment: &Moment,
    service: &ServiceUrn,
) -> Result<Option<Found>, AllocError>
    ensures { IfOk result (λ found.
        all_found found ≡ defaults (H.book holdings.now) moment.now service.now) }
{
    let positions = holdings.defaults(moment, service)?;
    standing_at(alloc, holdings, &positions)
}
