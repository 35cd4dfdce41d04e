//! The services below a service.
ghost use Rattle.std.specs.Prelude.{◌≡◌, IfOk};
ghost use Rattle.std.specs.Option.{option_copied};
ghost use Rattle.lost_spec.specs.Services.{services, all_services};
ghost use Rattle.lost_location.specs.Place.{place_of};

use crate::holdings::Holdings;
use crate::services::children::Children;
use lost_book::Book;
use lost_location::Place;
use lost_mapping::Moment;
use lost_urn::ServiceUrn;
use std::alloc::{AllocError, Global};

pub(crate) mod children;

/// The services just below one, or the topmost, of the live mappings that hold the place and are no defaults, in the
/// order of their texts, each once (RFC 5222, section 11; order own).
pub(crate) fn services_at<H: Holdings>(
    alloc: Global,
    holdings: &H,
    moment: &Moment,
    place: &Place,
    above: Option<&ServiceUrn>,
) -> Result<Vec<ServiceUrn>, AllocError>
    ensures { IfOk result (λ found.
        found.items ≡ services (H.book holdings.now) moment.now (place_of place.now) (option_copied above.entry)) }
{
    let positions = holdings.holding(moment, place)?;

    // The children are sorted, so the search may take any order. The definition begins with the last one.
    let mut children = Children::new(alloc, above);
    for position in positions.iter().rev() {
        children.add(holdings.mapping(*position).service())?;
    }
    children.into_list(alloc)
}

/// The services just below one, or the topmost, of all live mappings of a book, defaults too, in the order of their
/// texts, each once (RFC 5222, section 10; order own).
pub(crate) fn services_below(
    book: &Book,
    moment: &Moment,
    above: Option<&ServiceUrn>,
) -> Result<Vec<ServiceUrn>, AllocError>
    ensures { IfOk result (λ found.
        found.items ≡ all_services book.now moment.now (option_copied above.entry)) }
{
    let mut children = Children::new(book.alloc(), above);
    for position in (0..book.len()).rev() {
        let mapping = book.mapping(position);
        if !mapping.is_live(moment) {
            continue;
        }
        children.add(mapping.service())?;
    }
    children.into_list(book.alloc())
}
