//! The plain book as holdings.
ghost use Rattle.std.specs.Prelude.{◌≡◌, Bool};
ghost use Rattle.std.specs.List.{list_any};
ghost use Rattle.std.specs.Fn.{FnReturnsAt};
ghost use Rattle.lost_spec.specs.Mapping as spec;

use crate::holdings::{Holdings, Picked};
use crate::reference::Reference;
use crate::services::services_below;
use lost_book::Book;
use lost_civic::Element;
use lost_location::Place;
use lost_mapping::{Mapping, Moment};
use lost_urn::ServiceUrn;
use smallvec::SmallVec;
use std::alloc::AllocError;

impl Holdings for Book {
    ghost book = { λ b. b };

    fn edition(&self) -> u64 {
        Book::edition(self)
    }

    fn len(&self) -> usize {
        Book::len(self)
    }

    fn mapping(&self, position: usize) -> &Mapping {
        Book::mapping(self, position)
    }

    fn by_key(&self, moment: &Moment, key: &str) -> Option<usize> {
        Book::by_key(self, moment, key)
    }

    fn implemented(&self, moment: &Moment, service: &ServiceUrn) -> bool {
        Book::implemented(self, moment, service)
    }

    fn holding(&self, moment: &Moment, place: &Place) -> Picked {
        Ok(SmallVec::from_vec(Book::holding(self, moment, place)?))
    }

    fn at(&self, moment: &Moment, place: &Place, service: &ServiceUrn) -> Picked {
        Ok(SmallVec::from_vec(Book::at(self, moment, place, service)?))
    }

    fn defaults(&self, moment: &Moment, service: &ServiceUrn) -> Picked {
        Ok(SmallVec::from_vec(Book::defaults(self, moment, service)?))
    }

    fn of_service(&self, moment: &Moment, service: &ServiceUrn) -> Picked {
        Ok(SmallVec::from_vec(Book::of_service(self, moment, service)?))
    }

    fn is_agreed(&self, reference: &Reference<'_>) -> Result<bool, AllocError> {
        Ok(has_some(self, |mapping| reference.is_in(mapping)))
    }

    fn is_named(&self, reference: &Reference<'_>, named: Element) -> Result<bool, AllocError> {
        Ok(has_some(self, |mapping| reference.is_in_naming(mapping, named)))
    }

    fn services_below(
        &self,
        moment: &Moment,
        above: Option<&ServiceUrn>,
    ) -> Result<Vec<ServiceUrn>, AllocError> {
        services_below(self, moment, above)
    }
}

/// Whether some mapping of a book passes a test. It stops at the first.
fn has_some<F: Fn(&Mapping) -> bool>(book: &Book, passes: F) -> bool
    requires { F.IsAlwaysCallable passes }
    ensures { (test : spec.Mapping → Bool) → ((m : spec.Mapping) (r : Bool) → FnReturnsAt F.Fn passes m r → r ≡ test m)
        → result ≡ list_any test book.now.mappings }
{
    for position in 0..book.len() {
        if passes(book.mapping(position)) {
            return true;
        }
    }
    false
}
