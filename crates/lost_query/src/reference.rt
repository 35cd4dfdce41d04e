//! What makes a pattern a reference for the validation of an address.
ghost use Rattle.std.specs.Prelude.{◌≡◌};
ghost use Rattle.lost_query.specs.Reference.{is_referring_by, is_naming_by};

use crate::validation::patterns::{refers, refers_naming};
use lost_book::serves;
use lost_civic::{CivicAddress, Element};
use lost_mapping::{Mapping, Moment};
use lost_urn::ServiceUrn;

/// What makes a pattern a reference: its mapping is live at the moment and has the service, and it names each of the
/// elements with the address's comparison text (RFC 5222, section 8.4.2; own policy).
#[derive(Clone, Copy)]
pub struct Reference<'a> {
    /// The moment at which the mapping is live.
    pub moment: &'a Moment,
    /// The mapping's service.
    pub service: &'a ServiceUrn,
    /// The address that has the texts.
    pub address: &'a CivicAddress,
    /// The elements that the pattern names.
    pub elements: &'a [Element],
}

impl Reference<'_> {
    /// Whether a mapping has such a pattern.
    pub fn is_in(&self, mapping: &Mapping) -> bool
        ensures { result ≡ is_referring_by self.now mapping.now }
    {
        serves(mapping, self.moment, self.service) && refers(mapping, self.address, self.elements)
    }

    /// Whether a mapping has such a pattern that names another element too, with any text.
    pub fn is_in_naming(&self, mapping: &Mapping, named: Element) -> bool
        ensures { result ≡ is_naming_by self.now named mapping.now }
    {
        serves(mapping, self.moment, self.service)
            && refers_naming(mapping, self.address, self.elements, named)
    }
}
