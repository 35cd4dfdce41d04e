//! Civic locations (RFC 4119, section 2.2.1; RFC 5139, section 3.1): the elements that they are made of, and
//! addresses and patterns as pairs of an element's name and a value.
#![tactic(auto)]

mod addresses;
mod elements;
mod patterns;
mod refusals;
mod signatures;
mod squeezing;
mod texts;

pub use addresses::CivicAddress;
pub use elements::Element;
pub use lost_spec::faults::CivicError;
pub use patterns::CivicPattern;
pub use refusals::MAX_TEXT_BYTES;
pub use signatures::{Signature, element_hash};
