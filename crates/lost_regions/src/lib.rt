//! The regions of mappings under numbers: an index of polygons for points, one of patterns for addresses, two of patterns
//! for the elements that they name, and one of token sets for tokens (RFC 5222, sections 8.4.2 and 12).
#![tactic(auto)]

mod copies;
mod mapped_geodetic;
mod mapped_polygon;
mod named_patterns;
mod part;
mod regions;

pub use regions::Regions;
