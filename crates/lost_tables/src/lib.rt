//! Tables from a mapping's identity, key and service to its number, a long list in chunks of one size, mappings under
//! their numbers in such a list, and the picking of mappings by their numbers. A number is the one under which an indexed
//! book holds a mapping.
#![tactic(auto)]

mod cell;
mod chunks;
mod defaults;
mod identities;
pub mod laws;
mod lists;
mod numbered;
pub mod picks;
mod tables;
mod texts;
mod tiered;

pub use numbered::NumberedMappings;
pub use tables::Tables;
pub use tiered::TieredVec;
