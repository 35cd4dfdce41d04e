//! An index over any profile: which numbers have a region that contains a location (RFC 5222, section 12).
#![tactic(auto)]

mod cell;
mod cells;
mod chunks;
mod entries;
mod entry;
mod held;
mod index;
mod indexed_region;
mod kinds;
mod note;
mod notes;
mod search;

pub use index::Index;
