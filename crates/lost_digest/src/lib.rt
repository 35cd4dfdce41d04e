//! Names for what a server holds: a digest of each mapping, and of all mappings together. Two servers that hold the same
//! mappings show the same digest, in whatever order and by whatever edits they came. Else the digests differ, but for a
//! coincidence of 128 bits. They guard against mistakes, not against forgers, since MD5 is broken.
#![tactic(auto)]

mod feeding;
pub mod laws;
mod of_map;
mod of_mapping;
mod pieces;

pub use of_map::{MapDigest, book_digest};
pub use of_mapping::mapping_digest;
