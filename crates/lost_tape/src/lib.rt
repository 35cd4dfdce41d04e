//! Lines read by tokens (own format over RFC 5222): a line becomes one flat list of tokens in place of a tree. This
//! reader takes requests, and desk lines that publish or replace a mapping. It answers only if it is certain, and
//! leaves every other line to the tree. The lines that are sent most need no list.
#![tactic(auto)]

mod addresses;
mod compact;
mod compact_desk;
mod compact_part;
mod compact_region;
mod line;
mod locations;
mod mappings;
mod members;
mod nesting;
mod numbers;
mod options;
mod part;
mod reading;
mod regions;
mod requests;
mod tree;

pub use json::Scratch;
pub use line::read_common;
pub use reading::{read_line, read_request};
