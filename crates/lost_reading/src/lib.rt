//! Reads lines of JSON (own format over RFC 5222): which lines are requests, and which order the map desk's edits.
#![tactic(auto)]

mod budget;
mod checks;
mod desk;
mod fits;
mod kinds;
mod known_members;
mod line;
mod locations;
mod numbers;
mod options;
mod parts;
mod reading;
mod regions;
mod request;
mod services;
mod tree;
mod values;
mod walk;

pub use desk::{DeskFault, DeskLine, read_desk};
pub use kinds::position;
pub use line::{Line, read_line_by_tree};
pub use locations::{KNOWN_SYSTEM, MAX_LOCATIONS, are_locations};
pub use options::{MAX_NAMES, by_value};
pub use request::{ReadError, read_request};
