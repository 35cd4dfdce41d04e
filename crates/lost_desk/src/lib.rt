//! The desk and its readers: one publisher stages edits and commits them. Readers answer from the committed copy, in
//! threads of their own and without a lock.
#![tactic(auto)]

mod announce;
mod answering;
mod copies;
mod desk;
mod digested;
mod faults;
mod living;
mod open;
mod over_sets;
mod queue;
mod reader;
mod readers;
mod rule;
mod sets;
mod taking;
mod told;
mod version;
mod view;
mod with_holders;

pub use desk::Desk;
pub use faults::{CommitError, OpenError};
pub use open::open_desk;
pub use reader::Reader;
pub use readers::Readers;
pub use sets::PlaceSets;
pub use told::Told;
