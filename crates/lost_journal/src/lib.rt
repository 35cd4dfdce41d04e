//! A journal: a file of desk lines that no crash can take a commit from. It is kept on any disk that does what
//! `sqlite_disk` says of one.
#![tactic(auto)]

mod faults;
mod file_lines;
mod gate;
mod journal;
mod line_kind;
mod reading;

pub use faults::{NotKept, ReadFault};
pub use gate::Gate;
pub use journal::Journal;
pub use line_kind::{CLOSED, COMMIT_START, OPEN, is_commit};
pub use reading::{Progress, Read, Reading};
