//! What is done with a journal without a server: it is checked, and written anew. The file is only read.
#![tactic(auto)]

mod checking;
mod compacting;
mod fault;
mod opening;

pub use checking::{JournalFound, check_journal};
pub use compacting::{Compacted, compact_journal};
pub use fault::{CompactFault, JournalFault};
