//! Keeps the edits of a desk in a journal before they are published, and publishes what a journal keeps.
#![tactic(auto)]

mod answering;
mod commit_line;
mod keeper;
mod orders;
mod recovery;
mod rewriting;
mod serving;
mod walk;

pub use commit_line::first_line;
pub use keeper::{Keeper, NOT_KEPT};
pub use recovery::{Damage, Recovered, RecoveryFault, Stopped, examine, recover};
pub use rewriting::Rewriting;
pub use serving::serve_desk_kept;
pub use walk::Walk;
