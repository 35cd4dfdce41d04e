//! Writes the map that a server has as the desk lines that make it, and the lines of a trace (own format).
#![tactic(auto)]

mod commit;
mod laws;
mod lists;
mod members;
mod publish;
mod regions;
mod traces;
mod withdraw;

pub use commit::{COMMIT_LINE, law_commit_line};
pub use laws::{law_said_is_built, law_trace_is_accepted, law_trace_is_made};
pub use publish::publish_line;
pub use traces::{placeholder, trace_lines};
pub use withdraw::withdraw_line;
