//! The command line of `lostd` (own rules): its words are read and judged, `replay` and `check` run over standard input,
//! output and files, and what needs a server or a journal is ordered. An early end is one line on standard error, and the exit status.
#![tactic(auto)]

mod arguments;
mod checking;
mod exit_reason;
mod given;
mod mistake;
mod opening;
mod order;
mod outcome;
mod progress;
mod replaying;
mod running;
mod summary;

pub use exit_reason::ExitReason;
pub use given::{begin, server_name};
pub use opening::opening_failed;
pub use order::{AuditOrder, ExplainOrder, LogReplies, Order, ServeOrder};
pub use outcome::{check_outcome, end, replay_outcome};
pub use running::run;
