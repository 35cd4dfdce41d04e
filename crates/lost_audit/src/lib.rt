//! Questions that were logged, or are asked now, are answered again from the book of an edition that a journal keeps.
#![tactic(auto)]

mod auditing;
mod auditor;
mod explaining;
mod fault;
mod judging;
mod log_line;
mod log_reader;
mod reporting;
mod verdict;
mod window;

pub use auditing::audit;
pub use auditor::Findings;
pub use explaining::{AtEdition, explain};
pub use fault::AuditFault;
pub use judging::{differing_reply, reply_of_other_digest};
pub use log_line::{Kept, LastDay, LogLine, Question, read_log_line};
pub use verdict::{Verdict, judge};
