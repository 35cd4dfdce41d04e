//! What a server says on standard error (own rules): lines about connections and listeners, which one thread writes, so
//! that nobody else waits for it.
#![tactic(auto)]

mod connection_log;
mod log_writer;

pub use connection_log::{CommitReport, ConnectionLog};
pub use log_writer::{LogSender, LogWriter, start_log};
