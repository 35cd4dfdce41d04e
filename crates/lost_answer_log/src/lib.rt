//! The log of answers (own format): a line for each request line that was answered, with the moment and the edition that
//! its answer went by. One thread writes it, so that no answer waits for the disk.
#![tactic(auto)]

mod batch;
mod day;
mod line_text;
mod log_file;
mod log_thread;
mod logging;

pub use batch::{Batch, LeftOut, Noted};
pub use day::day_text;
pub use line_text::{KeptReply, LineWriter, reply_digest, without_end};
pub use log_file::{LogFile, OpenLog};
pub use log_thread::{AnswerLog, AnswerLogWriter, Begun, LogFault, start_answer_log};
pub use logging::Logging;
