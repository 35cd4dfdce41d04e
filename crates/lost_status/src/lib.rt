//! What an operator watches on a server (own rules): what its threads count and show without a lock, and the HTTP
//! answers that show it.
#![tactic(auto)]

mod connection_counter;
mod connection_event;
mod deadline;
mod desk_counter;
mod desk_event;
mod exposition;
mod held_block;
mod line_kind;
mod log_counts;
mod metrics;
mod numbers;
mod page;
mod pages;
mod reply_counter;
mod reply_kind;
mod report;
mod serving;
mod snapshot;
mod status;
mod utc_text;
mod worker_block;

pub use connection_counter::ConnectionCounter;
pub use connection_event::ConnectionEvent;
pub use deadline::Deadline;
pub use desk_counter::DeskCounter;
pub use desk_event::DeskEvent;
pub use line_kind::kind_of;
pub use log_counts::LogCounts;
pub use reply_counter::ReplyCounter;
pub use reply_kind::ReplyKind;
pub use serving::serve_status;
pub use snapshot::Snapshot;
pub use status::{Status, VERSION};
pub use worker_block::WorkerCounters;
