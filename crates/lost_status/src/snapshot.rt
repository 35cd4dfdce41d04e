//! The numbers of a server at one moment.
use crate::connection_event::ConnectionFigures;
use crate::desk_event::DeskFigures;
use crate::log_counts::LogFigures;
use crate::metrics::metrics_text;
use crate::reply_counter::ReplyFigures;
use crate::report::report_text;
use std::alloc::{AllocError, Global};

/// The numbers of a server at one moment. They are read one after another while the server goes on, so they are not all
/// of one instant.
#[derive(Clone, Copy)]
pub struct Snapshot {
    /// How long the server has run, in seconds.
    pub(crate) uptime: u64,
    /// Whether it answers from its map.
    pub(crate) is_ready: bool,
    pub(crate) desk: DeskFigures,
    /// What all threads have counted of connections.
    pub(crate) connections: ConnectionFigures,
    /// How many workers there are.
    pub(crate) workers: u64,
    /// What all workers have counted of their replies.
    pub(crate) replies: ReplyFigures,
    /// What was counted of the log of answers.
    pub(crate) log: LogFigures,
}

impl Snapshot {
    /// All numbers in Prometheus' text format, version 0.0.4.
    pub fn metrics(&self, alloc: Global) -> Result<String, AllocError> {
        metrics_text(alloc, self)
    }

    /// All numbers as the compact text of one JSON object.
    pub fn json(&self, alloc: Global) -> Result<String, AllocError> {
        report_text(alloc, self)
    }
}
