//! What all threads of a server share that have to do with query connections.
use crate::shared_admission::SharedAdmission;
use lost_connections::TimeLimits;
use lost_log::ConnectionLog;
use lost_mapping::Source;
use lost_status::Status;
use std::alloc::Global;

/// What the acceptor and the workers of a server share.
#[derive(Drop)]
pub struct Service<'s, R, G> {
    pub rt: &'s R,
    pub alloc: Global,
    /// The server's name.
    pub name: &'s Source,
    /// Lets each line through before it is answered.
    pub gate: &'s G,
    pub log: &'s ConnectionLog<'s, R>,
    pub status: &'s Status,
    /// Which connections are let in.
    pub admission: &'s SharedAdmission,
    /// How long a connection may keep its worker waiting.
    pub limits: TimeLimits,
    /// How many lines of a connection are answered.
    pub most_lines: u64,
}
