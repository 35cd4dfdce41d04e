//! A server's settings.
use lost_answer_log::KeptReply;
use lost_connections::ConnectionLimits;
use lost_mapping::Source;
use lost_sockets::Addresses;
use std::time::Duration;

/// What happens to a map with a refused line, or with edits behind its last commit.
#[derive(Clone, Copy, PartialEq, Eq, Debug)]
pub enum OnRefusal {
    /// It is not loaded.
    Stop,
    /// It is loaded without them.
    GoOn,
}

/// Whether the progress through a long map is reported.
#[derive(Clone, Copy, PartialEq, Eq, Debug)]
pub enum Progress {
    /// It is not.
    Hidden,
    /// It is, on standard error.
    Shown,
}

/// How a server treats its connections.
#[derive(Clone, Copy, PartialEq, Eq, Debug)]
pub struct ConnectionSettings {
    /// How long a query connection may send no byte while no reply waits to be taken; `None` for ever. If their number
    /// is given, also how long a client may take no byte of its waiting replies.
    pub idle: Option<Duration>,
    /// How long a read or a write of a desk's connection may wait; `None` for ever.
    pub desk_idle: Option<Duration>,
    /// Whether nothing is reported on standard error about connections that end in a fault.
    pub is_quiet: bool,
}

/// A server's settings.
#[derive(Clone, Copy)]
pub struct ServerOrder<'a> {
    /// The server's name.
    pub name: &'a Source,
    /// Where it listens.
    pub addresses: Addresses<'a>,
    /// The file of desk lines that is read before the server listens; `-` for standard input.
    pub map: Option<&'a str>,
    /// The file in which the edits of desks are kept: those that it keeps are published before the server listens. A map
    /// is read only if it keeps none.
    pub journal: Option<&'a str>,
    /// The file of its log of answers, and what that keeps of replies.
    pub answers: Option<(&'a str, KeptReply)>,
    /// What happens if lines of its map are refused or not committed.
    pub on_refusal: OnRefusal,
    /// Whether the progress through a long map is reported.
    pub progress: Progress,
    /// How many threads answer requests: 1 to 64.
    pub workers: u32,
    /// How many query connections are served, beside one of a desk. Without it there is no end, and desks are served
    /// one after another.
    pub connections: Option<u32>,
    /// How connections are treated.
    pub settings: ConnectionSettings,
    /// The limits on query connections if their number is not given.
    pub limits: ConnectionLimits,
}
