//! What the command line orders of the caller: a server's settings, or what to do with a journal.
use crate::exit_reason::ExitReason;
use crate::given::{moment_of, server_name};
use crate::replaying::{begun, said_of, said_of_time};
use clap::ArgMatches;
use lost_mapping::{Moment, Source};
use lost_sockets::{Addresses, mode_of};

/// What the command line orders of the caller (own rule).
#[derive(Drop)]
pub enum Order<'a> {
    /// To serve connections.
    Serve(ServeOrder<'a>),
    /// To check the journal at this path, as it was given.
    CheckJournal(&'a str),
    /// To write the journal at this path anew, without the mappings that have expired at a moment, if there is one.
    Compact(&'a str, Option<Moment>),
    /// To audit the log of answers on standard input.
    Audit(AuditOrder<'a>),
    /// To answer the requests on standard input as of an edition of a journal.
    Explain(ExplainOrder<'a>),
}

/// What the log of answers keeps of replies (own rule).
#[derive(Clone, Copy, PartialEq, Eq, Debug)]
pub enum LogReplies {
    /// Their texts.
    Whole,
    /// Digests of their texts.
    Digest,
    Nothing,
}

/// What the arguments say the log keeps of replies.
fn log_replies_of(given: &ArgMatches<'_>) -> LogReplies {
    match given.get_str("log-replies") {
        Some("whole") => LogReplies::Whole,
        Some("none") => LogReplies::Nothing,
        _ => LogReplies::Digest,
    }
}

/// A log to be audited (own rule).
#[derive(Drop)]
pub struct AuditOrder<'a> {
    /// The file of the journal, as it was given.
    pub journal: &'a str,
    /// The name of the server that answered.
    pub name: Source,
}

/// Requests to be answered as of an edition of a journal (own rule).
#[derive(Drop)]
pub struct ExplainOrder<'a> {
    /// The file of the journal, as it was given.
    pub journal: &'a str,
    /// The edition; `None` for the one that was published at the moment.
    pub edition: Option<u32>,
    /// The server's name.
    pub name: Source,
    /// The moment of every answer.
    pub moment: Moment,
}

/// A server's settings (own rule).
#[derive(Drop)]
pub struct ServeOrder<'a> {
    /// The server's name.
    pub name: Source,
    /// The file of desk lines that is read before the server listens, as it was given; `-` is standard input.
    pub map: Option<&'a str>,
    /// The file in which the edits of desks are kept, as it was given.
    pub journal: Option<&'a str>,
    /// The file of the log of answers, as it was given.
    pub log: Option<&'a str>,
    /// What the log keeps of replies.
    pub log_replies: LogReplies,
    /// Whether the server starts even if lines of its map were refused or are not committed.
    pub keeps_going: bool,
    /// The addresses, as they were given. If there is none of the desk, there is a map or a journal.
    pub addresses: Addresses<'a>,
    /// How many threads answer requests: 1 to 64.
    pub workers: u32,
    /// How many query connections are served: 1 to 1,000,000; `None` for all.
    pub connections: Option<u32>,
    /// After how many seconds without a byte a query connection ends: 0 to 86,400, 0 for never.
    pub idle: u32,
    /// How many seconds a line may take from its first byte to its end: 0 to 86,400, 0 for any.
    pub line_time: u32,
    /// For how many seconds a client may take no byte of its waiting replies: 0 to 86,400, 0 for ever.
    pub reply_time: u32,
    /// How many query connections may be open: 1 to 1,000,000.
    pub most_connections: u32,
    /// How many of one address may be open: 0 to 1,000,000, 0 for any number.
    pub per_address: u32,
    /// The same as `idle`, for a desk's connection.
    pub desk_idle: u32,
    /// Whether nothing is reported about connections that end in a fault.
    pub is_quiet: bool,
}

/// The moment of `--drop-expired` in the arguments, if it is there. A mistake in it is reported.
pub(crate) fn expired_at_of<R: Eprint + AllocGlobal>(
    rt: &R,
    given: &ArgMatches<'_>,
) -> Result<Option<Moment>, ExitReason> {
    let Some(time) = given.get_str("drop-expired") else {
        return Ok(None);
    };
    match moment_of(rt.alloc(), time) {
        Ok(moment) => Ok(Some(moment)),
        Err(reason) => Err(said_of_time(rt, reason, "drop-expired", time)),
    }
}

/// The order of an audit in the arguments. Mistakes in them are reported.
pub(crate) fn audit_order_of<'a, R: Eprint + AllocGlobal>(
    rt: &R,
    given: &ArgMatches<'a>,
) -> Result<AuditOrder<'a>, ExitReason> {
    let name = given.get_str("name").unwrap_or("");
    match server_name(rt.alloc(), name) {
        Ok(server) => Ok(AuditOrder {
            journal: given.get_str("journal").unwrap_or(""),
            name: server,
        }),
        Err(reason) => Err(said_of(rt, reason, name, "")),
    }
}

/// The order of an explanation in the arguments. Mistakes in them are reported.
pub(crate) fn explain_order_of<'a, R: Eprint + AllocGlobal>(
    rt: &R,
    given: &ArgMatches<'a>,
) -> Result<ExplainOrder<'a>, ExitReason> {
    let (name, moment) = begun(rt, given)?;
    Ok(ExplainOrder {
        journal: given.get_str("journal").unwrap_or(""),
        edition: given.get_one::<u32>("edition"),
        name,
        moment,
    })
}

/// The order of a server in the arguments. Mistakes in them are reported.
pub(crate) fn order_of<'a, R: Eprint + AllocGlobal>(
    rt: &R,
    given: &ArgMatches<'a>,
) -> Result<ServeOrder<'a>, ExitReason> {
    let name = given.get_str("name").unwrap_or("");
    let name = match server_name(rt.alloc(), name) {
        Ok(name) => name,
        Err(reason) => return Err(said_of(rt, reason, name, "")),
    };
    let socket_mode = socket_mode_of(rt, given)?;
    if ["desk", "map", "journal"]
        .iter()
        .all(|name| given.get_str(name).is_none())
    {
        return Err(ExitReason::NoEdits);
    }
    Ok(ServeOrder {
        name,
        map: given.get_str("map"),
        journal: given.get_str("journal"),
        log: given.get_str("log"),
        log_replies: log_replies_of(given),
        keeps_going: given.get_flag("keep-going"),
        addresses: Addresses {
            queries: given.get_str("queries").unwrap_or(""),
            desk: given.get_str("desk"),
            status: given.get_str("status"),
            socket_mode,
        },
        workers: given.get_one::<u32>("workers").unwrap_or(0),
        connections: given.get_one::<u32>("connections"),
        idle: given.get_one::<u32>("idle").unwrap_or(0),
        line_time: given.get_one::<u32>("line-time").unwrap_or(0),
        reply_time: given.get_one::<u32>("reply-time").unwrap_or(0),
        most_connections: given.get_one::<u32>("most-connections").unwrap_or(0),
        per_address: given.get_one::<u32>("per-address").unwrap_or(0),
        desk_idle: given.get_one::<u32>("desk-idle").unwrap_or(0),
        is_quiet: given.get_flag("quiet"),
    })
}

/// The mode for the files of Unix sockets in the arguments. A mistake in it is reported.
fn socket_mode_of<R: Eprint>(rt: &R, given: &ArgMatches<'_>) -> Result<u32, ExitReason> {
    let text = given.get_str("socket-mode").unwrap_or("");
    match mode_of(text) {
        Some(mode) => Ok(mode),
        None => {
            // If standard error fails, the exit status still tells.
            let _said = eprintln!(rt;
                "lostd: --socket-mode '{text}' is not a mode: it must be one to four octal digits up to 0777, such as 0660"
            );
            Err(ExitReason::CommandLine)
        }
    }
}
