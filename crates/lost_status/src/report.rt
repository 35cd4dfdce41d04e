//! The numbers of a server as one JSON object (own names).
use crate::connection_event::ConnectionFigures;
use crate::desk_event::{DeskFigures, LAST_CODE};
use crate::reply_kind::{KINDS, ReplyKind};
use crate::snapshot::Snapshot;
use crate::status::VERSION;
use crate::utc_text::utc_text;
use lost_digest::MapDigest;
use lost_writing::refusal_name;
use serde_json::{Map, Value, put};
use std::alloc::{AllocError, Global};

/// The compact text of the object.
pub(crate) fn report_text(alloc: Global, now: &Snapshot) -> Result<String, AllocError> {
    let report = report_of(alloc, now)?;
    report.to_string(alloc)
}

/// The object.
fn report_of(alloc: Global, now: &Snapshot) -> Result<Value, AllocError> {
    let mut report = numbers(
        alloc,
        &[
            ("cacheHits", now.replies.cache_hits),
            ("edition", now.desk.edition),
            ("faults", now.connections.faults),
            ("mappings", now.desk.mappings),
            ("pending", now.desk.pending),
            ("uptimeSeconds", now.uptime),
        ],
    )?;
    add_states(alloc, &mut report, now)?;
    add_counts(alloc, &mut report, now)?;
    Ok(Value::Object(report))
}

/// An object of numbers by their names.
fn numbers(alloc: Global, members: &[(&str, u64)]) -> Result<Map<String, Value>, AllocError> {
    let mut object = Map::new(alloc);
    for (name, number) in members {
        put(&mut object, alloc, *name, Value::from(*number))?;
    }
    Ok(object)
}

/// Adds the version, and what the server and its desk are doing.
fn add_states(
    alloc: Global,
    report: &mut Map<String, Value>,
    now: &Snapshot,
) -> Result<(), AllocError> {
    let version = String::from_str(alloc, VERSION)?;
    put(report, alloc, "version", Value::String(version))?;
    let digest = MapDigest::of_number(now.desk.digest).text(alloc)?;
    put(report, alloc, "map", Value::String(digest))?;
    put(report, alloc, "ready", Value::Bool(now.is_ready))?;
    put(report, alloc, "desk", Value::Bool(now.desk.is_open))?;
    let journal_failed = Value::Bool(now.desk.journal_failed);
    put(report, alloc, "journalFailed", journal_failed)?;
    let last_commit = last_commit_of(alloc, now.desk.last_commit)?;
    put(report, alloc, "lastCommit", last_commit)
}

/// Adds the counts that are objects of their own.
fn add_counts(
    alloc: Global,
    report: &mut Map<String, Value>,
    now: &Snapshot,
) -> Result<(), AllocError> {
    let connections = connections_of(alloc, &now.connections)?;
    put(report, alloc, "connections", Value::Object(connections))?;
    let workers = numbers(
        alloc,
        &[("busy", now.connections.busy), ("count", now.workers)],
    )?;
    put(report, alloc, "workers", Value::Object(workers))?;
    let log = numbers(
        alloc,
        &[("leftOut", now.log.left_out), ("written", now.log.written)],
    )?;
    put(report, alloc, "log", Value::Object(log))?;
    let refusals = refusals_of(alloc, &now.desk)?;
    put(report, alloc, "refusals", refusals)?;
    let replies = replies_of(alloc, &now.replies.replies)?;
    put(report, alloc, "replies", replies)
}

/// The counts of query connections.
fn connections_of(
    alloc: Global,
    connections: &ConnectionFigures,
) -> Result<Map<String, Value>, AllocError> {
    numbers(
        alloc,
        &[
            ("accepted", connections.accepted),
            ("open", connections.open()),
            ("refused", connections.turned_away),
            ("waiting", connections.waiting()),
        ],
    )
}

/// When the desk last committed, in UTC; null if it never did.
fn last_commit_of(alloc: Global, second: u64) -> Result<Value, AllocError> {
    if second == 0 {
        return Ok(Value::Null);
    }
    match utc_text(alloc, second)? {
        Some(text) => Ok(Value::String(text)),
        None => Ok(Value::Null),
    }
}

/// The number of refused desk lines by the names of their codes, without those that are 0.
fn refusals_of(alloc: Global, desk: &DeskFigures) -> Result<Value, AllocError> {
    let mut counts = Map::new(alloc);
    for code in 1..=LAST_CODE {
        let count = desk.refusals[usize::from(code) - 1];
        if count > 0 {
            put(&mut counts, alloc, refusal_name(code), Value::from(count))?;
        }
    }
    Ok(Value::Object(counts))
}

/// The number of replies by kind.
fn replies_of(alloc: Global, replies: &[u64; KINDS]) -> Result<Value, AllocError> {
    let mut counts = Map::new(alloc);
    for kind in ReplyKind::ALL {
        put(
            &mut counts,
            alloc,
            kind.name(),
            Value::from(replies[kind.index()]),
        )?;
    }
    Ok(Value::Object(counts))
}
