//! The numbers of a server in Prometheus' text format, version 0.0.4 (own names).
ghost use Rattle.std.specs.Prelude.{◌≡◌, ◌++◌, OnOk, codes, string_bytes};
ghost use Rattle.lost_writing.specs.DeskReplies.{IsCode};
ghost use Rattle.lost_status.specs.Exposition.{counted, label, labelled, metric};
ghost use Rattle.lost_status.specs.Metrics.{code_metric, connection_counts, connection_metrics, desk_metrics, flag, kind_metric, kind_sample, log_metrics, state_metrics, worker_metrics};

use crate::connection_event::ConnectionFigures;
use crate::desk_event::{CODES, DeskFigures, LAST_CODE};
use crate::exposition::MetricType::{Counter, Gauge};
use crate::exposition::{MetricType, describe, write_metric};
use crate::log_counts::LogFigures;
use crate::reply_kind::{KINDS, ReplyKind};
use crate::snapshot::Snapshot;
use crate::status::VERSION;
use lost_digest::MapDigest;
use lost_writing::refusal_name;
use std::alloc::{AllocError, Global};
use std::fmt::Write;

/// The bytes that the text has room for at first.
const ROOM: usize = 8_192;

/// All metrics, each with its help text.
pub(crate) fn metrics_text(alloc: Global, now: &Snapshot) -> Result<String, AllocError> {
    let mut text = String::with_capacity(alloc, ROOM)?;
    write_version(&mut text)?;
    write_state(&mut text, now)?;
    let digest = MapDigest::of_number(now.desk.digest).text(alloc)?;
    write_map(&mut text, digest.as_str())?;
    write_desk(&mut text, &now.desk)?;
    write_replies(&mut text, &now.replies.replies)?;
    write_refusals(&mut text, &now.desk.refusals)?;
    write_connections(&mut text, &now.connections)?;
    write_workers(&mut text, now)?;
    write_log(&mut text, now.log)?;
    Ok(text)
}

/// Writes the version.
fn write_version(text: &mut String) -> Result<(), AllocError> {
    describe(
        text,
        Gauge,
        "lostd_build_info",
        "The version of the program, as a label; the value is 1.",
    )?;
    write!(text, "lostd_build_info{{version=\"{VERSION}\"}} 1\n")
}

/// Writes whether the server is ready, and the uptime.
fn write_state(text: &mut String, now: &Snapshot) -> Result<(), AllocError>
    ensures { OnOk result (string_bytes text.new ≡ string_bytes text.old ++ state_metrics now.now) }
{
    write_flag(
        text,
        "lostd_ready",
        "Whether the server answers from its map: 1 once it does, 0 before.",
        now.is_ready,
    )?;
    write_metric(
        text,
        Gauge,
        "lostd_uptime_seconds",
        "For how long the server has run, in seconds.",
        now.uptime,
    )?;
    Ok(())
}

/// Writes a gauge that is 1 for yes and 0 for no.
fn write_flag(text: &mut String, name: &str, help: &str, is_so: bool) -> Result<(), AllocError>
    ensures { OnOk result (string_bytes text.new
        ≡ string_bytes text.old ++ metric MetricType.Gauge name.now help.now (flag is_so)) }
{
    write_metric(text, Gauge, name, help, u64::from(is_so))
}

/// Writes the digest of what is held.
fn write_map(text: &mut String, digest: &str) -> Result<(), AllocError> {
    describe(
        text,
        Gauge,
        "lostd_map_info",
        "The digest of the mappings that are held, as a label; the value is 1.",
    )?;
    write_digest(text, digest, 1)
}

/// Writes the digest of what is held, as the label of a value.
fn write_digest(text: &mut String, digest: &str, value: u64) -> Result<(), AllocError>
    ensures { OnOk result (string_bytes text.new ≡ string_bytes text.old
        ++ labelled (codes "lostd_map_info") (label (codes "digest") digest.now (counted value))) }
{
    write!(text, "lostd_map_info{{digest=\"{digest}\"}} {value}\n")
}

/// Writes what the desk holds, when it last committed, and whether it is connected and its journal keeps.
fn write_desk(text: &mut String, desk: &DeskFigures) -> Result<(), AllocError>
    ensures { OnOk result (string_bytes text.new ≡ string_bytes text.old ++ desk_metrics desk.now) }
{
    write_metric(
        text,
        Gauge,
        "lostd_edition",
        "The edition that is published: how many edits were accepted in all.",
        desk.edition,
    )?;
    write_metric(
        text,
        Gauge,
        "lostd_mappings",
        "How many mappings are held.",
        desk.mappings,
    )?;
    write_metric(
        text,
        Gauge,
        "lostd_pending",
        "How many edits are staged and not committed.",
        desk.pending,
    )?;
    write_metric(
        text,
        Gauge,
        "lostd_last_commit_timestamp_seconds",
        "When the desk last committed, in seconds since 1970; 0 before its first commit.",
        desk.last_commit,
    )?;
    write_flag(
        text,
        "lostd_desk_connected",
        "Whether a desk is connected: 1 or 0.",
        desk.is_open,
    )?;
    write_flag(
        text,
        "lostd_journal_failed",
        "Whether the journal can keep nothing more until a restart: 1 or 0.",
        desk.journal_failed,
    )?;
    Ok(())
}

/// Writes the number of replies by kind.
fn write_replies(text: &mut String, replies: &[u64; KINDS]) -> Result<(), AllocError> {
    describe(
        text,
        Counter,
        "lostd_replies_total",
        "Replies to request lines, by kind; each error is a kind of its own.",
    )?;
    for kind in ReplyKind::ALL {
        write_kind(text, kind, replies)?;
    }
    Ok(())
}

/// Writes the number of replies of a kind.
fn write_kind(text: &mut String, kind: ReplyKind, replies: &[u64; KINDS]) -> Result<(), AllocError>
    ensures { OnOk result (string_bytes text.new ≡ string_bytes text.old ++ kind_metric replies.now kind) }
{
    write_sample_of(text, kind.name(), replies[kind.index()])
}

/// Writes the number of replies of the kind with this name.
#[tactic(auto, unfolding(crate::specs::Metrics::kind_sample))]
fn write_sample_of(text: &mut String, name: &str, count: u64) -> Result<(), AllocError>
    ensures { OnOk result (string_bytes text.new ≡ string_bytes text.old ++ kind_sample name.now count) }
{
    write!(text, "lostd_replies_total{{kind=\"{name}\"}} {count}\n")
}

/// Writes the number of refused desk lines by code.
fn write_refusals(text: &mut String, refusals: &[u64; CODES]) -> Result<(), AllocError> {
    describe(
        text,
        Counter,
        "lostd_refusals_total",
        "Lines of the desk that were refused, by code.",
    )?;
    for code in 1..=LAST_CODE {
        write_code(text, code, refusals)?;
    }
    Ok(())
}

/// Writes the number of lines refused with a code. The caller has checked that the code is in the table.
fn write_code(text: &mut String, code: u8, refusals: &[u64; CODES]) -> Result<(), AllocError>
    requires { IsCode code }
    ensures { OnOk result (string_bytes text.new ≡ string_bytes text.old ++ code_metric refusals.now code) }
{
    let name = refusal_name(code);
    let count = refusals[usize::from(code) - 1];
    write!(
        text,
        "lostd_refusals_total{{code=\"{code}\",name=\"{name}\"}} {count}\n"
    )
}

/// Writes the counts of query connections.
fn write_connections(text: &mut String, connections: &ConnectionFigures) -> Result<(), AllocError>
    ensures { OnOk result (string_bytes text.new ≡ string_bytes text.old ++ connection_metrics connections.now) }
{
    write_connection_counts(text, connections, connections.open(), connections.waiting())
}

/// Writes the counts of query connections, of which so many are open, and so many wait.
fn write_connection_counts(
    text: &mut String,
    connections: &ConnectionFigures,
    opened: u64,
    waiting: u64,
) -> Result<(), AllocError>
    ensures { OnOk result (string_bytes text.new
        ≡ string_bytes text.old ++ connection_counts connections.now opened waiting) }
{
    write_metric(
        text,
        Counter,
        "lostd_connections_total",
        "Query connections that were accepted.",
        connections.accepted,
    )?;
    write_metric(
        text,
        Gauge,
        "lostd_connections_open",
        "Query connections that have not ended, those that wait included.",
        opened,
    )?;
    write_metric(
        text,
        Gauge,
        "lostd_connections_waiting",
        "Query connections that wait for a worker.",
        waiting,
    )?;
    write_metric(
        text,
        Counter,
        "lostd_faults_total",
        "Query connections that ended in a fault.",
        connections.faults,
    )?;
    write_metric(
        text,
        Counter,
        "lostd_connections_refused_total",
        "Query connections that were closed at once, past a limit.",
        connections.turned_away,
    )?;
    Ok(())
}

/// Writes the counts of workers, and what they are doing.
fn write_workers(text: &mut String, now: &Snapshot) -> Result<(), AllocError>
    ensures { OnOk result (string_bytes text.new ≡ string_bytes text.old ++ worker_metrics now.now) }
{
    write_metric(
        text,
        Gauge,
        "lostd_workers",
        "How many workers there are.",
        now.workers,
    )?;
    write_metric(
        text,
        Gauge,
        "lostd_workers_busy",
        "How many workers serve a connection.",
        now.connections.busy,
    )?;
    write_metric(
        text,
        Counter,
        "lostd_cache_hits_total",
        "How often a worker found the place of a request in its cache.",
        now.replies.cache_hits,
    )?;
    Ok(())
}

/// Writes the counts of the log of answers.
fn write_log(text: &mut String, log: LogFigures) -> Result<(), AllocError>
    ensures { OnOk result (string_bytes text.new ≡ string_bytes text.old ++ log_metrics log) }
{
    write_metric(
        text,
        Counter,
        "lostd_log_lines_total",
        "Lines of the log of answers that were written.",
        log.written,
    )?;
    write_metric(
        text,
        Counter,
        "lostd_log_left_out_total",
        "Lines of the log of answers that were left out, since its file took none in time.",
        log.left_out,
    )?;
    Ok(())
}
