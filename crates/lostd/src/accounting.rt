//! `lostd audit` and `lostd explain`.
ghost use Rattle.std.specs.Prelude.{◌≡◌};
ghost use Rattle.lostd.specs.ExitReasons.{audit_reason};

use crate::journal_reasons::{recovery_reason, say_of_stop};
use crate::offline::unwritten;
use lost_audit::{AtEdition, AuditFault, Findings, audit, explain};
use lost_command::{AuditOrder, ExitReason, ExplainOrder};
use lost_lines::Counts;
use std::fs::{File, Files};
use std::io;
use std::sync::Wait;

/// Audits the log on standard input, and prints what is found.
pub(crate) fn audit_as_ordered<R: Wait + Files<File = File> + Print + Eprint + Input + AllocGlobal>(
    rt: &R,
    order: &AuditOrder<'_>,
) -> Result<(), ExitReason> {
    let journal = order.journal;
    match audit(rt, journal, &order.name, rt.reader(), io::writer(rt)) {
        Ok(found) => say_findings(rt, found),
        Err(fault) => Err(told(rt, journal, fault)),
    }
}

/// Prints the counts of an audit.
fn say_findings<R: Print>(rt: &R, found: Findings) -> Result<(), ExitReason> {
    println!(rt;
        "done lines={} differ={} unjudged={} internalError={} leftOut={} edition={}",
        found.lines,
        found.differ,
        found.unjudged,
        found.internal_errors,
        found.left_out,
        found.edition
    )
    .map_err(unwritten)?;
    if found.are_none() {
        return Ok(());
    }
    Err(ExitReason::Found)
}

/// Answers the requests on standard input as of an edition of a journal.
pub(crate) fn explain_as_ordered<
    R: Wait + Files<File = File> + Print + Eprint + Input + AllocGlobal,
>(rt: &R, order: &ExplainOrder<'_>) -> Result<(), ExitReason> {
    let at = match order.edition {
        Some(edition) => AtEdition::Edition(u64::from(edition)),
        None => AtEdition::ByTime,
    };
    let (journal, name, moment) = (order.journal, &order.name, &order.moment);
    match explain(rt, journal, at, name, moment, rt.reader(), io::writer(rt)) {
        Ok(Counts { .. }) => Ok(()),
        Err(fault) => Err(told(rt, journal, fault)),
    }
}

/// Reports a fault, and gives the reason for which it ends the program.
fn told<R: Eprint>(rt: &R, journal: &str, fault: AuditFault) -> ExitReason
    ensures { result ≡ audit_reason fault }
{
    say_of_audit(rt, journal, fault);
    audit_reason(fault)
}

/// The reason why a fault ends the program.
fn audit_reason(fault: AuditFault) -> ExitReason
    ensures { result ≡ audit_reason fault }
{
    match fault {
        AuditFault::Missing
        | AuditFault::Unopened(_)
        | AuditFault::NoEdition(_)
        | AuditFault::TooEarly => ExitReason::File,
        AuditFault::NotRead(stopped) => recovery_reason(stopped.fault),
        AuditFault::Stream(fault) => ExitReason::Run(fault),
        AuditFault::Memory => ExitReason::MEMORY,
    }
}

/// Reports a fault; what failed of the streams or for memory is reported at the end.
fn say_of_audit<R: Eprint>(rt: &R, journal: &str, fault: AuditFault) {
    // If standard error fails, the exit status still tells.
    let _said = match fault {
        AuditFault::Missing => {
            eprintln!(rt; "lostd: --journal: {journal}: no file is there, or an empty one")
        }
        AuditFault::Unopened(fault) => eprintln!(rt; "lostd: --journal: {journal}: {fault}"),
        AuditFault::NotRead(stopped) => say_of_stop(rt, journal, stopped),
        AuditFault::NoEdition(edition) => {
            eprintln!(rt; "lostd: --journal: {journal}: no commit made edition {edition}")
        }
        AuditFault::TooEarly => {
            eprintln!(rt; "lostd: --journal: {journal}: it begins after the time of --now")
        }
        AuditFault::Stream(_) | AuditFault::Memory => Ok(()),
    };
}
