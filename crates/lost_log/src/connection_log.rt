//! Reports of connections on standard error.
use crate::log_writer::LogSender;
use lost_sockets::Peer;
use std::alloc::{AllocError, Global};
use std::fmt::Display;
use std::io::Eprint;
use std::sync::Wait;
use std::sync::atomic::{AtomicU64, Ordering};
use std::time::Clock;

/// The most lines about query connections in a second.
const MAX_A_SECOND: u64 = 10;

/// What a desk's commit has made.
#[derive(Clone, Copy, PartialEq, Eq, Debug)]
pub struct CommitReport<'d> {
    /// How many edits it published.
    pub edits: u64,
    /// How many edits are published now.
    pub edition: u64,
    /// How many mappings those leave.
    pub mappings: u64,
    /// Their digest, as it is shown.
    pub digest: &'d str,
}

/// Reports on standard error, in one line each, what desks commit, and how connections end in a fault: of query
/// connections at most ten lines a second. The next line says how many were left out.
#[derive(Drop)]
pub struct ConnectionLog<'r, R> {
    rt: &'r R,
    alloc: Global,
    is_quiet: bool,
    /// Takes the lines; without it, a reporting thread waits until standard error takes its line.
    sender: Option<LogSender>,
    second: AtomicU64,
    written: AtomicU64,
    left_out: AtomicU64,
}

impl<'r, R: Wait + Clock + Eprint> ConnectionLog<'r, R> {
    /// A log for all threads. Its lines go to `sender` or, without one, to the standard error of `rt`. If it is quiet,
    /// none is about a connection.
    pub fn new(
        rt: &'r R,
        alloc: Global,
        is_quiet: bool,
        sender: Option<LogSender>,
    ) -> ConnectionLog<'r, R> {
        ConnectionLog {
            rt,
            alloc,
            is_quiet,
            sender,
            second: AtomicU64::new(0),
            written: AtomicU64::new(0),
            left_out: AtomicU64::new(0),
        }
    }

    /// Reports why a query connection, counted from 1, was closed.
    pub fn report_query(&self, number: u64, peer: &Peer, cause: &str) {
        if self.is_due() {
            let left_out = self.left_out.swap(0, Ordering::SeqCst);
            self.write(query_line(self.alloc, number, peer, cause, left_out));
        }
    }

    /// Reports why a desk's connection was closed.
    pub fn report_desk(&self, peer: &Peer, cause: &str) {
        if !self.is_quiet {
            self.write(desk_line(self.alloc, peer, cause));
        }
    }

    /// Reports a desk's commit.
    pub fn report_commit(&self, peer: &Peer, commit: &CommitReport<'_>) {
        if !self.is_quiet {
            self.write(commit_line(self.alloc, peer, commit));
        }
    }

    /// Reports that the edits a desk left pending stay pending for the next one.
    pub fn report_pending(&self) {
        self.write(format!(in self.alloc;
            "lostd: memory ran out: the last desk's pending edits could not be dropped, and the next desk's commit publishes them\n"
        ));
    }

    /// Reports why the journal did not keep an edit or a commit.
    pub fn report_journal<F: Display>(&self, fault: &F) {
        self.write(format!(in self.alloc; "lostd: --journal: {fault}\n"));
    }

    /// Reports that a listener was given up.
    pub fn report_listener(&self) {
        self.write(format!(in self.alloc;
            "lostd: no more connections could be accepted: the server ends when all open connections have ended\n"
        ));
    }

    /// Writes a line in one piece, or nothing if memory is refused or standard error fails.
    fn write(&self, line: Result<String, AllocError>) {
        let Ok(line) = line else {
            return;
        };
        match &self.sender {
            Some(sender) => sender.send(self.rt, line),
            None => {
                let _written = self.rt.eprint(line.as_str());
            }
        }
    }

    /// Whether one more line may be written in this second. If not, it is counted as left out.
    fn is_due(&self) -> bool {
        if self.is_quiet {
            return false;
        }
        let second = match self.rt.since_1970() {
            Ok(since) => since.as_secs(),
            Err(_) => 0,
        };
        if self.second.swap(second, Ordering::SeqCst) != second {
            self.written.store(0, Ordering::SeqCst);
        }
        let is_due = self.written.fetch_add(1, Ordering::SeqCst) < MAX_A_SECOND;
        if !is_due {
            self.left_out.fetch_add(1, Ordering::SeqCst);
        }
        is_due
    }
}

/// The line about a query connection, and about the `left_out` lines before it.
fn query_line(
    alloc: Global,
    number: u64,
    peer: &Peer,
    cause: &str,
    left_out: u64,
) -> Result<String, AllocError> {
    let mut line = format!(in alloc; "lostd: query connection {number} from {peer}: {cause}")?;
    if left_out > 0 {
        let more = format!(in alloc;
            " ({left_out} more connections ended in faults that are not listed)"
        )?;
        line.push_str(more.as_str())?;
    }
    line.push('\n')?;
    Ok(line)
}

/// The line about a desk's connection.
fn desk_line(alloc: Global, peer: &Peer, cause: &str) -> Result<String, AllocError> {
    let line = format!(in alloc; "lostd: desk connection from {peer}: {cause}\n")?;
    Ok(line)
}

/// The line about a desk's commit.
fn commit_line(
    alloc: Global,
    peer: &Peer,
    commit: &CommitReport<'_>,
) -> Result<String, AllocError> {
    let (edits, edition, mappings) = (commit.edits, commit.edition, commit.mappings);
    let noun = if edits == 1 { "edit" } else { "edits" };
    let digest = commit.digest;
    let line = format!(in alloc;
        "lostd: desk connection from {peer}: committed {edits} {noun}: edition {edition}, {mappings} mappings, map {digest}\n"
    )?;
    Ok(line)
}
