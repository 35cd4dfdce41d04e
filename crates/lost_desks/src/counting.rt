//! Counts the lines of desks.
ghost use Rattle.std.specs.Prelude.{◌≡◌};
ghost use Rattle.lost_status.specs.Figures.{desk_counted};
ghost use Rattle.lost_desks.specs.Counting.{CountsReply, CountsWith, held_by, reply_counted};

use lost_desk::Desk;
use lost_json::DeskReply;
use lost_log::{CommitReport, ConnectionLog};
use lost_sockets::Peer;
use lost_status::{DeskCounter, DeskEvent};
use lost_worker::DeskWitness;
use std::alloc::Global;
use std::io::Eprint;
use std::sync::Wait;
use std::time::Clock;

/// Counts the outcomes of a desk's lines, and reports each commit that publishes edits.
#[derive(Drop)]
pub(crate) struct DeskCounting<'r, 'c, 's, R> {
    pub(crate) rt: &'r R,
    pub(crate) alloc: Global,
    pub(crate) log: &'r ConnectionLog<'r, R>,
    pub(crate) peer: &'r Peer,
    /// The edition that was reported last.
    pub(crate) edition: u64,
    pub(crate) counter: &'c mut DeskCounter<'s>,
}

impl<R: Wait + Clock + Eprint> DeskWitness for DeskCounting<'_, '_, '_, R> {
    ghost step = { λ old reply new. CountsReply old.counter.now reply new.counter.now };

    fn saw(&mut self, _line: Option<&[u8]>, reply: DeskReply, desk: &Desk)
        ensures step { CountsReply self.old.counter.now reply self.new.counter.now }
        ensures held { CountsWith self.old.counter.now reply (held_by desk.now) self.new.counter.now }
    {
        let second = match reply {
            DeskReply::Committed(_) => second_of(self.rt),
            _ => None,
        };
        count_reply(self.counter, reply, second);
        tell_book(self.counter, desk);
        if let DeskReply::Committed(edition) = reply {
            self.report(edition, desk);
        }
    }
}

impl<R: Wait + Clock + Eprint> DeskCounting<'_, '_, '_, R> {
    /// Reports what a commit has made of a desk, if it published edits. If memory is refused, nothing is said.
    fn report(&mut self, edition: u64, desk: &Desk)
        ensures { self.new.counter ≡ self.old.counter }
    {
        let edits = edition.saturating_sub(self.edition);
        self.edition = edition;
        if edits == 0 {
            return;
        }
        if let Ok(digest) = desk.digest().text(self.alloc) {
            let commit = CommitReport {
                edits,
                edition,
                mappings: desk.published().len() as u64,
                digest: digest.as_str(),
            };
            self.log.report_commit(self.peer, &commit);
        }
    }
}

/// The second since 1970, by the machine's clock; `None` if it cannot be read.
fn second_of<R: Clock>(rt: &R) -> Option<u64> {
    match rt.since_1970() {
        Ok(since) => Some(since.as_secs()),
        Err(_) => None,
    }
}

/// Counts a reply: a refusal by its code, and a commit by its second, if that is known.
fn count_reply(counter: &mut DeskCounter<'_>, reply: DeskReply, second: Option<u64>)
    ensures { counter.new ≡ reply_counted counter.old reply second }
{
    match (reply, second) {
        (DeskReply::Refused(code), _) => counter.count(DeskEvent::Refused(code)),
        (DeskReply::Committed(_), Some(second)) => counter.count(DeskEvent::Committed(second)),
        (DeskReply::Committed(_), None) | (DeskReply::Staged(_), _) => {}
    }
}

/// Tells what a desk holds: how many edits are published, how many mappings those leave and their digest, and how many
/// edits are pending.
pub fn tell_book(counter: &mut DeskCounter<'_>, desk: &Desk)
    ensures { counter.new ≡ desk_counted counter.old (held_by desk.now) }
{
    let edition = desk.edition();
    counter.count(DeskEvent::Holds {
        edition,
        mappings: desk.published().len() as u64,
        pending: desk.staged().edition().saturating_sub(edition),
        digest: desk.digest().number(),
    });
}
