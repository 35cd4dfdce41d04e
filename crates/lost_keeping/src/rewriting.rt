//! Writes a journal anew, with all its edits in one commit.
ghost use Rattle.std.specs.Prelude.{◌≡◌, OnOk};
ghost use Rattle.lost_reading.specs.Desk.{desk_line};
ghost use Rattle.lost_json.specs.Step.{lists_after};
ghost use Rattle.lost_worker.specs.Desking.{IsSameDesk, desk_terms, lists_of};

use crate::commit_line::{front_of_line, line_of, line_of_nothing};
use crate::recovery::{Recovery, RecoveryFault};
use lost_desk::Desk;
use std::alloc::{AllocError, Global};
use std::hash::Hasher;
use std::time::Duration;

/// A journal of one commit that is written line by line. A desk that has no edits at first takes each edit as a reader
/// of the journal will, and so gives the commit's edition and digest.
#[derive(Drop)]
pub struct Rewriting {
    recovery: Recovery,
}

impl Rewriting {
    /// Begins a journal.
    pub fn new(alloc: Global) -> Rewriting {
        Rewriting {
            recovery: Recovery::new(alloc),
        }
    }

    /// The first line, with its byte 10: a commit of nothing, with an open gate.
    ///
    /// # Errors
    ///
    /// If memory is refused.
    pub fn first_line(&self, since: Option<Duration>) -> Result<String, AllocError> {
        let line = line_of_nothing(self.recovery.alloc, since)?;
        format!(in self.recovery.alloc; "{line}\t\n")
    }

    /// Takes the line of an edit, without its byte 10, and stages the edit.
    ///
    /// # Errors
    ///
    /// [`RecoveryFault`] if a reader of the journal would refuse the line.
    pub fn edit(&mut self, line: &[u8], desk: &mut Desk) -> Result<(), RecoveryFault>
        ensures staged { OnOk result (lists_of desk.new ≡ lists_after (desk_terms desk.old.limits) (lists_of desk.old) (desk_line line.now)) }
        ensures same { IsSameDesk desk.old desk.new }
    {
        self.recovery.stage(line, desk)
    }

    /// The last line, with its byte 10: the commit of all that the desk took, with a closed gate.
    ///
    /// # Errors
    ///
    /// If memory is refused.
    pub fn last_line(&self, desk: &Desk, since: Option<Duration>) -> Result<String, AllocError> {
        let alloc = self.recovery.alloc;
        let front = front_of_line(
            alloc,
            desk.staged().edition(),
            desk.staged_digest(),
            self.recovery.sum.finish(),
        )?;
        let line = line_of(alloc, front.as_str(), since)?;
        format!(in alloc; "{line} \n")
    }
}
