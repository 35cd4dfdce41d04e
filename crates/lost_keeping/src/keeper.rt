//! Keeps a desk's edits before they are published.
ghost use Rattle.std.specs.Prelude.{◌≡◌, ◌⊎◌, [], Some, Ok, IfOk, OnOk, OnErr, false, string_bytes};
ghost use Rattle.lost_mapping.specs.Edit.{edit_of};
ghost use Rattle.lost_reading.specs.Desk.{Stage, Commit, desk_line};
ghost use Rattle.lost_desk.specs.Seen.{with_none_pending};
ghost use Rattle.lost_writing.specs.DeskReplies.{IsInTable};
ghost use Rattle.lost_worker.specs.Desking.{IsJudged, IsSameDesk, desk_terms, lists_of, said};
ghost use Rattle.lost_spec.specs.Text.{Text};
ghost use Rattle.lost_keeping.specs.Kept.{OrdersCommit};

use crate::commit_line::{front_of_line, line_of};
use crate::orders::orders_commit;
use lost_book::Edit;
use lost_desk::Desk;
use lost_journal::{Journal, NotKept};
use lost_json::DeskReply;
use lost_spec::Coded;
use lost_tape::Scratch;
use sqlite_disk::Disk;
use std::alloc::{AllocError, Global};
use std::hash::{DefaultHasher, Hasher};
use std::sync::Wait;
use std::time::Clock;

/// The code of a refusal whose cause is that an edit or a commit could not be kept.
pub const NOT_KEPT: u8 = 23;

/// Keeps the edits of a desk in a journal: each is in the file before it is staged, and a commit is on the disk before
/// it is published.
#[derive(Drop)]
pub struct Keeper<D: Disk> {
    alloc: Global,
    journal: Journal<D>,
    /// The sum of the edits that wait.
    sum: DefaultHasher,
    /// Whether a commit is kept that could not be published.
    owes: bool,
    /// Why something was not kept, the first time since that was asked for.
    fault: Option<NotKept>,
}

impl<D: Disk> Keeper<D> {
    ghost use Rattle.lost_keeping.specs.Keepers.{journal_of, owes_of, is_clean_keeper, IsCleanKeeper, IsKept, IsAllKept};

    /// Keeps an edit, and stages it behind the pending ones. If it cannot be kept, it is refused.
    pub(crate) fn keep(&mut self, desk: &mut Desk, line: &[u8], edit: Edit) -> DeskReply
        requires order { desk_line line.now ≡ Some (Ok (Stage (edit_of edit))) }
        ensures clean { is_clean_keeper self.new ≡ is_clean_keeper self.old }
        ensures kept { IsCleanKeeper self.old → IsKept self.old desk.old → IsKept self.new desk.new }
        ensures answered { ((line : Text) → IsJudged (desk_terms desk.old.limits) (lists_of desk.old) line
            (Some (Ok (Stage (edit_of edit)))) (said result) (lists_of desk.new))
            ⊎ ((result ≡ DeskReply.Refused 23) × (desk.new ≡ desk.old)) }
        ensures same { IsSameDesk desk.old desk.new }
        ensures in_table { IsInTable result }
    {
        if let Err(fault) = self.journal.append(line) {
            self.fault = Some(self.fault.unwrap_or(fault));
            return DeskReply::Refused(NOT_KEPT);
        }
        match desk.stage(edit) {
            Ok(pending) => {
                self.sum.write(line);
                self.sum.write(b"\n");
                DeskReply::Staged(pending)
            }
            Err(error) => {
                self.journal.take_back();
                DeskReply::Refused(error.code())
            }
        }
    }

    /// Keeps all that is pending, and publishes it. If it cannot be kept, it is refused, and stays pending.
    pub(crate) fn commit<R: Wait + Clock>(
        &mut self,
        rt: &R,
        desk: &mut Desk,
        scratch: &mut Scratch,
    ) -> DeskReply
        ensures clean { is_clean_keeper self.new ≡ is_clean_keeper self.old }
        ensures kept { IsCleanKeeper self.old → IsKept self.old desk.old → IsKept self.new desk.new }
        ensures answered { ((line : Text) → IsJudged (desk_terms desk.old.limits) (lists_of desk.old) line
            (Some (Ok Commit)) (said result) (lists_of desk.new))
            ⊎ ((result ≡ DeskReply.Refused 23) × (desk.new ≡ desk.old)) }
        ensures same { IsSameDesk desk.old desk.new }
        ensures in_table { IsInTable result }
    {
        if let Err(fault) = self.keep_pending(rt, desk, scratch) {
            self.fault = Some(self.fault.unwrap_or(fault));
            return DeskReply::Refused(NOT_KEPT);
        }
        match desk.commit(rt) {
            Ok(edition) => {
                self.owes = false;
                DeskReply::Committed(edition)
            }
            Err(_) => {
                self.owes = true;
                DeskReply::Refused(20)
            }
        }
    }

    /// Keeps all that is pending.
    fn keep_pending<R: Clock>(
        &mut self,
        rt: &R,
        desk: &Desk,
        scratch: &mut Scratch,
    ) -> Result<(), NotKept>
        ensures clean { is_clean_keeper self.new ≡ is_clean_keeper self.old }
        ensures unchanged { OnErr result (IsCleanKeeper self.old → IsKept self.old desk.now → IsKept self.new desk.now) }
        ensures kept { OnOk result (IsCleanKeeper self.old → IsKept self.old desk.now → IsAllKept self.new desk.now) }
    {
        if !self.journal.has_pending() {
            return Ok(());
        }
        let line = self.line_of_commit(rt, desk, scratch)?;
        self.journal.commit(line.as_bytes())?;
        self.sum = DefaultHasher::new();
        Ok(())
    }

    /// The line of a commit of all that is pending, up to its gate.
    fn line_of_commit<R: Clock>(
        &self,
        rt: &R,
        desk: &Desk,
        scratch: &mut Scratch,
    ) -> Result<String, NotKept>
        ensures { IfOk result (λ line. OrdersCommit (string_bytes line)) }
    {
        let front = front_of_line(
            self.alloc,
            desk.staged().edition(),
            desk.staged_digest(),
            self.sum.finish(),
        )?;
        let line = line_of(self.alloc, front.as_str(), rt.since_1970().ok())?;
        if !orders_commit(self.alloc, line.as_bytes(), scratch)? {
            return Err(NotKept::Line);
        }
        Ok(line)
    }

    /// Drops the pending edits, as when a desk's connection has ended. Published edits stay.
    ///
    /// # Errors
    ///
    /// If memory is refused, or if a commit is kept that could not be published, nothing is dropped.
    pub fn drop_pending(&mut self, desk: &mut Desk) -> Result<(), AllocError>
        ensures clean { is_clean_keeper self.new ≡ is_clean_keeper self.old }
        ensures kept { IsCleanKeeper self.old → IsKept self.old desk.old → IsKept self.new desk.new }
        ensures dropped { OnOk result (desk.new ≡ with_none_pending desk.old) }
        ensures unchanged { OnErr result (desk.new ≡ desk.old) }
    {
        if self.owes {
            return Err(AllocError);
        }
        desk.drop_pending()?;
        self.journal.drop_pending();
        self.sum = DefaultHasher::new();
        Ok(())
    }

    /// Why something was not kept, if it was not asked for yet.
    pub fn take_fault(&mut self) -> Option<NotKept>
        ensures clean { is_clean_keeper self.new ≡ is_clean_keeper self.old }
        ensures journal { journal_of self.new ≡ journal_of self.old }
        ensures owes { owes_of self.new ≡ owes_of self.old }
    {
        self.fault.take()
    }

    /// Whether a flush has failed, so that nothing more is kept until a restart.
    pub fn is_spent(&self) -> bool {
        self.journal.is_spent()
    }

    /// Keeps on where a journal was read to its end.
    pub(crate) fn of(alloc: Global, journal: Journal<D>) -> Keeper<D>
        ensures journal { journal_of result ≡ journal }
        ensures owes { owes_of result ≡ false }
    {
        Keeper {
            alloc,
            journal,
            sum: DefaultHasher::new(),
            owes: false,
            fault: None,
        }
    }
}
