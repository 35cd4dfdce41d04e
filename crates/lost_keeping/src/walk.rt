//! Goes over a journal, commit by commit.
ghost use Rattle.std.specs.Prelude.{◌≡◌, [], IsTrue, IfOk, OnOk, false};
ghost use Rattle.sqlite_disk.specs.Disk.{Only};
ghost use Rattle.lost_worker.specs.Desking.{IsSameDesk};
ghost use Rattle.lost_journal.specs.Found.{IsCleanReading, file_of, read_of, progress_of};
ghost use Rattle.lost_journal.specs.declared.reading.Progress.TheVariants.{Passing};
ghost use Rattle.lost_keeping.specs.Recovery.{IsReadTo};

use crate::recovery::{Recovery, RecoveryFault, Stopped};
use lost_desk::Desk;
use lost_journal::Reading;
use sqlite_disk::Disk;
use std::alloc::Global;
use std::sync::Wait;

/// A journal that is read from its beginning, commit by commit, up to the last one that counts.
#[derive(Drop)]
pub struct Walk<D: Disk> {
    recovery: Recovery,
    reading: Reading<D>,
    /// Whether nothing more is read.
    is_over: bool,
    ghost passing: { is_over ≡ false → progress_of reading ≡ Passing },
}

impl<D: Disk + Drop> Walk<D> {
    ghost use Rattle.lost_keeping.specs.Walks.{reading_of};

    /// Begins to read a journal of which a crash leaves just what is read.
    ///
    /// # Errors
    ///
    /// [`Stopped`] if its length cannot be learned.
    pub fn begin(alloc: Global, disk: D) -> Result<Walk<D>, Stopped>
        requires usable { IsTrue (D.Disk.is_usable disk) }
        requires settled { Only (D.Disk.seen disk) (D.Disk.may_leave disk) }
        ensures nothing { IfOk result (λ walk. read_of (reading_of walk) ≡ []) }
        ensures file { IfOk result (λ walk. file_of (reading_of walk) ≡ D.Disk.seen disk) }
    {
        let recovery = Recovery::new(alloc);
        match Reading::begin(alloc, disk) {
            Ok(reading) => Ok(Walk {
                recovery,
                reading,
                is_over: false,
            }),
            Err(fault) => Err(recovery.stopped(RecoveryFault::Unread(fault))),
        }
    }

    /// Publishes the edits up to the next commit on a desk that has those of the lines before it. Says whether there was
    /// one.
    ///
    /// # Errors
    ///
    /// [`Stopped`]: damage, or a failure of the disk. Then nothing more is read.
    pub fn next_commit<R: Wait>(&mut self, rt: &R, desk: &mut Desk) -> Result<bool, Stopped>
        // The desk has just what the lines that were read make.
        ensures read { OnOk result (IsCleanReading (reading_of self.new) → IsReadTo (read_of (reading_of self.old)) desk.old
            → IsReadTo (read_of (reading_of self.new)) desk.new) }
        ensures nothing_pending { IfOk result (λ more. IsTrue more → desk.new.pending ≡ []) }
        ensures clean { IsCleanReading (reading_of self.new) → IsCleanReading (reading_of self.old) }
        ensures file { file_of (reading_of self.new) ≡ file_of (reading_of self.old) }
        ensures same { IsSameDesk desk.old desk.new }
    {
        for _line in rt.forever() {
            if self.is_over {
                return Ok(false);
            }
            if self.passes_commit(rt, desk)? {
                return Ok(true);
            }
        }
        Ok(false)
    }

    /// Reads a line, and does what it orders. Says whether it was a commit's.
    fn passes_commit<R: Wait>(&mut self, rt: &R, desk: &mut Desk) -> Result<bool, Stopped>
        requires going { self.old.is_over ≡ false }
        ensures read { OnOk result (IsCleanReading (reading_of self.new) → IsReadTo (read_of (reading_of self.old)) desk.old
            → IsReadTo (read_of (reading_of self.new)) desk.new) }
        ensures nothing_pending { IfOk result (λ is_commit. IsTrue is_commit → desk.new.pending ≡ []) }
        ensures clean { IsCleanReading (reading_of self.new) → IsCleanReading (reading_of self.old) }
        ensures file { file_of (reading_of self.new) ≡ file_of (reading_of self.old) }
        ensures same { IsSameDesk desk.old desk.new }
    {
        self.is_over = true;
        match self.recovery.read_one(rt, &mut self.reading, desk) {
            Ok(is_last) => {
                self.is_over = is_last;
                Ok(is_last || desk.pending() == 0)
            }
            Err(fault) => Err(self.recovery.stopped(fault)),
        }
    }

    /// The line that was read last, without its byte 10.
    pub fn line(&self) -> &[u8] {
        self.reading.line()
    }
}
