//! Publishes what a journal keeps, as it is opened again.
ghost use Rattle.std.specs.Prelude.{◌≡◌, ◌-◌, ◌++◌, [], length, take, Some, Ok, IsTrue, IfOk, OnOk, false};
ghost use Rattle.sqlite_disk.specs.Disk.{Only};
ghost use Rattle.lost_lines.specs.Cutting.{last_piece};
ghost use Rattle.lost_reading.specs.Desk.{Commit, desk_line};
ghost use Rattle.lost_json.specs.Step.{lists_after};
ghost use Rattle.lost_worker.specs.Desking.{IsSameDesk, desk_terms, lists_of};
ghost use Rattle.lost_journal.specs.Format.{closed, with_gate};
ghost use Rattle.lost_journal.specs.Found.{IsCleanReading, file_of, read_of, progress_of, found_body};
ghost use Rattle.lost_journal.specs.declared.reading.Progress.TheVariants.{Passing, Found};
ghost use Rattle.lost_keeping.specs.Keepers.{IsCleanKeeper, IsKept};
ghost use Rattle.lost_keeping.specs.Kept.{OrdersCommit, all_published, lists_kept};
ghost use Rattle.lost_keeping.specs.Recovery.{IsReadTo, IsRecovered};

use crate::commit_line::{front_of_line, sum_text};
use crate::keeper::Keeper;
use crate::orders::{is_commit_order, orders_commit, read_order};
use lost_desk::Desk;
use lost_journal::{NotKept, OPEN, Read, ReadFault, Reading, is_commit};
use lost_json::DeskLine;
use lost_spec::Coded;
use lost_tape::Scratch;
use memchr::memmem;
use sqlite_disk::Disk;
use std::alloc::{AllocError, Global};
use std::hash::{DefaultHasher, Hasher};
use std::sync::Wait;
use thiserror::Error;

/// Why a journal is not opened. The file is untouched, unless it could not be cut.
#[derive(Clone, Copy, Debug, Error)]
pub enum RecoveryFault {
    /// It is damaged.
    #[error("{0}")]
    Damaged(Damage),
    /// It could not be read.
    #[error("{0}")]
    Unread(ReadFault),
    /// What a crash left behind the last commit could not be cut off.
    #[error("what stands behind the last commit could not be cut off: {0}")]
    Uncut(NotKept),
    #[error("memory ran out")]
    Memory,
}

/// What is wrong with a damaged journal.
#[derive(Clone, Copy, PartialEq, Eq, Debug, Error)]
pub enum Damage {
    /// An edit is refused, with this code.
    #[error("the edit is refused with code {0}")]
    Refused(u8),
    /// A line is neither an edit nor a commit.
    #[error("the line is neither an edit nor a commit")]
    NoDeskLine,
    /// A commit's line says another edition, map or sum than its edits make.
    #[error("the commit says another edition, map or sum than its edits make")]
    OtherCommit,
    /// A commit's gate is neither open nor closed.
    #[error("the byte before the end of the commit's line is neither a space nor a tab")]
    Torn,
    /// No commit has a closed gate.
    #[error("the journal ends before its last commit")]
    NoEnd,
    /// A whole commit with an open gate stands behind a closed one.
    #[error("a whole commit whose line ends in a tab stands behind a commit whose line ends in a space")]
    CommitBehind,
}

/// Where the reading of a journal stopped, and why.
#[derive(Clone, Copy, Debug)]
pub struct Stopped {
    /// The number of the line, from 1; 0 before the first.
    pub line: u64,
    /// How many bytes stand before that line.
    pub offset: u64,
    pub fault: RecoveryFault,
}

/// What was found in a journal that was read to its end.
#[derive(Clone, Copy, PartialEq, Eq, Debug)]
pub struct Recovered {
    /// How many lines are kept.
    pub lines: u64,
    /// How many bytes they have.
    pub bytes: u64,
    /// How many whole lines stand behind the last commit, up to one that is too long.
    pub dropped_lines: u64,
    /// How many bytes stand behind the last commit.
    pub dropped_bytes: u64,
}

/// Reads a journal of which a crash leaves just what is read, publishes its edits on a desk that has none, and cuts off
/// what stands behind the last commit.
///
/// # Errors
///
/// [`Stopped`]: damage, or a failure of the disk.
pub fn recover<R: Wait, D: Disk + Drop>(
    rt: &R,
    alloc: Global,
    disk: D,
    desk: &mut Desk,
) -> Result<(Keeper<D>, Recovered), Stopped>
    requires usable { IsTrue (D.Disk.is_usable disk) }
    requires settled { Only (D.Disk.seen disk) (D.Disk.may_leave disk) }
    requires nothing { lists_of desk.old ≡ all_published [] }

    // What is published is just what the file keeps, and it is kept on.
    ensures recovered { IfOk result (λ r. IsCleanKeeper r.0 → IsRecovered (D.Disk.seen disk) desk.new) }
    ensures kept { IfOk result (λ r. IsCleanKeeper r.0 → IsKept r.0 desk.new) }
    ensures nothing_pending { OnOk result (desk.new.pending ≡ []) }
    ensures same { IsSameDesk desk.old desk.new }
{
    let (reading, recovered) = examine(rt, alloc, disk, desk)?;
    match reading.finish() {
        Ok(journal) => Ok((Keeper::of(alloc, journal), recovered)),
        Err(fault) => Err(Stopped {
            line: recovered.lines,
            offset: recovered.bytes,
            fault: RecoveryFault::Uncut(fault),
        }),
    }
}

/// Reads a journal as [`recover`] does, and cuts nothing off.
///
/// # Errors
///
/// [`Stopped`]: damage, or a failure of the disk.
pub fn examine<R: Wait, D: Disk + Drop>(
    rt: &R,
    alloc: Global,
    disk: D,
    desk: &mut Desk,
) -> Result<(Reading<D>, Recovered), Stopped>
    requires usable { IsTrue (D.Disk.is_usable disk) }
    requires settled { Only (D.Disk.seen disk) (D.Disk.may_leave disk) }
    requires nothing { lists_of desk.old ≡ all_published [] }

    // What is published is just what the file keeps.
    ensures recovered { IfOk result (λ r. IsCleanReading r.0 → IsRecovered (D.Disk.seen disk) desk.new) }
    ensures found { IfOk result (λ r. progress_of r.0 ≡ Found) }
    ensures published { IfOk result (λ r. IsCleanReading r.0
        → lists_kept desk.new.limits (found_body r.0) ≡ all_published desk.new.published) }
    ensures commits { IfOk result (λ r. IsCleanReading r.0 → OrdersCommit (last_piece (found_body r.0))) }
    ensures nothing_pending { OnOk result (desk.new.pending ≡ []) }
    ensures same { IsSameDesk desk.old desk.new }
{
    let mut recovery = Recovery::new(alloc);
    let mut reading = match Reading::begin(alloc, disk) {
        Ok(reading) => reading,
        Err(fault) => return Err(recovery.stopped(RecoveryFault::Unread(fault))),
    };
    if let Err(fault) = recovery.read_kept(rt, &mut reading, desk) {
        return Err(recovery.stopped(fault));
    }
    let (lines, bytes) = (recovery.lines, recovery.offset);
    let dropped_bytes = match recovery.read_behind(rt, &mut reading, desk.edition()) {
        Ok(dropped_bytes) => dropped_bytes,
        Err(fault) => return Err(recovery.stopped(fault)),
    };
    // The last line that was tried is none.
    let dropped_lines = recovery.lines.saturating_sub(lines).saturating_sub(1);
    let recovered = Recovered {
        lines,
        bytes,
        dropped_lines,
        dropped_bytes,
    };
    Ok((reading, recovered))
}

/// The reading of a journal: what sums its edits up, and how many lines were read.
#[derive(Drop)]
pub(crate) struct Recovery {
    pub(crate) alloc: Global,
    scratch: Scratch,
    pub(crate) sum: DefaultHasher,
    /// The number of the line that is read, from 1.
    lines: u64,
    /// How many bytes stand before it.
    offset: u64,
}

impl Recovery {
    pub(crate) fn new(alloc: Global) -> Recovery {
        Recovery {
            alloc,
            scratch: Scratch::new(alloc),
            sum: DefaultHasher::new(),
            lines: 0,
            offset: 0,
        }
    }

    /// The fault, with the line at which the reading stopped.
    pub(crate) fn stopped(&self, fault: RecoveryFault) -> Stopped {
        Stopped {
            line: self.lines,
            offset: self.offset,
            fault,
        }
    }

    /// Goes past a line that was read, and its byte 10.
    fn pass(&mut self, line: &[u8]) {
        let bytes = (line.len() as u64).saturating_add(1);
        self.offset = self.offset.saturating_add(bytes);
    }

    /// Reads all that is kept, and publishes it.
    fn read_kept<R: Wait, D: Disk + Drop>(
        &mut self,
        rt: &R,
        reading: &mut Reading<D>,
        desk: &mut Desk,
    ) -> Result<(), RecoveryFault>
        requires passing { progress_of reading.old ≡ Passing }
        ensures clean { IsCleanReading reading.new → IsCleanReading reading.old }
        ensures file { file_of reading.new ≡ file_of reading.old }
        ensures same { IsSameDesk desk.old desk.new }
        ensures found { OnOk result (progress_of reading.new ≡ Found) }
        ensures published { OnOk result (IsCleanReading reading.new → IsReadTo (read_of reading.old) desk.old
            → lists_kept desk.new.limits (found_body reading.new) ≡ all_published desk.new.published) }
        ensures commits { OnOk result (IsCleanReading reading.new → OrdersCommit (last_piece (found_body reading.new))) }
        ensures nothing_pending { OnOk result (desk.new.pending ≡ []) }
    {
        for _line in rt.forever() {
            if self.read_one(rt, reading, desk)? {
                return Ok(());
            }
        }
        Err(RecoveryFault::Damaged(Damage::NoEnd))
    }

    /// Reads a line of what is kept, and does what it orders. Says whether it was the last one.
    pub(crate) fn read_one<R: Wait, D: Disk + Drop>(
        &mut self,
        rt: &R,
        reading: &mut Reading<D>,
        desk: &mut Desk,
    ) -> Result<bool, RecoveryFault>
        requires passing { progress_of reading.old ≡ Passing }
        ensures clean { IsCleanReading reading.new → IsCleanReading reading.old }
        ensures file { file_of reading.new ≡ file_of reading.old }
        ensures same { IsSameDesk desk.old desk.new }
        ensures goes_on { IfOk result (λ done. done ≡ false → progress_of reading.new ≡ Passing) }
        ensures read { OnOk result (IsCleanReading reading.new → IsReadTo (read_of reading.old) desk.old → IsReadTo (read_of reading.new) desk.new) }
        ensures found { IfOk result (λ done. IsTrue done → progress_of reading.new ≡ Found) }
        ensures kept { IfOk result (λ done. IsTrue done → IsCleanReading reading.new → read_of reading.new ≡ with_gate (found_body reading.new) closed) }
        ensures commits { IfOk result (λ done. IsTrue done → IsCleanReading reading.new → OrdersCommit (last_piece (found_body reading.new))) }
        ensures nothing_pending { IfOk result (λ done. IsTrue done → desk.new.pending ≡ []) }
    {
        self.lines = self.lines.saturating_add(1);
        let read = match reading.next() {
            Ok(read) => read,
            Err(fault) => return Err(RecoveryFault::Unread(fault)),
        };
        match read {
            Read::Edit => {
                self.stage(reading.line(), desk)?;
                self.pass(reading.line());
                Ok(false)
            }
            Read::Commit => {
                self.commit(rt, reading.line(), desk)?;
                self.pass(reading.line());
                Ok(false)
            }
            Read::LastCommit => {
                self.commit(rt, reading.line(), desk)?;
                self.pass(reading.line());
                Ok(true)
            }
            Read::Torn => Err(RecoveryFault::Damaged(Damage::Torn)),
            Read::End => Err(RecoveryFault::Damaged(Damage::NoEnd)),
        }
    }

    /// Stages the edit of a line.
    pub(crate) fn stage(&mut self, line: &[u8], desk: &mut Desk) -> Result<(), RecoveryFault>
        ensures staged { OnOk result (lists_of desk.new ≡ lists_after (desk_terms desk.old.limits) (lists_of desk.old) (desk_line line.now)) }
        ensures same { IsSameDesk desk.old desk.new }
    {
        let edit = match read_order(self.alloc, line, &mut self.scratch) {
            Ok(Some(DeskLine::Edit(edit))) => edit,
            Ok(_) => return Err(RecoveryFault::Damaged(Damage::NoDeskLine)),
            Err(fault) => return Err(refused(fault.code())),
        };
        match desk.stage(edit) {
            Ok(_pending) => {
                self.sum.write(line);
                self.sum.write(b"\n");
                Ok(())
            }
            Err(error) => Err(refused(error.code())),
        }
    }

    /// Publishes what is staged, if a commit's line says what it makes.
    fn commit<R: Wait>(&mut self, rt: &R, line: &[u8], desk: &mut Desk) -> Result<(), RecoveryFault>
        ensures committed { OnOk result (lists_of desk.new ≡ all_published (desk.old.published ++ desk.old.pending)) }
        ensures nothing_pending { OnOk result (desk.new.pending ≡ []) }
        ensures orders { OnOk result (OrdersCommit (take (length line.now - 1) line.now)) }
        ensures says { OnOk result (desk_line line.now ≡ Some (Ok Commit)) }
        ensures same { IsSameDesk desk.old desk.new }
    {
        let front = front_of_line(
            self.alloc,
            desk.staged().edition(),
            desk.staged_digest(),
            self.sum.finish(),
        )?;
        let body = &line[..line.len().saturating_sub(1)];
        if !line.starts_with(front.as_bytes())
            || !orders_commit(self.alloc, body, &mut self.scratch)?
            || !is_commit_order(self.alloc, line, &mut self.scratch)?
        {
            return Err(RecoveryFault::Damaged(Damage::OtherCommit));
        }
        self.sum = DefaultHasher::new();
        match desk.commit(rt) {
            Ok(_edition) => Ok(()),
            Err(_) => Err(RecoveryFault::Memory),
        }
    }

    /// Reads what stands behind the last commit, and gives how many bytes that are. No crash leaves a whole commit there
    /// whose gate is open: it is opened only once the gate before it is.
    fn read_behind<R: Wait, D: Disk + Drop>(
        &mut self,
        rt: &R,
        reading: &mut Reading<D>,
        edition: u64,
    ) -> Result<u64, RecoveryFault>
        ensures clean { IsCleanReading reading.new → IsCleanReading reading.old }
        ensures progress { progress_of reading.new ≡ progress_of reading.old }
        ensures body { found_body reading.new ≡ found_body reading.old }
        ensures file { file_of reading.new ≡ file_of reading.old }
    {
        let dropped = reading.behind() as u64;
        let mut edition = edition;
        self.sum = DefaultHasher::new();
        for _line in rt.forever() {
            self.lines = self.lines.saturating_add(1);
            match reading.next_behind() {
                Ok(true) => {
                    if self.ends_open_commit(reading.line(), edition)? {
                        return Err(RecoveryFault::Damaged(Damage::CommitBehind));
                    }
                    if !is_commit(reading.line()) {
                        edition = edition.saturating_add(1);
                    }
                    self.pass(reading.line());
                }
                Ok(false) | Err(ReadFault::Line) => return Ok(dropped),
                Err(fault) => return Err(RecoveryFault::Unread(fault)),
            }
        }
        Ok(dropped)
    }

    /// Takes a line behind the last commit, and says whether it is a commit's that has this edition, the sum of the
    /// lines before it and an open gate.
    fn ends_open_commit(&mut self, line: &[u8], edition: u64) -> Result<bool, AllocError> {
        if !is_commit(line) {
            self.sum.write(line);
            self.sum.write(b"\n");
            return Ok(false);
        }
        let sum = sum_text(self.alloc, self.sum.finish())?;
        let front = format!(in self.alloc; "{{\"commit\":{{\"edition\":{edition},")?;
        self.sum = DefaultHasher::new();
        Ok(
            line.last() == Some(&OPEN)
                && line.starts_with(front.as_bytes())
                && memmem::find(line, sum.as_bytes()).is_some(),
        )
    }
}

/// The fault of a refused edit; code 20 is want of memory.
fn refused(code: u8) -> RecoveryFault {
    match code {
        20 => RecoveryFault::Memory,
        code => RecoveryFault::Damaged(Damage::Refused(code)),
    }
}

impl From<AllocError> for RecoveryFault {
    fn from(_error: AllocError) -> RecoveryFault {
        RecoveryFault::Memory
    }
}
