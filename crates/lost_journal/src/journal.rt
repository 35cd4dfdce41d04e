//! The file in which edits are kept before they are published.
ghost use Rattle.std.specs.Prelude.{◌≡◌, ◌≢◌, ◌⊎◌, ◌+◌, ◌^◌, ◌<◌, ◌≤◌, ◌++◌, ◌∷◌, [], List, ℕ, length, take, All, IsTrue, OnOk, OnErr, IfOk, true, false};
ghost use Rattle.lost_lines.specs.Cutting.{newline};
ghost use Rattle.sqlite_disk.specs.Disk.{Only, Torn, Holds};
ghost use Rattle.lost_journal.specs.Format.{Keeps, IsTornAfter, with_commit, with_gate, closed, is_commit as is_commit_line};
ghost use Rattle.lost_journal.specs.Reading.{IsFound};
ghost use Rattle.lost_journal.specs.State.{IsSettled, body_in};

use crate::faults::NotKept;
use crate::gate::Gate;
use crate::line_kind::{CLOSED, LAST_END, OPEN, is_begun_commit, is_commit, is_unbroken};
use sqlite_disk::Disk;
use std::alloc::{AllocError, Global};

/// The greatest length of a file.
const MOST: usize = 1 << 62;

/// A journal: what is kept for ever, up to the last commit, and behind that the edits that wait for the next one. Each
/// edit stands as its desk sent it. A commit counts once the gate before it is open, which is written, and flushed,
/// after all of the commit is on the disk.
#[derive(Drop)]
pub struct Journal<D: Disk> {
    alloc: Global,
    disk: D,
    /// Where what is kept ends, behind the last commit's line.
    kept: usize,
    /// Where the edits ended before the last one was added.
    before: usize,
    /// Where the edits that wait end.
    end: usize,
    /// The file is not longer than this.
    tail: usize,
    gate: Gate,
    ghost least: { 2 ≤ kept },
    ghost settled: { IsTrue (D.Disk.is_clean disk) → IsSettled (D.Disk.seen disk) (D.Disk.may_leave disk) kept before end tail gate },
}

impl<D: Disk> Journal<D> {
    ghost use Rattle.lost_journal.specs.declared.gate.Gate.TheVariants.{Closed, Unsure};
    ghost use Rattle.lost_journal.specs.Seen.{disk_of, is_clean, IsClean, bytes_of, MayLeave, kept_of, end_of, body_of, behind_of, pending_of, earlier_of, gate_of, doubtful_of, MayKeep, SamePlaces, StaysBelow, StaysBeside, IsPut};

    /// A journal that is kept up to an offset, as was found in a file of this length, of which a crash leaves just what
    /// is read.
    pub(crate) fn settled(alloc: Global, disk: D, kept: usize, len: usize) -> Journal<D>
        requires least { 2 ≤ kept }
        requires found { IsTrue (D.Disk.is_clean disk) → IsFound (D.Disk.seen disk) kept }
        requires only { IsTrue (D.Disk.is_clean disk) → Only (D.Disk.seen disk) (D.Disk.may_leave disk) }
        requires whole { IsTrue (D.Disk.is_clean disk) → len ≡ length (D.Disk.seen disk) }
        ensures disk { disk_of result ≡ disk }
        ensures body { body_of result ≡ body_in (D.Disk.seen disk) kept }
        ensures places { (end_of result ≡ kept) × (kept_of result ≡ kept) }
        ensures pending { pending_of result ≡ [] }
        ensures closed { gate_of result ≡ Closed }
    {
        Journal {
            alloc,
            disk,
            kept,
            before: kept,
            end: kept,
            tail: len,
            gate: Gate::Closed,
        }
    }

    /// Whether a flush has failed, so that nothing more is asked of the file.
    pub fn is_spent(&self) -> bool {
        !self.disk.may_be_used()
    }

    /// Whether edits wait for a commit.
    pub fn has_pending(&self) -> bool
        ensures { result ≡ false → pending_of self.now ≡ [] }
    {
        self.end > self.kept
    }

    /// Adds an edit's line behind the others.
    ///
    /// # Errors
    ///
    /// [`NotKept`], and then what waits is as it was.
    pub fn append(&mut self, line: &[u8]) -> Result<(), NotKept>
        ensures clean { is_clean self.new ≡ is_clean self.old }
        ensures body { IsClean self.old → body_of self.new ≡ body_of self.old }
        ensures added { OnOk result (IsClean self.old →
            pending_of self.new ≡ pending_of self.old ++ (line.now ++ newline ∷ [])) }
        ensures unbroken { OnOk result (All (λ b. b ≢ newline) line.now) }
        ensures earlier { OnOk result (IsClean self.old →
            earlier_of self.new ≡ pending_of self.old) }
        ensures unchanged { OnErr result (IsClean self.old →
            pending_of self.new ≡ pending_of self.old) }
        ensures crash { IsClean self.old → (c : List ℕ)
            → MayLeave self.new c → MayKeep self.old c }
    {
        if is_commit(line) || !is_unbroken(line) {
            return Err(NotKept::Line);
        }
        let Ok(text) = ended(self.alloc, line) else {
            return Err(NotKept::Memory);
        };
        self.close_gate()?;
        self.put(&text)?;
        self.before = self.end;
        self.end += text.len();
        Ok(())
    }

    /// Takes the edit back that was added last.
    pub fn take_back(&mut self)
        ensures disk { disk_of self.new ≡ disk_of self.old }
        ensures body { body_of self.new ≡ body_of self.old }
        ensures taken { pending_of self.new ≡ earlier_of self.old }
    {
        self.end = self.before;
    }

    /// Drops the edits that wait.
    pub fn drop_pending(&mut self)
        ensures disk { disk_of self.new ≡ disk_of self.old }
        ensures body { body_of self.new ≡ body_of self.old }
        ensures dropped { pending_of self.new ≡ [] }
    {
        self.before = self.kept;
        self.end = self.kept;
    }

    /// Keeps the edits that wait, by a commit's line up to its gate: once it gives Ok, they are on the disk, and so is
    /// all that was kept before.
    ///
    /// # Errors
    ///
    /// [`NotKept`], and then the edits wait as before. After a crash they may be kept.
    pub fn commit(&mut self, line: &[u8]) -> Result<(), NotKept>
        ensures clean { is_clean self.new ≡ is_clean self.old }
        ensures kept { OnOk result (IsClean self.old →
            body_of self.new ≡ with_commit (body_of self.old) (pending_of self.old) line.now) }
        ensures unbroken { OnOk result (All (λ b. b ≢ newline) line.now) }
        ensures nothing_pending { OnOk result (IsClean self.old → pending_of self.new ≡ []) }
        ensures unchanged { OnErr result (IsClean self.old →
            (body_of self.new ≡ body_of self.old) × (pending_of self.new ≡ pending_of self.old)) }

        // After Ok a crash leaves a file that keeps them.
        ensures durable { OnOk result (IsClean self.old → (c : List ℕ)
            → MayLeave self.new c → Keeps c (body_of self.new)) }

        // Before that it leaves one that keeps what was kept, with these edits or without.
        ensures crash { IsClean self.old → (c : List ℕ) → MayLeave self.new c
            → MayKeep self.old c
            ⊎ (Keeps c (with_commit (body_of self.old) (pending_of self.old) line.now)
            ⊎ IsTornAfter c (body_of self.old)) }
    {
        if !is_begun_commit(line) {
            return Err(NotKept::Line);
        }
        let Ok(text) = with_end(self.alloc, line) else {
            return Err(NotKept::Memory);
        };
        self.close_gate()?;
        let after = self.stand(line, &text)?;
        self.pass_gate(after)?;
        Ok(())
    }

    /// Writes a commit's line behind the edits that wait, and flushes it with them. Gives where it ends.
    fn stand(&mut self, line: &[u8], text: &[u8]) -> Result<usize, NotKept>
        requires closed { gate_of self.old ≡ Closed }
        requires commit { is_commit_line line.now ≡ true }
        requires unbroken { All (λ b. b ≢ newline) line.now }
        requires text { text.now ≡ with_gate line.now closed }
        ensures clean { is_clean self.new ≡ is_clean self.old }
        ensures stays { IsClean self.old → StaysBelow self.old self.new }
        ensures fails { OnErr result (gate_of self.new ≡ Closed) }
        ensures stands { OnOk result (gate_of self.new ≡ Unsure) }
        ensures behind { OnOk result (IsClean self.old → behind_of self.new ≡ pending_of self.old ++ with_gate line.now closed) }
        ensures least { IfOk result (λ after. 2 ≤ after) }
        ensures ends { IfOk result (λ after. IsClean self.old → after ≡ length (bytes_of self.new)) }
    {
        self.put(text)?;
        let after = self.end + text.len();
        self.cut(after)?;
        self.flush()?;
        self.gate = Gate::Unsure;
        Ok(after)
    }

    /// Opens the last gate, behind which a commit stands up to the file's end.
    fn pass_gate(&mut self, after: usize) -> Result<(), NotKept>
        requires unsure { gate_of self.old ≡ Unsure }
        requires least { 2 ≤ after }
        requires ends { IsClean self.old → after ≡ length (bytes_of self.old) }
        ensures clean { is_clean self.new ≡ is_clean self.old }
        ensures fails { OnErr result (gate_of self.new ≡ Unsure) }
        ensures same { OnErr result (IsClean self.old → StaysBelow self.old self.new × StaysBeside self.old self.new) }
        ensures closed { OnOk result (gate_of self.new ≡ Closed) }
        ensures kept { OnOk result (IsClean self.old → body_of self.new ≡ doubtful_of self.old) }
        ensures nothing { OnOk result (pending_of self.new ≡ []) }
    {
        self.write_gate(OPEN)?;
        self.flush()?;
        self.gate = Gate::Closed;
        self.kept = after;
        self.before = after;
        self.end = after;
        Ok(())
    }

    /// Closes the last gate where that is unsure.
    fn close_gate(&mut self) -> Result<(), NotKept>
        ensures closed { OnOk result (gate_of self.new ≡ Closed) }
        ensures clean { is_clean self.new ≡ is_clean self.old }
        ensures body { IsClean self.old → body_of self.new ≡ body_of self.old }
        ensures pending { IsClean self.old → pending_of self.new ≡ pending_of self.old }
        ensures crash { IsClean self.old → (c : List ℕ)
            → MayLeave self.new c → MayKeep self.old c }
    {
        match self.gate {
            Gate::Closed => Ok(()),
            Gate::Unsure => self.shut(),
        }
    }

    /// Closes the last gate, which is unsure.
    fn shut(&mut self) -> Result<(), NotKept>
        requires unsure { gate_of self.old ≡ Unsure }
        ensures closed { OnOk result (gate_of self.new ≡ Closed) }
        ensures clean { is_clean self.new ≡ is_clean self.old }
        ensures body { IsClean self.old → body_of self.new ≡ body_of self.old }
        ensures pending { IsClean self.old → pending_of self.new ≡ pending_of self.old }
        ensures crash { IsClean self.old → (c : List ℕ) → MayLeave self.new c → MayKeep self.old c }
    {
        self.write_gate(CLOSED)?;
        self.flush()?;
        self.gate = Gate::Closed;
        Ok(())
    }

    /// Writes bytes behind the edits that wait, which they do not join yet.
    fn put(&mut self, bytes: &[u8]) -> Result<(), NotKept>
        requires closed { gate_of self.old ≡ Closed }
        requires some { 0 < length bytes.now }
        ensures places { SamePlaces self.old self.new }
        ensures clean { is_clean self.new ≡ is_clean self.old }
        ensures stays { IsClean self.old → StaysBelow self.old self.new }
        ensures room { OnOk result (end_of self.old + length bytes.now ≤ 2 ^ 62) }
        ensures written { OnOk result (IsClean self.old → IsPut self.old self.new bytes.now) }
    {
        let Some(after) = self.end.checked_add(bytes.len()) else {
            return Err(NotKept::TooLong);
        };
        if after > MOST {
            return Err(NotKept::TooLong);
        }
        if !self.disk.may_be_used() {
            return Err(NotKept::Spent);
        }
        self.tail = self.tail.max(after);
        match self.disk.write_at(self.end, bytes) {
            Ok(()) => Ok(()),
            Err(error) => Err(NotKept::Disk(error)),
        }
    }

    /// Cuts off what stands behind an offset.
    pub(crate) fn cut(&mut self, after: usize) -> Result<(), NotKept>
        requires closed { gate_of self.old ≡ Closed }
        requires behind { end_of self.old ≤ after }
        requires within { IsClean self.old → after ≤ length (bytes_of self.old) }
        ensures places { SamePlaces self.old self.new }
        ensures clean { is_clean self.new ≡ is_clean self.old }
        ensures stays { IsClean self.old → StaysBelow self.old self.new }
        ensures cut { OnOk result (IsClean self.old →
            bytes_of self.new ≡ take after (bytes_of self.old)) }
    {
        if self.tail <= after {
            return Ok(());
        }
        if !self.disk.may_be_used() {
            return Err(NotKept::Spent);
        }
        match self.disk.set_len(after) {
            Ok(()) => {
                self.tail = after;
                Ok(())
            }
            Err(error) => Err(NotKept::Disk(error)),
        }
    }

    /// Flushes the file to the disk.
    pub(crate) fn flush(&mut self) -> Result<(), NotKept>
        ensures places { SamePlaces self.old self.new }
        ensures clean { is_clean self.new ≡ is_clean self.old }
        ensures seen { bytes_of self.new ≡ bytes_of self.old }
        ensures durable { OnOk result (Only (bytes_of self.old) (MayLeave self.new)) }
    {
        if !self.disk.may_be_used() {
            return Err(NotKept::Spent);
        }
        match self.disk.sync() {
            Ok(()) => Ok(()),
            Err(error) => Err(NotKept::Disk(error)),
        }
    }

    /// Writes the last gate.
    fn write_gate(&mut self, gate: u8) -> Result<(), NotKept>
        requires unsure { gate_of self.old ≡ Unsure }
        ensures places { SamePlaces self.old self.new }
        ensures clean { is_clean self.new ≡ is_clean self.old }
        ensures stays { IsClean self.old → StaysBeside self.old self.new }
        ensures written { OnOk result (IsClean self.old →
            bytes_of self.new ≡ body_of self.old ++ gate ∷ newline ∷ behind_of self.old) }
    {
        if !self.disk.may_be_used() {
            return Err(NotKept::Spent);
        }
        match self.disk.write_at(self.kept - 2, &[gate]) {
            Ok(()) => Ok(()),
            Err(error) => Err(NotKept::Disk(error)),
        }
    }
}

/// A line with its byte 10.
fn ended(alloc: Global, line: &[u8]) -> Result<Vec<u8>, AllocError>
    ensures { IfOk result (λ text. text.items ≡ line.now ++ newline ∷ []) }
{
    let mut text = Vec::new(alloc);
    text.reserve(line.len().saturating_add(1))?;
    text.extend_from_slice(line)?;
    text.push(b'\n')?;
    Ok(text)
}

/// The line of the last commit.
fn with_end(alloc: Global, line: &[u8]) -> Result<Vec<u8>, AllocError>
    ensures { IfOk result (λ text. text.items ≡ with_gate line.now closed) }
{
    let mut text = Vec::new(alloc);
    text.extend_from_slice(line)?;
    text.extend_from_slice(LAST_END)?;
    Ok(text)
}
