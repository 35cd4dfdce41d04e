//! Reads a journal from its beginning, as it is opened again.
ghost use Rattle.std.specs.Prelude.{◌≡◌, ◌≢◌, ◌⊎◌, ◌≤◌, ◌-◌, ◌++◌, ◌∷◌, [], length, take, All, IsTrue, IfOk, true, false};
ghost use Rattle.lost_lines.specs.Cutting.{newline, last_piece};
ghost use Rattle.sqlite_disk.specs.Disk.{Only};
ghost use Rattle.lost_journal.specs.Format.{is_commit as is_commit_line, gate_of_line, opened, closed, with_gate};
ghost use Rattle.lost_journal.specs.Lines.{IsCleanLines, bytes_read, read_so_far};
ghost use Rattle.lost_journal.specs.declared.reading.Progress.TheVariants.{Passing, Found, Broken};
ghost use Rattle.lost_journal.specs.declared.reading.Read.TheVariants.{Edit, Commit, LastCommit, Torn, End};
ghost use Rattle.lost_journal.specs.Seen.{IsClean, body_of, pending_of};
ghost use Rattle.lost_journal.specs.Reading.{IsPassing, IsFound};

use crate::faults::{NotKept, ReadFault};
use crate::file_lines::FileLines;
use crate::gate::Gate;
use crate::journal::Journal;
use crate::line_kind::{CLOSED, OPEN, is_commit};
use sqlite_disk::Disk;
use std::alloc::Global;

/// How far the reading of a journal came.
#[derive(Clone, Copy, PartialEq, Eq, Debug)]
pub enum Progress {
    /// A reader goes on behind each line that was read.
    Passing,
    /// A commit was read whose gate is closed: what is kept ends there.
    Found,
    /// A commit was read whose gate is neither open nor closed.
    Broken,
}

/// What was read of a journal.
#[derive(Clone, Copy, PartialEq, Eq, Debug)]
pub enum Read {
    /// The line of an edit.
    Edit,
    /// The line of a commit, with its gate. Behind it another commit counts.
    Commit,
    /// The line of the last commit that counts, with its gate.
    LastCommit,
    /// The line of a commit whose gate is neither open nor closed: damage.
    Torn,
    /// There is no further line.
    End,
}

/// A journal that is read from its beginning, line by line.
#[derive(Drop)]
pub struct Reading<D: Disk> {
    alloc: Global,
    lines: FileLines<D>,
    /// Where what is kept ends, once that was found.
    kept: usize,
    progress: Progress,
    ghost passing: { progress ≡ Passing → IsCleanLines lines → IsPassing (read_so_far lines) },
    ghost least: { progress ≡ Found → 2 ≤ kept },
    ghost found: { progress ≡ Found → IsCleanLines lines → IsFound (bytes_read lines) kept },
}

impl<D: Disk + Drop> Reading<D> {
    ghost use Rattle.lost_journal.specs.Found.{IsCleanReading, file_of, read_of, line_of, progress_of, found_body};

    /// Begins to read a journal of which a crash leaves just what is read.
    ///
    /// # Errors
    ///
    /// [`ReadFault::Disk`] if its length cannot be learned.
    pub fn begin(alloc: Global, disk: D) -> Result<Reading<D>, ReadFault>
        requires usable { IsTrue (D.Disk.is_usable disk) }
        requires settled { Only (D.Disk.seen disk) (D.Disk.may_leave disk) }
        ensures nothing { IfOk result (λ reading. read_of reading ≡ []) }
        ensures file { IfOk result (λ reading. file_of reading ≡ D.Disk.seen disk) }
        ensures clean { IfOk result (λ reading. IsCleanReading reading → IsTrue (D.Disk.is_clean disk)) }
        ensures passing { IfOk result (λ reading. progress_of reading ≡ Passing) }
    {
        Ok(Reading {
            alloc,
            lines: FileLines::begin(alloc, disk)?,
            kept: 0,
            progress: Progress::Passing,
        })
    }

    /// The line that was read last, without its byte 10; a commit's has its gate.
    pub fn line(&self) -> &[u8]
        ensures { result.now ≡ line_of self.now }
    {
        self.lines.line()
    }

    /// How many bytes stand behind what is kept, once that was found.
    pub fn behind(&self) -> usize {
        self.lines.len().saturating_sub(self.kept)
    }

    /// How many bytes were not read yet.
    pub fn left(&self) -> usize {
        self.lines.len().saturating_sub(self.lines.place())
    }

    /// Reads the next line, until the last commit that counts was read.
    ///
    /// # Errors
    ///
    /// [`ReadFault`], and then nothing more is read.
    pub fn next(&mut self) -> Result<Read, ReadFault>
        ensures clean { IsCleanReading self.new → IsCleanReading self.old }
        ensures file { file_of self.new ≡ file_of self.old }
        ensures edit { IfOk result (λ read. read ≡ Edit → is_commit_line (line_of self.new) ≡ false) }
        ensures commit { IfOk result (λ read. read ≡ Commit → is_commit_line (line_of self.new) ≡ true) }
        ensures goes_on { IfOk result (λ read. (read ≡ Edit) ⊎ (read ≡ Commit) → progress_of self.new ≡ Passing) }
        ensures line { IfOk result (λ read. (read ≡ Edit) ⊎ (read ≡ Commit) → IsCleanReading self.new
            → read_of self.new ≡ read_of self.old ++ (line_of self.new ++ newline ∷ [])) }
        ensures last { IfOk result (λ read. read ≡ LastCommit → progress_of self.new ≡ Found) }
        ensures last_line { IfOk result (λ read. read ≡ LastCommit → IsCleanReading self.new
            → read_of self.new ≡ read_of self.old ++ (line_of self.new ++ newline ∷ [])) }
        ensures kept { IfOk result (λ read. read ≡ LastCommit → IsCleanReading self.new → read_of self.new ≡ with_gate (found_body self.new) closed) }
        ensures piece { IfOk result (λ read. read ≡ LastCommit → IsCleanReading self.new
            → last_piece (found_body self.new) ≡ take (length (line_of self.new) - 1) (line_of self.new)) }
        ensures unbroken { IfOk result (λ read. read ≢ End → All (λ b. b ≢ newline) (line_of self.new)) }
    {
        if self.progress != Progress::Passing {
            return Ok(Read::End);
        }
        self.progress = Progress::Broken;
        if !self.lines.read_line()? {
            return Ok(Read::End);
        }
        let read = kind_of(self.lines.line());
        match read {
            Read::Edit | Read::Commit => self.progress = Progress::Passing,
            Read::LastCommit => {
                self.kept = self.lines.place();
                self.progress = Progress::Found;
            }
            Read::Torn | Read::End => {}
        }
        Ok(read)
    }

    /// Reads a line behind what is kept, once that was found, and says whether there is one.
    ///
    /// # Errors
    ///
    /// [`ReadFault`].
    pub fn next_behind(&mut self) -> Result<bool, ReadFault>
        ensures clean { IsCleanReading self.new → IsCleanReading self.old }
        ensures file { file_of self.new ≡ file_of self.old }
        ensures progress { progress_of self.new ≡ progress_of self.old }
        ensures body { found_body self.new ≡ found_body self.old }
    {
        if self.progress != Progress::Found {
            return Ok(false);
        }
        self.lines.read_line()
    }

    /// Cuts off what stands behind what is kept, and gives the journal.
    ///
    /// # Errors
    ///
    /// [`NotKept::Disk`] if the file cannot be cut or flushed.
    pub fn finish(self) -> Result<Journal<D>, NotKept>
        requires found { progress_of self ≡ Found }
        ensures clean { IfOk result (λ journal. IsClean journal → IsCleanReading self) }
        ensures body { IfOk result (λ journal. IsClean journal → body_of journal ≡ found_body self) }
        ensures nothing_pending { IfOk result (λ journal. pending_of journal ≡ []) }
    {
        let (disk, len) = self.lines.end();
        let mut journal = Journal::settled(self.alloc, disk, self.kept, len);
        journal.cut(self.kept)?;
        journal.flush()?;
        Ok(journal)
    }
}

/// What a line is, by how it begins and its last byte.
fn kind_of(line: &[u8]) -> Read
    ensures edit { result ≡ Edit → is_commit_line line.now ≡ false }
    ensures commit { result ≡ Commit → is_commit_line line.now ≡ true }
    ensures open_gate { result ≡ Commit → gate_of_line line.now ≡ opened }
    ensures last { result ≡ LastCommit → is_commit_line line.now ≡ true }
    ensures closed_gate { result ≡ LastCommit → gate_of_line line.now ≡ closed }
    ensures line { result ≢ End }
{
    if !is_commit(line) {
        return Read::Edit;
    }
    match line.last() {
        Some(&OPEN) => Read::Commit,
        Some(&CLOSED) => Read::LastCommit,
        _ => Read::Torn,
    }
}
