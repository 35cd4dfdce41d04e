//! Reads the lines of a file on a disk.
ghost use Rattle.std.specs.Prelude.{◌≡◌, ◌≢◌, ◌+◌, ◌-◌, ◌≤◌, ◌<◌, ◌++◌, ◌∷◌, [], List, ℕ, length, All, IsTrue, IfOk, OnOk, OnErr, true, false};
ghost use Rattle.lost_lines.specs.Cutting.{newline};
ghost use Rattle.sqlite_disk.specs.Disk.{Only, Holds};
ghost use Rattle.lost_journal.specs.Reading.{IsBuffered};

use crate::faults::ReadFault;
use memchr::memchr;
use sqlite_disk::Disk;
use std::alloc::{AllocError, Global};

/// The fewest bytes of a read, but for the last one. The reads of a long line double what is held of it.
const PIECE: usize = 32_768;

/// The most bytes that are held of a line when more of it is read.
const MOST: usize = 4_194_304;

/// The lines of a file, one after another.
#[derive(Drop)]
pub(crate) struct FileLines<D: Disk> {
    alloc: Global,
    disk: D,
    /// The file's length.
    len: usize,
    /// Where in the file the buffer begins.
    start: usize,
    buffer: Vec<u8>,
    /// Where in the buffer the last line begins, where it ends, and where the next one begins.
    from: usize,
    to: usize,
    next: usize,
    ghost usable: { IsTrue (D.Disk.is_usable disk) },
    ghost line: { from ≤ to },
    ghost ends: { to ≤ next },
    ghost inside: { next ≤ length buffer.items },
    ghost within: { start + length buffer.items ≤ len },
    ghost buffered: { IsTrue (D.Disk.is_clean disk) → IsBuffered (D.Disk.seen disk) (D.Disk.may_leave disk) len start buffer.items },
}

impl<D: Disk + Drop> FileLines<D> {
    ghost use Rattle.lost_journal.specs.Lines.{is_clean_lines, IsCleanLines, bytes_read, read_so_far, line_read, place_of, buffered_to, len_of, disk_read};

    /// Begins to read a file of which a crash leaves just what is read.
    pub(crate) fn begin(alloc: Global, mut disk: D) -> Result<FileLines<D>, ReadFault>
        requires usable { IsTrue (D.Disk.is_usable disk) }
        requires settled { Only (D.Disk.seen disk) (D.Disk.may_leave disk) }
        ensures nothing { IfOk result (λ lines. read_so_far lines ≡ []) }
        ensures clean { IfOk result (λ lines. IsCleanLines lines → IsTrue (D.Disk.is_clean disk)) }
        ensures seen { IfOk result (λ lines. bytes_read lines ≡ D.Disk.seen disk) }
    {
        let len = match disk.len() {
            Ok(len) => len,
            Err(error) => return Err(ReadFault::Disk(error)),
        };
        Ok(FileLines {
            alloc,
            disk,
            len,
            start: 0,
            buffer: Vec::new(alloc),
            from: 0,
            to: 0,
            next: 0,
        })
    }

    /// Ends the reading, and gives the disk and the file's length.
    pub(crate) fn end(self) -> (D, usize)
        ensures disk { result.0 ≡ disk_read self }
        ensures length { result.1 ≡ len_of self }
        ensures usable { IsTrue (D.Disk.is_usable result.0) }
        ensures settled { IsCleanLines self → Only (bytes_read self) (D.Disk.may_leave result.0) }
        ensures whole { IsCleanLines self → len_of self ≡ length (bytes_read self) }
    {
        (self.disk, self.len)
    }

    /// The file's length.
    pub(crate) fn len(&self) -> usize
        ensures { result ≡ len_of self.now }
    {
        self.len
    }

    /// Where what was read ends.
    pub(crate) fn place(&self) -> usize
        ensures { result ≡ place_of self.now }
    {
        self.start + self.next
    }

    /// The line that was read last, without its byte 10.
    pub(crate) fn line(&self) -> &[u8]
        ensures { result.now ≡ line_read self.now }
    {
        &self.buffer[self.from..self.to]
    }

    /// Reads a line, and says whether there is one. What stands behind the last byte 10 is none.
    pub(crate) fn read_line(&mut self) -> Result<bool, ReadFault>
        ensures clean { IsCleanLines self.new → IsCleanLines self.old }
        ensures seen { bytes_read self.new ≡ bytes_read self.old }
        ensures unbroken { IfOk result (λ found. IsTrue found → All (λ b. b ≢ newline) (line_read self.new)) }
        ensures line { IfOk result (λ found. IsTrue found → IsCleanLines self.new
            → read_so_far self.new ≡ read_so_far self.old ++ (line_read self.new ++ newline ∷ [])) }
        ensures none { IfOk result (λ found. found ≡ false → IsCleanLines self.new → read_so_far self.new ≡ read_so_far self.old) }
    {
        while !self.find() {
            if !self.fill()? {
                return Ok(false);
            }
        }
        Ok(true)
    }

    /// Goes to the next line that is whole in the buffer, and says whether there is one.
    fn find(&mut self) -> bool
        ensures clean { is_clean_lines self.new ≡ is_clean_lines self.old }
        ensures seen { bytes_read self.new ≡ bytes_read self.old }
        ensures end { buffered_to self.new ≡ buffered_to self.old }
        ensures unbroken { IsTrue result → All (λ b. b ≢ newline) (line_read self.new) }
        ensures line { IsTrue result → IsCleanLines self.old → read_so_far self.new ≡ read_so_far self.old ++ (line_read self.new ++ newline ∷ []) }
        ensures none { result ≡ false → self.new ≡ self.old }
    {
        match memchr(b'\n', &self.buffer[self.next..]) {
            Some(count) => {
                self.from = self.next;
                self.to = self.next + count;
                self.next = self.to + 1;
                true
            }
            None => false,
        }
    }

    /// Reads a piece more of the file, and says whether there was one.
    fn fill(&mut self) -> Result<bool, ReadFault>
        ensures clean { IsCleanLines self.new → IsCleanLines self.old }
        ensures seen { bytes_read self.new ≡ bytes_read self.old }
        ensures more { IfOk result (λ found. IsTrue found → buffered_to self.old < buffered_to self.new) }
        ensures most { buffered_to self.new ≤ len_of self.new }
        ensures len { len_of self.new ≡ len_of self.old }
        ensures read { OnOk result (IsCleanLines self.new → read_so_far self.new ≡ read_so_far self.old) }
    {
        let at = self.start + self.buffer.len();
        if at >= self.len {
            return Ok(false);
        }
        let begun = self.buffer.len() - self.next;
        if begun > MOST {
            return Err(ReadFault::Line);
        }
        let count = PIECE.max(begun).min(self.len - at);
        let piece = read_piece(self.alloc, &mut self.disk, at, count)?;
        let Ok(buffer) = joined(self.alloc, &self.buffer[self.next..], &piece) else {
            return Err(ReadFault::Memory);
        };
        self.start += self.next;
        self.buffer = buffer;
        self.from = 0;
        self.to = 0;
        self.next = 0;
        Ok(true)
    }
}

/// Reads bytes of a file from an offset on, one at least.
fn read_piece<D: Disk>(
    alloc: Global,
    disk: &mut D,
    at: usize,
    count: usize,
) -> Result<Vec<u8>, ReadFault>
    requires usable { IsTrue (D.Disk.is_usable disk.old) }
    requires some { 0 < count }
    ensures usable { IsTrue (D.Disk.is_usable disk.new) }
    ensures seen { D.Disk.seen disk.new ≡ D.Disk.seen disk.old }
    ensures clean { IsTrue (D.Disk.is_clean disk.new) → IsTrue (D.Disk.is_clean disk.old) }
    ensures crash { (c : List ℕ) → D.Disk.may_leave disk.new c → D.Disk.may_leave disk.old c }
    ensures length { IfOk result (λ piece. length piece.items ≡ count) }
    ensures holds { IfOk result (λ piece. IsTrue (D.Disk.is_clean disk.new) → Holds (D.Disk.seen disk.old) at piece.items) }
{
    let mut piece = Vec::new(alloc);
    if piece.resize(count, 0).is_err() {
        return Err(ReadFault::Memory);
    }
    match disk.read_at(at, &mut piece) {
        Ok(()) => Ok(piece),
        Err(error) => Err(ReadFault::Disk(error)),
    }
}

/// Two texts, one behind the other.
fn joined(alloc: Global, front: &[u8], back: &[u8]) -> Result<Vec<u8>, AllocError>
    ensures { IfOk result (λ text. text.items ≡ front.now ++ back.now) }
{
    let mut text = Vec::new(alloc);
    text.extend_from_slice(front)?;
    text.extend_from_slice(back)?;
    Ok(text)
}
