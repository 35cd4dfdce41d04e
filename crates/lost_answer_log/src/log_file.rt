//! The file of a log.
use memchr::memrchr;
use std::alloc::Global;
use std::fs::{File, Files, OpenOptions};
use std::io::{self, Write};
use std::os::unix::fs::{FileExt, OpenOptionsExt};

/// How each line of a log begins that is for an answer, or that says what was left out.
const STARTS: [&[u8]; 2] = [b"{\"time\":\"", b"{\"leftOut\":"];

/// How many bytes are read at once of the end of a file.
const PIECE: usize = 65_536;

/// A file that lines are added to.
#[derive(Drop)]
pub struct LogFile {
    file: File,
}

/// What opens the file of a log, in whatever thread.
pub trait OpenLog {
    /// Opens the file at a path, or makes it: then only its owner may read and write it. A pipe opens without a reader.
    ///
    /// # Errors
    ///
    /// As the system says.
    fn open_log(&self, path: &str) -> io::Result<LogFile>;
}

impl OpenLog for HostRuntime {
    fn open_log(&self, path: &str) -> io::Result<LogFile> {
        open_log(self, path)
    }
}

/// Opens the file at a path, or makes it.
fn open_log<R: Files<File = File>>(rt: &R, path: &str) -> io::Result<LogFile> {
    let file = OpenOptions::new()
        .read(true)
        .append(true)
        .create(true)
        .mode(0o600)
        .open(rt, path)?;
    Ok(LogFile { file })
}

impl LogFile {
    /// Adds whole lines. If they cannot all be written, none is left in a regular file.
    pub(crate) fn add(&mut self, lines: &[u8]) -> io::Result<()> {
        let before = self.file.metadata()?;
        let written = self.file.write_all(lines);
        if written.is_err() && before.is_file() {
            // Where that fails too, a part of a line stays.
            let _cut = self.file.set_len(before.len());
        }
        written
    }

    /// Sees to it that what is added begins a line. A line of a log that was not ended, as a server leaves it that is
    /// killed while it writes, is cut off a regular file; anything else that was not ended gets its byte 10. Gives how
    /// many bytes were cut off.
    pub(crate) fn begin_line(&mut self, alloc: Global) -> io::Result<u64> {
        let found = self.file.metadata()?;
        if !found.is_file() {
            return Ok(0);
        }
        let end = self.end_of_lines(alloc, found.len())?;
        if end == found.len() {
            return Ok(0);
        }
        if self.is_torn(end, found.len())? {
            self.file.set_len(end)?;
            return Ok(found.len().saturating_sub(end));
        }
        self.add(b"\n")?;
        Ok(0)
    }

    /// Where in a file of this length the last line that has its byte 10 ends.
    fn end_of_lines(&self, alloc: Global, len: u64) -> io::Result<u64> {
        let mut piece: Vec<u8> = Vec::new(alloc);
        piece.resize(PIECE, 0)?;
        let mut end = len;
        for _piece in 0..len {
            let start = end.saturating_sub(PIECE as u64);
            let Some(bytes) = piece.as_mut_slice().get_mut(..(end - start) as usize) else {
                break;
            };
            if bytes.is_empty() {
                break;
            }
            self.file.read_exact_at(bytes, start)?;
            if let Some(place) = memrchr(b'\n', bytes) {
                return Ok(start.saturating_add(place as u64).saturating_add(1));
            }
            end = start;
        }
        Ok(0)
    }

    /// Whether what stands between these places begins as a line of a log does.
    fn is_torn(&self, from: u64, to: u64) -> io::Result<bool> {
        let mut start = [0u8; 12];
        let count = to.saturating_sub(from).min(start.len() as u64) as usize;
        let Some(begun) = start.get_mut(..count) else {
            return Ok(false);
        };
        self.file.read_exact_at(begun, from)?;
        Ok(STARTS.iter().any(|line| begins_as(begun, line)))
    }
}

/// Whether two texts agree as far as both go.
fn begins_as(begun: &[u8], line: &[u8]) -> bool {
    begun.starts_with(line) || line.starts_with(begun)
}
