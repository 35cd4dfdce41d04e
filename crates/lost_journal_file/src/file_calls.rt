//! The calls on a journal's file. Each method makes one call of the system, and then tells it with its answer.
ghost use Rattle.std.specs.Prelude.{◌≡◌, ◌<◌, ◌≤◌, ◌^◌, [], ◌∷◌, length, IfOk};
ghost use Rattle.sqlite_disk.specs.Events.{settled};
ghost use Rattle.sqlite_disk.specs.Refusal.{is_no_room as says_no_room, as_number};

use crate::asked::Asked;
use sqlite_disk::{Calls, is_no_room};
use std::fs::File;
use std::io::{self, ErrorKind};
use std::os::fd::AsRawFd;
use std::os::unix::fs::FileExt;

/// The key for digests. No journal takes one, so it need not be secret.
pub(crate) const KEY: u64 = 0;

/// The kinds of calls, as `sqlite_disk` counts them.
const SETTLED: u64 = 0;

const MEASURED: u64 = 1;

const READ: u64 = 2;

const WRITTEN: u64 = 3;

const CUT: u64 = 4;

const FLUSHED: u64 = 5;

const READ_UNDER: u64 = 6;

/// The first offset that the system has not.
const NO_OFFSET: usize = 1 << 63;

/// A journal's file, open and locked, and what it was asked.
#[derive(Drop)]
pub struct FileCalls {
    file: File,
    asked: Asked,
}

impl FileCalls {
    /// Flushes the file and its folder, and has the system forget the pages that it keeps of the file. After a flush
    /// that failed in another process those may differ from the disk.
    pub(crate) fn settle(file: File, folder: &File) -> io::Result<FileCalls>
        ensures { IfOk result (λ calls. calls.asked.events ≡ settled 0 ∷ []) }
    {
        file.sync_all()?;
        let refusal = libc::posix_fadvise(file.as_raw_fd(), 0, 0, libc::POSIX_FADV_DONTNEED);
        if refusal != 0 {
            return Err(io::Error::from_raw_os_error(refusal));
        }
        folder.sync_all()?;
        let mut asked = Asked::none();
        asked.tell(&[SETTLED, KEY, 0, 1], &[]);
        Ok(FileCalls { file, asked })
    }
}

/// The offset as the system takes it.
fn offset(at: usize) -> io::Result<u64>
    ensures { IfOk result (λ offset. (offset ≡ at) × (at < 2 ^ 63)) }
{
    if at < NO_OFFSET {
        Ok(at as u64)
    } else {
        Err(ErrorKind::InvalidInput.into())
    }
}

/// A count that is not 0.
fn some(count: usize, none: ErrorKind) -> io::Result<usize>
    ensures { IfOk result (λ n. (n ≡ count) × (0 < n)) }
{
    if count == 0 {
        Err(none.into())
    } else {
        Ok(count)
    }
}

/// 1 if an error says that the disk is full, else 0.
fn no_room(error: &io::Error) -> u64
    ensures { result ≡ as_number (says_no_room error.now) }
{
    u64::from(is_no_room(error))
}

fn length_of(file: &File) -> io::Result<usize> {
    Ok(file.metadata()?.len() as usize)
}

fn read(file: &File, at: usize, buf: &mut [u8]) -> io::Result<usize>
    ensures { IfOk result (λ n. (0 < n) × (n ≤ length buf.old) × (at < 2 ^ 63)) }
{
    let offset = offset(at)?;
    let got = file.read_at(buf, offset)?;
    some(got, ErrorKind::UnexpectedEof)
}

fn write(file: &File, at: usize, bytes: &[u8]) -> io::Result<usize>
    ensures { IfOk result (λ n. (0 < n) × (n ≤ length bytes.now) × (at < 2 ^ 63)) }
{
    let offset = offset(at)?;
    let put = file.write_at(bytes, offset)?;
    some(put, ErrorKind::WriteZero)
}

impl Calls for FileCalls {
    ghost history = { λ f. f.asked.events };

    fn len(&mut self) -> io::Result<usize> {
        let answer = length_of(&self.file);
        match answer {
            Ok(len) => self.asked.tell(&[MEASURED, len as u64, 0, 1], &[]),
            Err(_) => self.asked.tell(&[MEASURED, 0, 0, 0], &[]),
        }
        answer
    }

    fn read_some(&mut self, at: usize, buf: &mut [u8]) -> io::Result<usize> {
        let (place, wanted) = (at as u64, buf.len() as u64);
        let answer = read(&self.file, at, buf);
        match answer {
            Ok(n) => self.asked.tell(&[READ, place, wanted, 1], &buf[..n]),
            Err(_) => self.asked.tell(&[READ, place, wanted, 0], &[]),
        }
        answer
    }

    fn read_under(&mut self, key: u64, want: u64, at: usize, buf: &mut [u8]) -> io::Result<usize> {
        let (place, wanted) = (at as u64, buf.len() as u64);
        let answer = read(&self.file, at, buf);
        match answer {
            Ok(n) => {
                let numbers = [READ_UNDER, place, wanted, 1, key, want];
                self.asked.tell(&numbers, &buf[..n]);
            }
            Err(_) => {
                let numbers = [READ_UNDER, place, wanted, 0, key, want];
                self.asked.tell(&numbers, &[]);
            }
        }
        answer
    }

    fn write_some(&mut self, at: usize, bytes: &[u8]) -> io::Result<usize> {
        let place = at as u64;
        let answer = write(&self.file, at, bytes);
        match answer {
            Ok(n) => self.asked.tell(&[WRITTEN, place, n as u64, 1], bytes),
            Err(error) => self
                .asked
                .tell(&[WRITTEN, place, no_room(&error), 0], bytes),
        }
        answer
    }

    fn resize(&mut self, len: usize) -> io::Result<()> {
        let end = len as u64;
        let answer = self.file.set_len(end);
        match answer {
            Ok(()) => self.asked.tell(&[CUT, end, 0, 1], &[]),
            Err(error) => self.asked.tell(&[CUT, end, no_room(&error), 0], &[]),
        }
        answer
    }

    fn sync(&mut self) -> io::Result<()> {
        let answer = self.file.sync_data();
        match answer {
            Ok(()) => self.asked.tell(&[FLUSHED, 0, 0, 1], &[]),
            Err(error) => self.asked.tell(&[FLUSHED, 0, no_room(&error), 0], &[]),
        }
        answer
    }
}
