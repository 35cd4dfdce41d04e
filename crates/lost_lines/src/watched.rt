//! A reader or a writer that remembers how its calls went.
ghost use Rattle.std.specs.Prelude.{◌≡◌, ◌+◌, ◌-◌, ◌^◌, ◌||◌, ◌&&◌, true, false, min, length, is_err};
ghost use Rattle.std.specs.Io.{ReadsAtMost, WritesAtMost};
ghost use Rattle.std.specs.Io.KnownBytes.{Keeps, ReadConsumes, WriteAppends};
ghost use Rattle.lost_lines.specs.Watched.{inner_of, has_failed, has_ended, is_unflushed, reads_of, gives_none};

use std::io;
use std::io::{Read, Write};

/// A reader or a writer, with two flags that stay set, one that a flush clears, and a count of reads. Each call is
/// passed on. `failed` is set where a read, a write or a flush failed, an interrupted one too, or where a write that
/// was given a byte took none; `ended` is set where a read with room for a byte gave none; `unflushed` is set from a
/// write to the next flush that does not fail.
#[derive(Drop)]
pub struct Watched<T> {
    inner: T,
    failed: bool,
    ended: bool,
    unflushed: bool,
    reads: u64,
}

impl<T> Watched<T> {
    /// Watches `inner` from here on: no flag is set, and no read was made.
    pub fn new(inner: T) -> Watched<T>
        ensures inner { inner_of result ≡ inner }
        ensures failed { has_failed result ≡ false }
        ensures ended { has_ended result ≡ false }
        ensures unflushed { is_unflushed result ≡ false }
        ensures reads { reads_of result ≡ 0 }
    {
        Watched {
            inner,
            failed: false,
            ended: false,
            unflushed: false,
            reads: 0,
        }
    }

    /// Whether a read, a write or a flush failed, or a write that was given a byte took none.
    pub fn failed(&self) -> bool
        ensures { result ≡ has_failed self.now }
    {
        self.failed
    }

    /// Whether a read with room for a byte gave none.
    pub fn ended(&self) -> bool
        ensures { result ≡ has_ended self.now }
    {
        self.ended
    }

    /// Whether a write was made after the last flush that did not fail.
    pub fn unflushed(&self) -> bool
        ensures { result ≡ is_unflushed self.now }
    {
        self.unflushed
    }

    /// How many reads were made; at 2^64 - 1 the count stays.
    pub fn reads(&self) -> u64
        ensures { result ≡ reads_of self.now }
    {
        self.reads
    }

    /// The reader or writer.
    pub fn inner(&self) -> &T
        ensures { result.now ≡ inner_of self.now }
    {
        &self.inner
    }

    /// Gives back the reader or writer.
    pub fn into_inner(self) -> T
        ensures { result ≡ inner_of self }
    {
        let Watched {
            inner,
            failed: _,
            ended: _,
            unflushed: _,
            reads: _,
        } = self;
        inner
    }
}

impl<T: Read> Read for Watched<T> {
    ghost remaining = { λ w. T.remaining (inner_of w) };

    fn read(&mut self, buf: &mut [u8]) -> io::Result<usize>
        ensures bound { ReadsAtMost result buf.new }
        ensures bytes { ReadConsumes (T.remaining (inner_of self.old)) (T.remaining (inner_of self.new))
            result buf.new }
        ensures failed { has_failed self.new ≡ (has_failed self.old || is_err result) }
        ensures ended { has_ended self.new ≡ (has_ended self.old || gives_none result (length buf.old)) }
        ensures unflushed { is_unflushed self.new ≡ is_unflushed self.old }
        ensures reads { reads_of self.new ≡ min (reads_of self.old + 1) (2 ^ 64 - 1) }
    {
        let given = self.inner.read(buf);
        self.failed = self.failed || given.is_err();
        self.ended = self.ended || is_none(&given, buf.len());
        self.reads = self.reads.saturating_add(1);
        given
    }
}

impl<T: Write> Write for Watched<T> {
    ghost contents = { λ w. T.contents (inner_of w) };

    fn write(&mut self, buf: &[u8]) -> io::Result<usize>
        ensures bound { WritesAtMost result buf.now }
        ensures bytes { WriteAppends (T.contents (inner_of self.old)) (T.contents (inner_of self.new))
            result buf.now }
        ensures failed { has_failed self.new
            ≡ (has_failed self.old || (is_err result || gives_none result (length buf.now))) }
        ensures ended { has_ended self.new ≡ has_ended self.old }
        ensures unflushed { is_unflushed self.new ≡ true }
        ensures reads { reads_of self.new ≡ reads_of self.old }
    {
        let taken = self.inner.write(buf);
        self.failed = self.failed || taken.is_err() || is_none(&taken, buf.len());
        self.unflushed = true;
        taken
    }

    fn flush(&mut self) -> io::Result<()>
        ensures bytes { Keeps (T.contents (inner_of self.old)) (T.contents (inner_of self.new)) }
        ensures failed { has_failed self.new ≡ (has_failed self.old || is_err result) }
        ensures ended { has_ended self.new ≡ has_ended self.old }
        ensures unflushed { is_unflushed self.new ≡ (is_unflushed self.old && is_err result) }
        ensures reads { reads_of self.new ≡ reads_of self.old }
    {
        let flushed = self.inner.flush();
        self.failed = self.failed || flushed.is_err();
        self.unflushed = self.unflushed && flushed.is_err();
        flushed
    }
}

/// Whether a read or a write of up to `room` bytes succeeded and moved none, though `room` was not 0.
fn is_none(moved: &io::Result<usize>, room: usize) -> bool
    ensures { result ≡ gives_none moved.now room }
{
    match moved {
        Ok(count) => *count == 0 && room > 0,
        Err(_) => false,
    }
}
