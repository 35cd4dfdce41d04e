//! A reader or a writer that remembers whether a call failed.
ghost use Rattle.std.specs.Prelude.{◌≡◌, false, length};
ghost use Rattle.std.specs.Io.{ReadsAtMost, WritesAtMost};
ghost use Rattle.std.specs.Io.KnownBytes.{Keeps, ReadConsumes, WriteAppends};
ghost use Rattle.lost_connections.specs.Noted.{inner_of, has_failed, IsReadFault, IsWriteFault, NotesFault, WouldWait};

use std::io;
use std::io::{ErrorKind, Read, Write};

/// One end of a connection, with a flag that stays set once a read or a write failed, or a write that was given a byte
/// took none. A call that would wait did not fail.
#[derive(Drop)]
pub(crate) struct Noted<T> {
    inner: T,
    has_failed: bool,
}

impl<T> Noted<T> {
    /// An end at which nothing failed yet.
    pub(crate) fn new(inner: T) -> Noted<T>
        ensures inner { inner_of result ≡ inner }
        ensures sound { has_failed result ≡ false }
    {
        Noted {
            inner,
            has_failed: false,
        }
    }

    /// Whether a call failed.
    pub(crate) fn has_failed(&self) -> bool
        ensures { result ≡ has_failed self.now }
    {
        self.has_failed
    }

    /// The reader or writer.
    pub(crate) fn inner(&self) -> &T
        ensures { result.now ≡ inner_of self.now }
    {
        &self.inner
    }

    /// The reader or writer, to be changed.
    pub(crate) fn inner_mut(&mut self) -> &mut T {
        &mut self.inner
    }
}

impl<T: Read> Read for Noted<T> {
    ghost remaining = { λ n. T.remaining (inner_of n) };

    fn read(&mut self, buf: &mut [u8]) -> io::Result<usize>
        ensures bound { ReadsAtMost result buf.new }
        ensures bytes { ReadConsumes (T.remaining (inner_of self.old)) (T.remaining (inner_of self.new))
            result buf.new }
        ensures noted { NotesFault (IsReadFault result) self.old self.new }
    {
        let given = self.inner.read(buf);
        if let Err(error) = &given
            && !would_wait(error)
        {
            self.has_failed = true;
        }
        given
    }
}

impl<T: Write> Write for Noted<T> {
    ghost contents = { λ n. T.contents (inner_of n) };

    fn write(&mut self, buf: &[u8]) -> io::Result<usize>
        ensures bound { WritesAtMost result buf.now }
        ensures bytes { WriteAppends (T.contents (inner_of self.old)) (T.contents (inner_of self.new))
            result buf.now }
        ensures noted { NotesFault (IsWriteFault result (length buf.now)) self.old self.new }
    {
        let taken = self.inner.write(buf);
        let has_failed = match &taken {
            Ok(count) => *count == 0 && !buf.is_empty(),
            Err(error) => !would_wait(error),
        };
        self.has_failed = self.has_failed || has_failed;
        taken
    }

    fn flush(&mut self) -> io::Result<()>
        ensures bytes { Keeps (T.contents (inner_of self.old)) (T.contents (inner_of self.new)) }
        ensures noted { NotesFault (IsReadFault result) self.old self.new }
    {
        let flushed = self.inner.flush();
        if let Err(error) = &flushed
            && !would_wait(error)
        {
            self.has_failed = true;
        }
        flushed
    }
}

/// Whether a call did not fail, but would wait.
fn would_wait(error: &io::Error) -> bool
    ensures { WouldWait error.now result }
{
    matches!(error.kind(), ErrorKind::WouldBlock)
}
