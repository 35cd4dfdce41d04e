//! A reader or a writer with a time limit for the whole connection.
ghost use Rattle.std.specs.Prelude.{◌≡◌, ◌↔◌, IsErr, IsTrue, IfErr};
ghost use Rattle.std.specs.Io.{ReadsAtMost, WritesAtMost};
ghost use Rattle.std.specs.Io.KnownBytes.{Keeps, ReadConsumes, WriteAppends};
ghost use Rattle.std.specs.IoError.{error_kind};
ghost use Rattle.lost_status.specs.Deadline.{IsCutOff, has_passed as has_passed_of, inner_of, is_over};

use std::io;
use std::io::{ErrorKind, Read, Write};
use std::time::{Clock, Duration};

/// A reader or a writer whose calls fail with [`ErrorKind::TimedOut`] once `limit` has passed since it was made, also
/// if the peer sends a byte now and then. Before that each call is passed on. A call that has begun is not cut off: the
/// inner stream needs a limit of its own for each call. If the clock cannot be read, each call fails.
#[derive(Drop)]
pub struct Deadline<'r, T, R: Clock> {
    rt: &'r R,
    inner: T,
    /// What the clock said at first; `None` if it could not be read.
    started: Option<Duration>,
    /// What the clock said last.
    now: Option<Duration>,
    limit: Duration,
}

impl<'r, T, R: Clock> Deadline<'r, T, R> {
    /// Fails the calls of `inner` once `limit` has passed from now on.
    pub fn new(rt: &'r R, inner: T, limit: Duration) -> Deadline<'r, T, R>
        ensures { inner_of result ≡ inner }
    {
        let started = rt.monotonic().ok();
        Deadline {
            rt,
            inner,
            started,
            now: started,
            limit,
        }
    }

    /// Reads the clock. [`ErrorKind::TimedOut`] exactly if the time is over by then.
    fn check(&mut self) -> io::Result<()>
        ensures over { IsErr result ↔ IsTrue (is_over self.new) }
        ensures kind { IfErr result (λ error. error_kind error ≡ ErrorKind.TimedOut) }
        ensures inner { inner_of self.new ≡ inner_of self.old }
    {
        self.now = self.rt.monotonic().ok();
        if has_passed(self.started, self.now, self.limit) {
            return Err(io::Error::from(ErrorKind::TimedOut));
        }
        Ok(())
    }
}

/// Whether `limit` or more has passed between two readings of a clock, or one of them failed.
fn has_passed(started: Option<Duration>, now: Option<Duration>, limit: Duration) -> bool
    ensures { result ≡ has_passed_of started now limit }
{
    match (started, now) {
        (Some(started), Some(now)) => now.saturating_sub(started).as_nanos() >= limit.as_nanos(),
        _ => true,
    }
}

impl<T: Read, R: Clock> Read for Deadline<'_, T, R> {
    ghost remaining = { λ d. T.remaining (inner_of d) };

    fn read(&mut self, buf: &mut [u8]) -> io::Result<usize>
        ensures bound { ReadsAtMost result buf.new }
        ensures bytes { ReadConsumes (T.remaining (inner_of self.old)) (T.remaining (inner_of self.new))
            result buf.new }
        ensures over { IsTrue (is_over self.new) → IsCutOff (inner_of self.old) (inner_of self.new) result }
    {
        self.check()?;
        self.inner.read(buf)
    }
}

impl<T: Write, R: Clock> Write for Deadline<'_, T, R> {
    ghost contents = { λ d. T.contents (inner_of d) };

    fn write(&mut self, buf: &[u8]) -> io::Result<usize>
        ensures bound { WritesAtMost result buf.now }
        ensures bytes { WriteAppends (T.contents (inner_of self.old)) (T.contents (inner_of self.new))
            result buf.now }
        ensures over { IsTrue (is_over self.new) → IsCutOff (inner_of self.old) (inner_of self.new) result }
    {
        self.check()?;
        self.inner.write(buf)
    }

    fn flush(&mut self) -> io::Result<()>
        ensures bytes { Keeps (T.contents (inner_of self.old)) (T.contents (inner_of self.new)) }
        ensures over { IsTrue (is_over self.new) → IsCutOff (inner_of self.old) (inner_of self.new) result }
    {
        self.check()?;
        self.inner.flush()
    }
}
