//! The summary of a replay, by the replies that it writes.
ghost use Rattle.std.specs.Prelude.{◌≤◌};

use memchr::memchr_iter;
use std::io;
use std::io::Write;

/// How the reply to a refused line begins.
const REFUSED: &[u8] = b"{\"refused\":";

/// How the reply to a commit begins, up to the edition.
const COMMITTED: &[u8] = b"{\"committed\":{\"edition\":";

/// The most bytes of a reply that are looked at: as many as the reply to a commit may have.
const MOST_LOOKED_AT: usize = 64;

/// The summary of a replay at its end.
#[derive(Clone, Copy, PartialEq, Eq, Debug, Default)]
pub(crate) struct Summary {
    /// The number of refused lines.
    pub(crate) refused: u64,
    /// The number of published edits.
    pub(crate) edition: u64,
}

/// Sums up replies as their bytes are written.
#[derive(Drop)]
struct ReplySum {
    /// The first bytes of the reply that is being written.
    front: [u8; MOST_LOOKED_AT],
    /// How many of its bytes were written, up to as many as are looked at.
    count: usize,
    summary: Summary,
    ghost within: { count ≤ 64 },
}

impl ReplySum {
    /// Nothing was written yet.
    fn new() -> ReplySum {
        ReplySum {
            front: [0; MOST_LOOKED_AT],
            count: 0,
            summary: Summary::default(),
        }
    }

    /// Adds bytes that were written.
    fn add(&mut self, bytes: &[u8]) {
        let mut begin = 0;
        for end in memchr_iter(b'\n', bytes) {
            self.keep(bytes.get(begin..end).unwrap_or(&[]));
            self.end_reply();
            begin = end.saturating_add(1);
        }
        self.keep(bytes.get(begin..).unwrap_or(&[]));
    }

    /// Keeps bytes of a reply, as far as they are looked at.
    fn keep(&mut self, bytes: &[u8]) {
        for byte in bytes.iter() {
            let Some(slot) = self.front.get_mut(self.count) else {
                return;
            };
            *slot = *byte;
            self.count += 1;
        }
    }

    /// Adds a reply to the summary.
    fn end_reply(&mut self) {
        let front = &self.front[..self.count];
        if front.starts_with(REFUSED) {
            self.summary.refused = self.summary.refused.saturating_add(1);
        }
        if let Some(rest) = front.strip_prefix(COMMITTED) {
            self.summary.edition = number_at(rest);
        }
        self.count = 0;
    }
}

/// The number at the front of bytes.
fn number_at(bytes: &[u8]) -> u64 {
    let mut number = 0u64;
    for byte in bytes.iter() {
        if !byte.is_ascii_digit() {
            break;
        }
        number = number
            .saturating_mul(10)
            .saturating_add(u64::from(byte.saturating_sub(b'0')));
    }
    number
}

/// Passes replies on to an output, and sums them up. Contracts see the output.
#[derive(Drop)]
pub(crate) struct Summing<W> {
    inner: W,
    sum: ReplySum,
}

impl<W> Summing<W> {
    /// Nothing was written yet.
    pub(crate) fn new(inner: W) -> Summing<W> {
        Summing {
            inner,
            sum: ReplySum::new(),
        }
    }

    /// The summary of the replies that were written whole.
    pub(crate) fn summary(&self) -> Summary {
        self.sum.summary
    }
}

impl<W: Write> Write for Summing<W> {
    ghost contents = { λ s. W.contents s.inner };

    fn write(&mut self, buf: &[u8]) -> io::Result<usize> {
        let taken = self.inner.write(buf);
        if let Ok(count) = &taken {
            self.sum.add(&buf[..*count]);
        }
        taken
    }

    fn flush(&mut self) -> io::Result<()> {
        self.inner.flush()
    }
}
