//! A writer that keeps its bytes.
use crate::NEVER;
use std::alloc::{AllocError, Global};
use std::io;
use std::io::Write;

/// Keeps what is written, at most so many bytes at once. One of its writes fails or takes no byte, or one of its
/// flushes fails.
#[derive(Drop)]
pub struct Sink {
    /// The bytes written.
    pub text: Vec<u8>,
    /// The most bytes of one write.
    pub most: usize,
    /// The number of the write that fails, from 1.
    pub failing_write: u64,
    /// Whether that write takes no byte, instead of failing.
    pub takes_none: bool,
    /// The number of the flush that fails, from 1.
    pub failing_flush: u64,
    /// How many writes were made.
    pub writes: u64,
    /// How many flushes were made.
    pub flushes: u64,
}

impl Sink {
    /// A writer that takes at most so many bytes at once, with no fault.
    pub fn new(alloc: Global, most: usize) -> Result<Sink, AllocError> {
        Ok(Sink {
            text: Vec::with_capacity(alloc, 4096)?,
            most,
            failing_write: NEVER,
            takes_none: false,
            failing_flush: NEVER,
            writes: 0,
            flushes: 0,
        })
    }
}

impl Write for Sink {
    fn write(&mut self, buf: &[u8]) -> io::Result<usize> {
        self.writes = self.writes.saturating_add(1);
        if self.writes == self.failing_write {
            if self.takes_none {
                return Ok(0);
            }
            return Err(io::Error::from(io::ErrorKind::BrokenPipe));
        }
        let count = buf.len().min(self.most);
        self.text.extend_from_slice(&buf[..count])?;
        Ok(count)
    }

    fn flush(&mut self) -> io::Result<()> {
        self.flushes = self.flushes.saturating_add(1);
        if self.flushes == self.failing_flush {
            return Err(io::Error::from(io::ErrorKind::BrokenPipe));
        }
        Ok(())
    }
}
