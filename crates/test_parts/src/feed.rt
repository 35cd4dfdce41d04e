//! A reader of a text.
use crate::NEVER;
use std::io;
use std::io::{BufRead, Read};

/// Gives the bytes of a text, at most so many at once, and fails at one of its reads.
#[derive(Drop)]
pub struct Feed<'a> {
    /// The bytes left to give.
    pub text: &'a [u8],
    /// The most bytes of one read.
    pub most: usize,
    /// The number of the read that fails, from 1.
    pub failing: u64,
    /// How it fails.
    pub kind: io::ErrorKind,
    /// How many reads were made.
    pub reads: u64,
}

impl Feed<'_> {
    /// A whole text, at most so many bytes at once, with no fault.
    pub fn of(text: &[u8], most: usize) -> Feed<'_> {
        Feed {
            text,
            most,
            failing: NEVER,
            kind: io::ErrorKind::ConnectionReset,
            reads: 0,
        }
    }
}

impl Read for Feed<'_> {
    fn read(&mut self, buf: &mut [u8]) -> io::Result<usize> {
        self.reads = self.reads.saturating_add(1);
        if self.reads == self.failing {
            return Err(io::Error::from(self.kind));
        }
        let count = self.text.len().min(buf.len()).min(self.most);
        let (now, later) = self.text.split_at(count);
        buf[..count].copy_from_slice(now);
        self.text = later;
        Ok(count)
    }
}

impl BufRead for Feed<'_> {
    fn fill_buf(&mut self) -> io::Result<&[u8]> {
        Ok(self.text)
    }

    fn consume(&mut self, amount: usize) {
        self.text = &self.text[amount.min(self.text.len())..];
    }
}
