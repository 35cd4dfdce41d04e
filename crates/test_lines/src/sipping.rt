//! The ends of a connection in memory that never block.
use std::alloc::Global;
use std::io;
use std::io::{ErrorKind, Read, Write};

/// Gives the bytes up to a place, then would block once, and then gives the others.
#[derive(Drop)]
pub(crate) struct Piecewise<'a> {
    text: &'a [u8],
    first: usize,
    has_waited: bool,
}

impl Piecewise<'_> {
    /// A text that comes in two pieces.
    pub(crate) fn of(text: &[u8], place: usize) -> Piecewise<'_> {
        Piecewise {
            text,
            first: place,
            has_waited: false,
        }
    }
}

impl Read for Piecewise<'_> {
    fn read(&mut self, buf: &mut [u8]) -> io::Result<usize> {
        if self.first == 0 && !self.has_waited {
            self.has_waited = true;
            return Err(io::Error::from(ErrorKind::WouldBlock));
        }
        let most = if self.has_waited {
            usize::MAX
        } else {
            self.first
        };
        let count = self.text.len().min(buf.len()).min(most);
        let (now, later) = self.text.split_at(count);
        buf[..count].copy_from_slice(now);
        self.text = later;
        self.first = self.first.saturating_sub(count);
        Ok(count)
    }
}

/// Takes so many bytes at a time, and would block at each second write.
#[derive(Drop)]
pub(crate) struct Sipping {
    /// The bytes that it has taken.
    pub(crate) text: Vec<u8>,
    most: usize,
    is_full: bool,
}

impl Sipping {
    /// A writer that has taken nothing.
    pub(crate) fn new(alloc: Global, most: usize) -> Sipping {
        Sipping {
            text: Vec::new(alloc),
            most,
            is_full: false,
        }
    }
}

impl Write for Sipping {
    fn write(&mut self, buf: &[u8]) -> io::Result<usize> {
        self.is_full = !self.is_full;
        if !self.is_full {
            return Err(io::Error::from(ErrorKind::WouldBlock));
        }
        let count = buf.len().min(self.most);
        self.text.extend_from_slice(&buf[..count])?;
        Ok(count)
    }

    fn flush(&mut self) -> io::Result<()> {
        Ok(())
    }
}
