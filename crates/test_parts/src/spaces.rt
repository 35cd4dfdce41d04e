//! A reader with no end.
use std::io;
use std::io::Read;

/// Gives spaces for ever.
#[derive(Drop)]
pub struct Spaces;

impl Read for Spaces {
    fn read(&mut self, buf: &mut [u8]) -> io::Result<usize> {
        buf.fill(b' ');
        Ok(buf.len())
    }
}
