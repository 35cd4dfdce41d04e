//! Whether a journal grows while it is read.
use std::fs::{self, File, Files};

/// How long a journal was at some time.
#[derive(Clone, Copy, Debug)]
pub struct JournalLength<'p> {
    path: &'p str,
    length: u64,
}

impl<'p> JournalLength<'p> {
    /// The length of the file at a path now.
    pub fn of<R: Files<File = File>>(rt: &R, path: &'p str) -> JournalLength<'p> {
        JournalLength {
            path,
            length: length_at(rt, path),
        }
    }

    /// Whether the file has grown since, as where a server goes on to write it.
    pub fn has_grown<R: Files<File = File>>(&self, rt: &R) -> bool {
        length_at(rt, self.path) > self.length
    }
}

/// The length of the file at a path; 0 where it cannot be learned.
fn length_at<R: Files<File = File>>(rt: &R, path: &str) -> u64 {
    match fs::metadata(rt, path) {
        Ok(found) => found.len(),
        Err(_) => 0,
    }
}
