//! What is counted of the log of answers.
use std::sync::atomic::{AtomicU64, Ordering};

/// How many lines the log of answers got, and how many were left out. Any thread may add, and any may read.
#[derive(Drop)]
pub struct LogCounts {
    written: AtomicU64,
    left_out: AtomicU64,
}

/// The counts at one moment.
#[derive(Clone, Copy)]
pub(crate) struct LogFigures {
    /// How many lines were written.
    pub(crate) written: u64,
    /// How many lines were left out.
    pub(crate) left_out: u64,
}

impl LogCounts {
    /// Nothing is counted.
    pub(crate) fn new() -> LogCounts {
        LogCounts {
            written: AtomicU64::new(0),
            left_out: AtomicU64::new(0),
        }
    }

    /// Counts lines that were written. No contract can say what an atomic holds: the rows of `status.rows` compare what
    /// is shown.
    pub fn add_written(&self, lines: u64) {
        self.written.fetch_add(lines, Ordering::SeqCst);
    }

    /// Counts lines that were left out.
    pub fn add_left_out(&self, lines: u64) {
        self.left_out.fetch_add(lines, Ordering::SeqCst);
    }

    /// The counts now.
    pub(crate) fn load(&self) -> LogFigures {
        LogFigures {
            written: self.written.load(Ordering::SeqCst),
            left_out: self.left_out.load(Ordering::SeqCst),
        }
    }
}
