//! A clock that stands still until it is set.
use std::io;
use std::sync::atomic::{AtomicU64, Ordering};
use std::time::{Clock, Duration};

/// The first second of 2026, in seconds since 1970.
pub(crate) const STARTED: u64 = 1_767_225_600;

/// A clock that begins at the first second of 2026.
#[derive(Drop)]
pub(crate) struct Watch {
    seconds: AtomicU64,
}

impl Watch {
    /// A clock at the first second of 2026.
    pub(crate) fn new() -> Watch {
        Watch {
            seconds: AtomicU64::new(STARTED),
        }
    }

    /// Lets so many seconds pass.
    pub(crate) fn pass(&self, seconds: u64) {
        self.seconds.fetch_add(seconds, Ordering::SeqCst);
    }
}

impl Clock for Watch {
    fn monotonic(&self) -> io::Result<Duration> {
        self.since_1970()
    }

    fn since_1970(&self) -> io::Result<Duration> {
        Ok(Duration::from_secs(self.seconds.load(Ordering::SeqCst)))
    }
}
