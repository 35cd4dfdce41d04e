//! A gate at which a line waits for another one.
use lost_lines::Gate;
use std::sync::atomic::{AtomicU64, Ordering};
use std::thread::sleep;
use std::time::{Clock, Duration};

/// How often a wait looks whether a line was answered.
const TURNS: u64 = 10_000;

/// The gate of several connections: it holds the first line until another one was answered, for at most 10,000 short
/// sleeps, and refuses it where none is in time.
#[derive(Drop)]
pub struct Meeting<'r, R: Clock> {
    rt: &'r R,
    asked: AtomicU64,
    answered: AtomicU64,
}

impl<'r, R: Clock> Meeting<'r, R> {
    /// No line has come yet.
    pub fn new(rt: &'r R) -> Meeting<'r, R> {
        Meeting {
            rt,
            asked: AtomicU64::new(0),
            answered: AtomicU64::new(0),
        }
    }
}

impl<R: Clock> Gate for Meeting<'_, R> {
    ghost says = { λ _ _ _. Unit {0} };

    const IS_OPEN: bool = false;

    fn before_reply(&self, _line: u64) -> bool {
        if self.asked.fetch_add(1, Ordering::SeqCst) > 0 {
            return true;
        }
        for _ in 0..TURNS {
            if self.answered.load(Ordering::SeqCst) > 0 {
                return true;
            }
            sleep(self.rt, Duration::from_micros(100));
        }
        false
    }

    fn after_reply(&self, _line: u64) {
        self.answered.fetch_add(1, Ordering::SeqCst);
    }
}
