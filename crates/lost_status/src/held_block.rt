//! What the desk holds, where any thread may read it whole.
use crate::desk_event::DeskFigures;
use std::sync::atomic::{AtomicU64, Ordering};

/// How many values half of a digest has: 2^64.
const HALF: u128 = 18_446_744_073_709_551_616;

/// What the desk holds. One thread writes it, any may read it, and nobody waits for a lock: a reader that comes while it is
/// written looks again, so that edition, numbers and digest are of one moment.
#[derive(Drop)]
pub(crate) struct HeldBlock {
    /// Odd while the others are written.
    version: AtomicU64,
    edition: AtomicU64,
    mappings: AtomicU64,
    pending: AtomicU64,
    /// The first and the second half of the digest.
    digest: [AtomicU64; 2],
}

/// What the desk holds at one moment.
#[derive(Clone, Copy)]
pub(crate) struct Held {
    pub(crate) edition: u64,
    pub(crate) mappings: u64,
    pub(crate) pending: u64,
    pub(crate) digest: u128,
}

impl HeldBlock {
    /// Nothing is held.
    pub(crate) fn new() -> HeldBlock {
        HeldBlock {
            version: AtomicU64::new(0),
            edition: AtomicU64::new(0),
            mappings: AtomicU64::new(0),
            pending: AtomicU64::new(0),
            digest: [AtomicU64::new(0), AtomicU64::new(0)],
        }
    }

    /// Stores what is held. No contract can say what an atomic holds: the rows of `status.rows` compare what is shown.
    pub(crate) fn show(&self, figures: &DeskFigures) {
        let digest = figures.digest;
        self.version.fetch_add(1, Ordering::SeqCst);
        self.edition.store(figures.edition, Ordering::SeqCst);
        self.mappings.store(figures.mappings, Ordering::SeqCst);
        self.pending.store(figures.pending, Ordering::SeqCst);
        self.digest[0].store((digest / HALF) as u64, Ordering::SeqCst);
        self.digest[1].store((digest % HALF) as u64, Ordering::SeqCst);
        self.version.fetch_add(1, Ordering::SeqCst);
    }

    /// Loads what is held, all of one moment. No contract can say what an atomic holds: the rows of `status.rows` compare
    /// it.
    pub(crate) fn load(&self) -> Held {
        for _ in 0..u64::MAX {
            let version = self.version.load(Ordering::SeqCst);
            let held = self.look();
            if version % 2 == 0 && version == self.version.load(Ordering::SeqCst) {
                return held;
            }
        }
        self.look()
    }

    /// Loads the numbers, one after another.
    fn look(&self) -> Held {
        let first = u128::from(self.digest[0].load(Ordering::SeqCst));
        let second = u128::from(self.digest[1].load(Ordering::SeqCst));
        Held {
            edition: self.edition.load(Ordering::SeqCst),
            mappings: self.mappings.load(Ordering::SeqCst),
            pending: self.pending.load(Ordering::SeqCst),
            digest: first.wrapping_mul(HALF).wrapping_add(second),
        }
    }
}
