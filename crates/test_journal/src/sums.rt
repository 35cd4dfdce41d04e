//! How much was run.

/// Counts of a row's runs.
#[derive(Clone, Copy, PartialEq, Eq, Debug)]
pub(crate) struct Sums {
    /// Runs on a disk that fails.
    pub(crate) runs: u64,
    /// Contents that opened.
    pub(crate) opened: u64,
    /// Contents that were refused for a gate that is neither the old nor the new byte.
    pub(crate) torn: u64,
    /// Contents that were refused for a whole commit behind the last one.
    pub(crate) behind: u64,
    /// Openings that a failing call ended.
    pub(crate) stopped: u64,
}

impl Sums {
    /// Nothing was run.
    pub(crate) fn new() -> Sums {
        Sums {
            runs: 0,
            opened: 0,
            torn: 0,
            behind: 0,
            stopped: 0,
        }
    }
}

/// Adds 1 to a count.
pub(crate) fn count(sum: &mut u64) {
    *sum = sum.saturating_add(1);
}
