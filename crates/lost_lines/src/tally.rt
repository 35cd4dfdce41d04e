//! The counts of a stream that is being served.
ghost use Rattle.std.specs.Prelude.{◌≡◌, ◌<◌, ◌≤◌, ◌+◌, nat_le};

use crate::counts::Counts;

/// The counts so far, and how many lines may be counted.
#[derive(Drop)]
pub(crate) struct Tally {
    counts: Counts,
    most: u64,
    ghost within: { counts.lines ≤ most },
    ghost few_long: { counts.long_lines ≤ counts.lines },
    ghost few_unread: { counts.memory ≤ counts.lines },
}

impl Tally {
    ghost use Rattle.lost_lines.specs.Tally.{counts_of, most_of, Counted};

    pub(crate) fn new(most: u64) -> Tally
        ensures counts { counts_of result ≡ record { lines = 0; long_lines = 0; memory = 0; faults = 0 } }
        ensures most { most_of result ≡ most }
    {
        Tally {
            counts: Counts::default(),
            most,
        }
    }

    pub(crate) fn counts(&self) -> Counts
        ensures counts { result ≡ counts_of self.now }
        ensures within { result.lines ≤ most_of self.now }
    {
        self.counts
    }

    /// Whether no further line may be answered.
    pub(crate) fn is_spent(&self) -> bool
        ensures { result ≡ nat_le (most_of self.now) (counts_of self.now).lines }
    {
        self.counts.lines >= self.most
    }

    /// The number of the next line that is answered.
    pub(crate) fn next(&self) -> u64
        requires { (counts_of self.now).lines < most_of self.now }
        ensures { result ≡ (counts_of self.now).lines + 1 }
    {
        self.counts.lines + 1
    }

    /// Counts a line that was answered.
    pub(crate) fn count(&mut self, is_long: bool, is_internal_error: bool)
        requires { (counts_of self.old).lines < most_of self.old }
        ensures counted { Counted (counts_of self.old) (counts_of self.new) is_long is_internal_error }
        ensures most { most_of self.new ≡ most_of self.old }
    {
        self.counts.lines += 1;
        self.counts.long_lines += u64::from(is_long);
        self.counts.memory += u64::from(is_internal_error);
    }
}
