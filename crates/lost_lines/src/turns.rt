//! How long a stream is served at most.
ghost use Rattle.std.specs.Prelude.{◌≡◌};

/// The most lines that are answered, and the most reads that are made. A stream with more is ended, so no input keeps a
/// call for ever.
#[derive(Clone, Copy, PartialEq, Eq, Debug)]
pub struct Turns {
    /// The most lines.
    pub lines: u64,
    /// The most reads.
    pub reads: u64,
}

impl Turns {
    /// The turns of the programs: 1,000,000 lines and 100,000,000 reads.
    pub const USUAL: Turns = Turns {
        lines: 1_000_000,
        reads: 100_000_000,
    };
}

/// [`Turns::USUAL`] is 1,000,000 lines and 100,000,000 reads.
pub fn law_usual_turns()
    ensures { Turns.USUAL ≡ record { lines = 1_000_000; reads = 100_000_000 } }
{}
