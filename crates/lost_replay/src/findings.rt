//! The findings of a check of a stream.
ghost use Rattle.std.specs.Prelude.{◌≡◌};
ghost use Rattle.lost_replay.specs.Tally.{finds_nothing};

/// The counts of the lines of a stream.
#[derive(Clone, Copy, PartialEq, Eq, Debug, Default)]
pub struct Findings {
    /// The number of lines that a replay refuses.
    pub refused: u64,
    /// The number of lines that a replay answers `badRequest`.
    pub bad_requests: u64,
    /// The number of lines that were not judged, since memory ran out.
    pub unjudged: u64,
    /// The number of published edits at the end.
    pub edition: u64,
}

impl Findings {
    /// Whether no line is reported: none is refused, answered `badRequest` or left unjudged.
    pub fn is_nothing(&self) -> bool
        ensures { result ≡ finds_nothing self.now }
    {
        self.refused == 0 && self.bad_requests == 0 && self.unjudged == 0
    }
}
