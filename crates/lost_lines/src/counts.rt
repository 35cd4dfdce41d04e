//! How many lines were answered, and how.
ghost use Rattle.std.specs.Prelude.{◌≡◌, ◌+◌, ◌-◌, ◌^◌, min};

/// The counts of the lines served.
#[derive(Clone, Copy, PartialEq, Eq, Debug, Default)]
pub struct Counts {
    /// The lines that were answered.
    pub lines: u64,
    /// The answered lines over the limit of 1,048,576 bytes.
    pub long_lines: u64,
    /// The lines answered `internalError`, since memory was refused.
    pub memory: u64,
    /// The connections that ended in a fault.
    pub faults: u64,
}

impl Counts {
    /// The counts for a connection that ended in a fault: one fault, and nothing else.
    pub fn of_fault() -> Counts
        ensures { result ≡ record { lines = 0; long_lines = 0; memory = 0; faults = 1 } }
    {
        Counts {
            lines: 0,
            long_lines: 0,
            memory: 0,
            faults: 1,
        }
    }

    /// The sum of both, number by number; each stops at its greatest value.
    pub fn plus(self, more: Counts) -> Counts
        ensures lines { result.lines ≡ min (self.lines + more.lines) (2 ^ 64 - 1) }
        ensures long_lines { result.long_lines ≡ min (self.long_lines + more.long_lines) (2 ^ 64 - 1) }
        ensures memory { result.memory ≡ min (self.memory + more.memory) (2 ^ 64 - 1) }
        ensures faults { result.faults ≡ min (self.faults + more.faults) (2 ^ 64 - 1) }
    {
        Counts {
            lines: self.lines.saturating_add(more.lines),
            long_lines: self.long_lines.saturating_add(more.long_lines),
            memory: self.memory.saturating_add(more.memory),
            faults: self.faults.saturating_add(more.faults),
        }
    }
}
