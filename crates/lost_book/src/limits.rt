//! How much a book may hold and accept.
ghost use Rattle.std.specs.Prelude.{◌≡◌};
ghost use Rattle.lost_spec.specs.Book.{limits_of, with_traces};
ghost use Rattle.lost_book.specs.Bounds.{widest, AreAllowed};

use std::marker::Model;

/// The most mappings that a book may hold.
const MAX_MAPPINGS: u32 = 65_536;

/// The most traces that a book may remember.
const MAX_TRACES: u32 = 65_536;

/// How many mappings a book may hold, 1 to 65,536, how many edits it may accept, at least 1, and how many withdrawn
/// identities it may remember, 1 to 65,536. Contracts see them as the record `Limits`.
#[derive(Clone, Copy, PartialEq, Eq, Debug)]
pub struct Limits {
    mappings: u32,
    edits: u32,
    traces: u32,
}

impl Model for Limits {
    ghost use Rattle.lost_spec.specs.Book as spec;
    ghost use Rattle.lost_book.specs.Bounds.{AreAllowed};

    ghost Value = { spec.Limits };

    ghost view = { λ l. record { mappings = l.mappings; edits = l.edits; traces = l.traces } };

    ghost invariant = { λ l. AreAllowed (record { mappings = l.mappings; edits = l.edits; traces = l.traces }) };

    ghost inverse = { λ l. record { mappings = l.mappings; edits = l.edits; traces = l.traces } };
}

impl Limits {
    /// These limits, with 65,536 traces, or `None` unless `mappings` is 1 to 65,536 and `edits` is at least 1.
    pub fn new(mappings: u32, edits: u32) -> Option<Limits>
        ensures { result ≡ limits_of mappings edits }
    {
        if mappings >= 1 && mappings <= MAX_MAPPINGS && edits >= 1 {
            Some(Limits {
                mappings,
                edits,
                traces: MAX_TRACES,
            })
        } else {
            None
        }
    }

    /// These limits with this number of traces, or `None` unless it is 1 to 65,536. It takes no memory.
    pub fn with_traces(self, traces: u32) -> Option<Limits>
        ensures { result ≡ with_traces self traces }
    {
        if traces >= 1 && traces <= MAX_TRACES {
            Some(Limits {
                mappings: self.mappings,
                edits: self.edits,
                traces,
            })
        } else {
            None
        }
    }

    /// The widest limits: 65,536 mappings, 4,294,967,295 edits, and 65,536 traces.
    pub fn widest() -> Limits
        ensures { result ≡ widest }
    {
        Limits {
            mappings: MAX_MAPPINGS,
            edits: u32::MAX,
            traces: MAX_TRACES,
        }
    }

    /// How many mappings may be held.
    pub fn mappings(&self) -> u32
        ensures mappings { result ≡ self.now.mappings }
        ensures allowed { AreAllowed self.now }
    {
        self.mappings
    }

    /// How many edits may be accepted.
    pub fn edits(&self) -> u32
        ensures edits { result ≡ self.now.edits }
        ensures allowed { AreAllowed self.now }
    {
        self.edits
    }

    /// How many withdrawn identities may be remembered.
    pub fn traces(&self) -> u32
        ensures traces { result ≡ self.now.traces }
        ensures allowed { AreAllowed self.now }
    {
        self.traces
    }
}
