//! How many regions of each kind a mapping has.
ghost use Rattle.std.specs.Prelude.{◌≡◌, ◌<◌, ◌-◌, ◌^◌};
ghost use Rattle.lost_location.specs.Counted.{no_counts, with_one, total, are_over};

use lost_spec::places::PlaceKind;

/// The most polygons that a mapping has.
pub const MAX_POLYGONS: usize = 64;

/// The most patterns that a mapping has.
pub const MAX_PATTERNS: usize = 256;

/// The most token sets that a mapping has.
pub const MAX_TOKEN_SETS: usize = 64;

/// How many regions of each kind there are.
#[derive(Clone, Copy)]
pub struct Counts {
    /// Polygons.
    pub polygons: usize,
    /// Civic patterns.
    pub patterns: usize,
    /// Token sets.
    pub token_sets: usize,
}

impl Counts {
    /// None of any kind.
    pub fn none() -> Counts
        ensures { result ≡ no_counts }
    {
        Counts {
            polygons: 0,
            patterns: 0,
            token_sets: 0,
        }
    }

    /// One more of a kind.
    pub fn add(&mut self, kind: PlaceKind)
        requires { total self.old < 2 ^ 64 - 1 }
        ensures { self.new ≡ with_one kind self.old }
    {
        match kind {
            PlaceKind::Geodetic2d => self.polygons += 1,
            PlaceKind::Civic => self.patterns += 1,
            PlaceKind::XToken => self.token_sets += 1,
        }
    }

    /// Whether there are more of a kind than a mapping may have.
    #[tactic(auto, using(std::proofs::lemmas::Bool::Decides::nat_tests))]
    pub fn are_over(self) -> bool
        ensures { result ≡ are_over self }
    {
        self.polygons > MAX_POLYGONS
            || self.patterns > MAX_PATTERNS
            || self.token_sets > MAX_TOKEN_SETS
    }
}
