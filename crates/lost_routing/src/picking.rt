//! Picks mappings by their numbers.
ghost use Rattle.std.specs.Prelude.{◌≡◌, Bool, IfOk};
ghost use Rattle.std.specs.Fn.{FnReturnsAt};
ghost use Rattle.std.specs.List.{list_any};
ghost use Rattle.lost_spec.specs.Mapping as spec;
ghost use Rattle.lost_spec.specs.Positions.{positions};
ghost use Rattle.lost_tables.specs.Picks.{Covers};

use crate::store::Store;
use lost_mapping::Mapping;
use lost_query::Picked;
use lost_tables::picks;

impl Store {
    /// The mappings that pass a test, given candidates among which is the number of each of them.
    pub(crate) fn pick<F: Fn(&Mapping) -> bool>(&self, candidates: &[u64], passes: F) -> Picked
        requires { F.IsAlwaysCallable passes }
        ensures { (test : spec.Mapping → Bool) → ((m : spec.Mapping) (r : Bool) → FnReturnsAt F.Fn passes m r → r ≡ test m)
            → Covers test self.now.numbers self.now.mappings candidates.now
            → IfOk result (λ found. found.items ≡ positions test self.now.mappings) }
    {
        picks::select(self.alloc, &self.rows, candidates, passes)
    }

    /// Whether some mapping passes a test, given candidates among which is the number of each that does.
    pub(crate) fn has_any<F: Fn(&Mapping) -> bool>(&self, candidates: &[u64], passes: F) -> bool
        requires { F.IsAlwaysCallable passes }
        ensures { (test : spec.Mapping → Bool) → ((m : spec.Mapping) (r : Bool) → FnReturnsAt F.Fn passes m r → r ≡ test m)
            → Covers test self.now.numbers self.now.mappings candidates.now
            → result ≡ list_any test self.now.mappings }
    {
        picks::any(&self.rows, candidates, passes)
    }
}
