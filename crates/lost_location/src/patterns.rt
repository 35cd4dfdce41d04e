//! Patterns of regions as they are handed in.
ghost use Rattle.std.specs.Prelude.{◌≡◌, is_none, IfOk};
ghost use Rattle.lost_spec.specs.Civic.{pattern_fault};
ghost use Rattle.lost_civic.specs.Pairs.{seen_pairs};
ghost use Rattle.lost_location.specs.Refusals.{Refuses, bad_unless};

use lost_civic::{CivicError, CivicPattern};
use lost_spec::faults::MappingError;
use std::alloc::Global;

/// The pattern of these names and values.
pub(crate) fn read_pattern(
    alloc: Global,
    pairs: Vec<(String, String)>,
) -> Result<CivicPattern, MappingError>
    ensures pattern { IfOk result (λ pattern. pattern ≡ seen_pairs pairs.items) }
    ensures refuses { Refuses result (bad_unless (is_none (pattern_fault (seen_pairs pairs.items)))) }
{
    match CivicPattern::from_pairs(alloc, pairs) {
        Ok(pattern) => Ok(pattern),
        Err(CivicError::Memory) => Err(MappingError::Memory),
        Err(_) => Err(MappingError::BadRegion),
    }
}
