//! Token sets of regions as they are handed in.
ghost use Rattle.std.specs.Prelude.{◌≡◌, map, string_bytes, IfOk};
ghost use Rattle.lost_spec.specs.Token.{is_token_set};
ghost use Rattle.lost_location.specs.Refusals.{Refuses, bad_unless};

use lost_profile::{TokenError, TokenSet};
use lost_spec::faults::MappingError;
use std::alloc::Global;

/// The set of these texts.
pub(crate) fn read_token_set(alloc: Global, texts: &[String]) -> Result<TokenSet, MappingError>
    ensures token_set { IfOk result (λ set. set ≡ map string_bytes texts.now) }
    ensures refuses { Refuses result (bad_unless (is_token_set (map string_bytes texts.now))) }
{
    match TokenSet::parse(alloc, texts) {
        Ok(set) => Ok(set),
        Err(TokenError::Memory) => Err(MappingError::Memory),
        Err(TokenError::Bad) => Err(MappingError::BadRegion),
    }
}
