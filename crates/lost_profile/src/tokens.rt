//! The profile of tokens among sets of them.
ghost use Rattle.std.specs.Prelude.{true, refl};
ghost use Rattle.lost_spec.specs.Token.{contains_token};
ghost use Rattle.lost_profile.specs.TokenSets.{IsTokenSet, token_cover, token_probes, token_shares, token_distinct, token_bounded};

use crate::{Profile, Token, TokenSet};
use std::alloc::{AllocError, Global};

/// Tokens among token sets (own profile). A set is kept under each of its tokens, and a token is looked up under itself. An
/// outline tells nothing.
pub struct Tokens;

impl Profile for Tokens {
    type Location = Token;

    type Region = TokenSet;

    type Key = Token;

    type Probes = [Token; 1];

    type Outline = ();

    ghost COVER_MAX = { 64 };

    const NAME: &'static str = "x-token";

    const COVER_MAX: usize = TokenSet::MAX_TOKENS;

    ghost is_region = { IsTokenSet };

    ghost is_location = { λ _. Unit {0} };

    ghost holds = { contains_token };

    ghost cover_of = { token_cover };

    ghost probes_of = { token_probes };

    ghost outline_of = { λ _. tt };

    ghost may_hold = { λ _ _. true };

    ghost kind_of = { λ _. 0 };

    /// Whether the token is one of the set's, byte for byte.
    fn contains(region: &TokenSet, location: &Token) -> bool {
        region.contains(location)
    }

    /// The tokens of the set, in their order.
    fn key_at(region: &TokenSet, position: usize) -> Option<Token> {
        match region.tokens().get(position) {
            Some(token) => Some(token.copy()),
            None => None,
        }
    }

    fn has_key(region: &TokenSet, key: &Token) -> bool {
        region.contains(key)
    }

    /// The token, alone.
    fn probes(_alloc: Global, location: &Token) -> Result<[Token; 1], AllocError> {
        Ok([location.copy()])
    }

    fn outline(region: &TokenSet) {
        // Shows to the proof that it is a token set.
        let _tokens = region.tokens();
    }

    fn is_near(_outline: &(), _location: &Token) -> bool {
        true
    }

    /// All tokens are of one kind.
    fn key_kind(_key: &Token) -> usize {
        0
    }

    ghost cover_meets_probes = { λ region location _ _ holds. token_shares region location holds };

    ghost cover_is_distinct = { token_distinct };

    ghost cover_is_bounded = { token_bounded };

    ghost holder_is_near = { λ _ _ _ _ _. refl };

    ghost equal_outlines_agree = { λ _ _ _ _. refl };

    ghost equal_keys_are_of_one_kind = { λ _ _ _. refl };
}
