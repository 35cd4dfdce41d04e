//! Tokens, and their order.
ghost use Rattle.std.specs.Prelude.{◌≡◌, ◌↔◌, ◌&&◌, ◌==◌, false, not, nat_le, refl, IsTrue, IsOk, IfOk, IfErr, IfSome, IsNone, bytes_eq};
ghost use Rattle.std.specs.List.{list_all};
ghost use Rattle.std.specs.Hash as fed;
ghost use Rattle.std.specs.Ordering.{nat_cmp, as_partial_cmp};
ghost use Rattle.std.specs.Cmp.{partial_equiv_from_equiv};
ghost use Rattle.std.specs.Cmp.Lexicographic.{slice_cmp, texts_ties, nat_list_eq_equiv, nat_list_cmp_total};
ghost use Rattle.std.specs.Cmp.Rules.{hashing};
ghost use Rattle.std.proofs.Common.{rules};
ghost use Rattle.lost_spec.specs.Token.{is_token, is_id};
ghost use Rattle.lost_profile.specs.TokenOrder.{token_partial};

use arrayvec::ArrayString;
use lost_spec::faults::TokenError;
use std::alloc::AllocError;
use std::cmp::Ordering;
use std::hash::{Hash, Hasher};
use std::marker::Model;

/// The most bytes that a sourceId, a key or a token has.
pub const MAX_ID_BYTES: usize = 128;

/// A token: a place by a name that those who make the map and those who ask agree on. It has 1 to 128 bytes of UTF-8, none
/// below 32 and none 127, as a sourceId has (own rule). Its text lies in the value, so a token takes no memory. Tokens are
/// compared, ordered and hashed by their bytes. Contracts see a token as its text.
#[derive(Debug)]
pub struct Token {
    text: ArrayString<MAX_ID_BYTES>,
}

impl Drop for Token {
    fn drop(self) {
        let Token { text: _ } = self;
    }
}

impl Model for Token {
    ghost use Rattle.std.specs.Prelude.{IsTrue};
    ghost use Rattle.lost_spec.specs.Text.{Text};
    ghost use Rattle.lost_spec.specs.Token.{is_token};

    ghost Value = { Text };

    ghost view = { λ t. t.text.bytes };

    ghost invariant = { λ t. IsTrue (is_token t.text.bytes) };
}

impl Token {
    /// The token of this text (own rule). It takes no memory.
    ///
    /// # Errors
    ///
    /// [`TokenError::Bad`] for a text that is no token, and nothing else.
    pub fn parse(text: &[u8]) -> Result<Token, TokenError>
        ensures value { IfOk result (λ token. token ≡ text.now) }
        ensures accepted { IsOk result ↔ IsTrue (is_token text.now) }
        ensures bad { IfErr result (λ error. error ≡ TokenError.Bad) }
    {
        match read(text) {
            Some(text) => Ok(Token::of(text)),
            None => Err(TokenError::Bad),
        }
    }

    pub(crate) fn of(text: &str) -> Token
        requires { IsTrue (is_token text.now) }
        ensures { result ≡ text.now }
    {
        let mut room = ArrayString::new();
        room.push_str(text);
        Token { text: room }
    }

    /// The text, as it was given.
    pub fn text(&self) -> &str
        ensures text { result.now ≡ self.now }
        ensures well_formed { IsTrue (is_token self.now) }
    {
        self.text.as_str()
    }

    /// The same token once more. It takes no memory.
    pub fn copy(&self) -> Token
        ensures { result ≡ self.now }
    {
        Token { text: self.text }
    }
}

/// The text of these bytes, where it is that of a token.
fn read(bytes: &[u8]) -> Option<&str>
    ensures text { IfSome result (λ text. text.now ≡ bytes.now) }
    ensures token { IfSome result (λ text. IsTrue (is_token bytes.now)) }
    ensures none { IsNone result → is_token bytes.now ≡ false }
{
    let Ok(text) = str::from_utf8(bytes) else {
        return None;
    };
    if is_id(text) { Some(text) } else { None }
}

/// Whether a text is that of a sourceId, a key or a token: 1 to 128 bytes, none below 32 and none 127.
pub fn is_id(text: &str) -> bool
    ensures { result ≡ is_id text.now }
{
    !text.is_empty() && text.len() <= MAX_ID_BYTES && has_id_bytes(text.as_bytes())
}

fn has_id_bytes(bytes: &[u8]) -> bool
    ensures { result ≡ list_all (λ b. nat_le 32 b && not (b == 127)) bytes.now }
{
    bytes.iter().all(|byte| *byte >= 32 && *byte != 127)
}

impl Clone for Token {
    ghost is_clone = { λ token copy. copy ≡ token };

    fn clone(&self) -> Result<Token, AllocError> {
        Ok(self.copy())
    }
}

impl PartialEq for Token {
    ghost eq = { bytes_eq };

    ghost laws = { partial_equiv_from_equiv nat_list_eq_equiv };

    fn eq(&self, other: &Token) -> bool {
        self.text() == other.text()
    }
}

impl Eq for Token {
    ghost laws = { nat_list_eq_equiv };
}

impl PartialOrd for Token {
    ghost partial_cmp = { as_partial_cmp (slice_cmp nat_cmp) };

    ghost laws = { token_partial };

    fn partial_cmp(&self, other: &Token) -> Option<Ordering> {
        Some(self.cmp(other))
    }
}

impl Ord for Token {
    ghost cmp = { slice_cmp nat_cmp };

    ghost total = { nat_list_cmp_total };

    ghost matches_partial_cmp = { λ a b. refl };

    ghost matches_eq = { texts_ties };

    fn cmp(&self, other: &Token) -> Ordering {
        self.text().cmp(other.text())
    }
}

impl Hash for Token {
    ghost hash_input = { fed.str };

    ghost respects_eq = { Prim.search (hashing, rules) };

    fn hash<H: Hasher>(&self, state: &mut H) {
        self.text().hash(state);
    }
}
