//! Token sets.
ghost use Rattle.std.specs.Prelude.{◌≡◌, ◌↔◌, ◌&&◌, false, map, not, string_bytes, IsTrue, IfOk, OnOk};
ghost use Rattle.std.specs.List.{list_all};
ghost use Rattle.std.specs.Cmp.{partial_equiv_from_equiv};
ghost use Rattle.lost_spec.specs.Text.{is_among, has_repeat, same_texts};
ghost use Rattle.lost_spec.specs.Token.{is_token, is_token_set, contains_token};
ghost use Rattle.lost_profile.specs.TokenSets.{same_texts-equiv};

use crate::token::{Token, is_id};
use lost_spec::faults::TokenError;
use std::alloc::{AllocError, Global};
use std::marker::Model;
use std::sync::Arc;

/// The tokens that a mapping serves: 1 to 64 of them, none twice, in the order in which they were given (own rule). It
/// never changes and is shared, so a copy costs a pointer. Contracts see a set as the list of its tokens' texts.
pub struct TokenSet {
    tokens: Arc<Vec<Token>>,
}

impl Drop for TokenSet {
    fn drop(self) {
        let TokenSet { tokens: _ } = self;
    }
}

impl Model for TokenSet {
    ghost use Rattle.std.specs.Prelude.{List, IsTrue};
    ghost use Rattle.std.specs.Arc.{arc_value};
    ghost use Rattle.lost_spec.specs.Text.{Text};
    ghost use Rattle.lost_spec.specs.Token.{is_token_set};

    ghost Value = { List Text };

    ghost view = { λ s. (arc_value s.tokens).items };

    ghost invariant = { λ s. IsTrue (is_token_set (arc_value s.tokens).items) };
}

impl TokenSet {
    /// The most tokens that a set has (own bound).
    pub const MAX_TOKENS: usize = 64;

    /// The set of these tokens (own rule).
    ///
    /// # Errors
    ///
    /// [`TokenError::Bad`] for no token, for more than 64 and for a token that stands twice, and [`TokenError::Memory`]. A
    /// refused list is dropped.
    pub fn new(alloc: Global, tokens: Vec<Token>) -> Result<TokenSet, TokenError>
        ensures accepted { OnOk result (IsTrue (is_token_set tokens.items)) }
        ensures value { IfOk result (λ set. set ≡ tokens.items) }
        ensures bad { (result ≡ Err TokenError.Bad) ↔ (is_token_set tokens.items ≡ false) }
    {
        if !is_token_set_of::<Token>(&tokens) {
            return Err(TokenError::Bad);
        }
        match Arc::new(alloc, tokens) {
            Ok(tokens) => Ok(TokenSet { tokens }),
            Err(_) => Err(TokenError::Memory),
        }
    }

    /// The set of the tokens of these texts (own rule).
    ///
    /// # Errors
    ///
    /// [`TokenError::Bad`] where [`is_token_set`] says no, and [`TokenError::Memory`]. A refusal takes no memory.
    pub fn parse(alloc: Global, texts: &[String]) -> Result<TokenSet, TokenError>
        ensures value { IfOk result (λ set. set ≡ map string_bytes texts.now) }
        ensures bad { (result ≡ Err TokenError.Bad) ↔ (is_token_set (map string_bytes texts.now) ≡ false) }
    {
        if !is_token_set(texts) {
            return Err(TokenError::Bad);
        }
        match TokenSet::copied(alloc, texts) {
            Ok(set) => Ok(set),
            Err(_) => Err(TokenError::Memory),
        }
    }

    /// The same for texts that are a set.
    fn copied(alloc: Global, texts: &[String]) -> Result<TokenSet, AllocError>
        requires { IsTrue (is_token_set (map string_bytes texts.now)) }
        ensures { IfOk result (λ set. set ≡ map string_bytes texts.now) }
    {
        let mut tokens = Vec::with_capacity(alloc, texts.len())?;
        for text in texts {
            tokens.push(Token::of(text.as_str()))?;
        }
        Ok(TokenSet {
            tokens: Arc::new(alloc, tokens)?,
        })
    }

    /// The tokens, as they were given.
    pub fn tokens(&self) -> &[Token]
        ensures tokens { result.now ≡ self.now }
        ensures well_formed { IsTrue (is_token_set self.now) }
    {
        self.tokens.as_slice()
    }

    /// Whether the token is one of the set's, byte for byte (own rule). It takes no memory.
    pub fn contains(&self, token: &Token) -> bool
        ensures { result ≡ contains_token self.now token.now }
    {
        is_among::<Token>(token.text(), self.tokens())
    }

    /// The same set once more. It costs a pointer.
    pub fn clone(&self) -> Result<TokenSet, AllocError>
        ensures { IfOk result (λ copy. copy ≡ self.now) }
    {
        Ok(TokenSet {
            tokens: Arc::try_clone(&self.tokens)?,
        })
    }
}

/// How to read the texts of tokens from the items of a list, such as tokens, texts, or values of a tree.
pub trait TokenTexts {
    ghost use Rattle.std.specs.Prelude.{◌≡◌};
    ghost use Rattle.lost_spec.specs.Text.{Text};

    /// An item that holds the text of a token.
    type Item;

    // The text of an item.
    ghost text_of: { Self.Item → Text };

    /// The text of an item.
    fn text(item: &Self::Item) -> &str
        ensures { result.now ≡ text_of item.now };
}

/// A text is its own.
impl TokenTexts for String {
    type Item = String;

    ghost text_of = { string_bytes };

    fn text(item: &String) -> &str {
        item.as_str()
    }
}

/// A token has a text.
impl TokenTexts for Token {
    type Item = Token;

    ghost text_of = { λ token. token };

    fn text(item: &Token) -> &str {
        item.text()
    }
}

/// Whether these texts are a token set: 1 to 64 tokens, none twice (own rule). It takes no memory.
pub fn is_token_set(texts: &[String]) -> bool
    ensures { result ≡ is_token_set (map string_bytes texts.now) }
{
    is_token_set_of::<String>(texts)
}

/// The same for items that hold texts.
pub fn is_token_set_of<T: TokenTexts>(items: &[T::Item]) -> bool
    ensures { result ≡ is_token_set (map T.text_of items.now) }
{
    !items.is_empty() && items.len() <= TokenSet::MAX_TOKENS && are_apart::<T>(items)
}

/// Whether each is a token, and none stands twice. It takes the square of their number, which is at most 64 where this is
/// asked.
fn are_apart<T: TokenTexts>(items: &[T::Item]) -> bool
    ensures { result ≡ (list_all is_token (map T.text_of items.now) && not (has_repeat (map T.text_of items.now))) }
{
    let mut rest = items;
    while let Some((item, others)) = rest.split_first() {
        let text = T::text(item);
        if !is_id(text) || is_among::<T>(text, others) {
            return false;
        }
        rest = others;
    }
    true
}

/// Whether this is the text of one of the items.
fn is_among<T: TokenTexts>(text: &str, items: &[T::Item]) -> bool
    ensures { result ≡ is_among text.now (map T.text_of items.now) }
{
    items.iter().any(|item| text == T::text(item))
}

/// Two sets are equal where their tokens are, byte for byte and in their order.
impl PartialEq for TokenSet {
    ghost eq = { same_texts };

    ghost laws = { partial_equiv_from_equiv same_texts-equiv };

    fn eq(&self, other: &TokenSet) -> bool {
        self.tokens() == other.tokens()
    }
}

impl Eq for TokenSet {
    ghost laws = { same_texts-equiv };
}
