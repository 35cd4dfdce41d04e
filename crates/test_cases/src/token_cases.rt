//! Calls of lost_profile: tokens, sets of them, and the profile of tokens.
use crate::case_error::CaseError;
use crate::fields::Fields;
use crate::gathered::{Gathered, joined};
use crate::words::{compared, copy_of, order, owned, refused, texts, yes_or_no};
use lost_profile::{Profile, Token, TokenError, TokenSet, Tokens, is_id, is_token_set};
use lost_spec::Coded;
use std::alloc::Global;

/// What a call gives.
pub(crate) fn said(alloc: Global, call: &str, fields: &Fields) -> Result<String, CaseError> {
    match call {
        "token parse" => parse(alloc, fields),
        "token id" => check_id(alloc, fields),
        "token order" => two_tokens(alloc, fields),
        "token set" => new_set(alloc, fields),
        "token texts" => read_set(alloc, fields),
        "token same sets" => same_sets(alloc, fields),
        "token contains" => contains(alloc, fields),
        "token cover" => cover(alloc, fields),
        "token probes" => probes(alloc, fields),
        "token profile" => profile(alloc),
        _ => Err(CaseError::NoCase),
    }
}

/// The text of a copy of a copy, by the method and by the trait.
fn parse(alloc: Global, fields: &Fields) -> Result<String, CaseError> {
    match Token::parse(fields.bytes(1)?) {
        Ok(token) => shown(alloc, &token),
        Err(refusal) => refusal_of(alloc, refusal),
    }
}

fn shown(alloc: Global, token: &Token) -> Result<String, CaseError> {
    let copy = copy_of(&token.clone()?)?;
    joined(alloc, &[copy.text(), " ", compared(&copy, token)])
}

/// The result of a call that gives a refusal.
fn refusal_of(alloc: Global, refusal: TokenError) -> Result<String, CaseError> {
    match refusal {
        TokenError::Memory => Err(CaseError::Memory),
        TokenError::Bad => refused(alloc, refusal.code()),
    }
}

fn check_id(alloc: Global, fields: &Fields) -> Result<String, CaseError> {
    owned(alloc, yes_or_no(is_id(fields.text(1)?)))
}

/// The token of a text that is one.
pub(crate) fn token(alloc: Global, text: &[u8]) -> Result<Token, CaseError> {
    match Token::parse(text) {
        Ok(token) => Ok(token),
        Err(TokenError::Memory) => Err(CaseError::Memory),
        Err(TokenError::Bad) => Err(CaseError::NoCase),
    }
}

fn two_tokens(alloc: Global, fields: &Fields) -> Result<String, CaseError> {
    let one = token(alloc, fields.bytes(1)?)?;
    owned(alloc, order(&one, &token(alloc, fields.bytes(2)?)?))
}

/// The tokens of a field with a comma between each two; none of an empty one.
fn tokens(alloc: Global, text: &str) -> Result<Vec<Token>, CaseError> {
    let mut tokens = Vec::new(alloc);
    for text in &texts(alloc, text)? {
        tokens.push(token(alloc, text.as_bytes())?)?;
    }
    Ok(tokens)
}

/// The tokens of a copy of a set.
fn new_set(alloc: Global, fields: &Fields) -> Result<String, CaseError> {
    match TokenSet::new(alloc, tokens(alloc, fields.text(1)?)?) {
        Ok(set) => shown_copy(alloc, &set),
        Err(refusal) => refusal_of(alloc, refusal),
    }
}

fn shown_copy(alloc: Global, set: &TokenSet) -> Result<String, CaseError> {
    shown_tokens(alloc, set.clone()?.tokens())
}

/// The tokens of the set that texts are, if the check of the texts says the same.
fn read_set(alloc: Global, fields: &Fields) -> Result<String, CaseError> {
    let texts = texts(alloc, fields.text(1)?)?;
    let is_set = is_token_set(texts.as_slice());
    match TokenSet::parse(alloc, texts.as_slice()) {
        Ok(set) if is_set => shown_tokens(alloc, set.tokens()),
        Err(TokenError::Memory) => Err(CaseError::Memory),
        Err(refusal) if !is_set => refused(alloc, refusal.code()),
        _ => owned(alloc, "at odds with the check"),
    }
}

/// The set of tokens that are one.
fn set(alloc: Global, text: &str) -> Result<TokenSet, CaseError> {
    match TokenSet::new(alloc, tokens(alloc, text)?) {
        Ok(set) => Ok(set),
        Err(TokenError::Memory) => Err(CaseError::Memory),
        Err(TokenError::Bad) => Err(CaseError::NoCase),
    }
}

fn same_sets(alloc: Global, fields: &Fields) -> Result<String, CaseError> {
    let one = set(alloc, fields.text(1)?)?;
    owned(alloc, yes_or_no(one == set(alloc, fields.text(2)?)?))
}

fn contains(alloc: Global, fields: &Fields) -> Result<String, CaseError> {
    let location = token(alloc, fields.bytes(2)?)?;
    let region = set(alloc, fields.text(1)?)?;
    owned(alloc, yes_or_no(Tokens::contains(&region, &location)))
}

fn cover(alloc: Global, fields: &Fields) -> Result<String, CaseError> {
    let keys = Tokens::cover(alloc, &set(alloc, fields.text(1)?)?)?;
    shown_tokens(alloc, keys.as_slice())
}

fn probes(alloc: Global, fields: &Fields) -> Result<String, CaseError> {
    let keys = Tokens::probes(alloc, &token(alloc, fields.bytes(1)?)?)?;
    shown_tokens(alloc, keys.as_slice())
}

/// The tokens with a comma between each two.
pub(crate) fn shown_tokens(alloc: Global, tokens: &[Token]) -> Result<String, CaseError> {
    let mut text = Gathered::new(alloc);
    add_tokens(&mut text, tokens);
    text.done()
}

/// Adds tokens with a comma between each two.
pub(crate) fn add_tokens(text: &mut Gathered, tokens: &[Token]) {
    let mut before = "";
    for token in tokens {
        text.add_all(&[before, token.text()]);
        before = ",";
    }
}

/// The name of the profile, and the greatest number of keys of a cover.
fn profile(alloc: Global) -> Result<String, CaseError> {
    let (name, most) = (Tokens::NAME, Tokens::COVER_MAX);
    Ok(format!(in alloc; "{name} {most}")?)
}
