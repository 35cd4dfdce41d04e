//! Values that are walked over and not kept: they are JSON as serde_json reads it.
ghost use Rattle.std.specs.Prelude.{◌≡◌, ◌<◌, ◌≤◌, ◌∷◌, length, Some, None, MatchResult, OnOk};
ghost use Rattle.json.specs.Json.{value, items, members};
ghost use Rattle.json.specs.Reads.{token_of};
ghost use Rattle.serde_json.specs.Data.{no_members};
ghost use Rattle.serde_json.specs.Read.{of_json, of_items, of_members};
ghost use Rattle.lost_reading.specs.KnownMembers.{passed};

use crate::numbers::number;
use json::{Invalid, Reader, Token};

/// Passes the next value, nested at most `depth` deep.
#[cycle(walk)]
pub(crate) fn walk(reader: &mut Reader<'_>, depth: usize) -> Result<(), Invalid>
    ensures value { MatchResult result
        (λ _. passed of_json (value depth reader.old) ≡ Some reader.new)
        (λ _. passed of_json (value depth reader.old) ≡ None) }
    ensures shorter { OnOk result (length reader.new < length reader.old) }
{
    let token = reader.next().ok_or(Invalid)?;
    walk_from(reader, token, depth)
}

/// Passes the value that begins with a token, which was read.
#[cycle(walk)]
#[inline(always)]
pub(crate) fn walk_from(
    reader: &mut Reader<'_>,
    token: Token<'_>,
    depth: usize,
) -> Result<(), Invalid>
    ensures value { MatchResult result
        (λ _. passed of_json (value depth (token_of token.entry ∷ reader.old)) ≡ Some reader.new)
        (λ _. passed of_json (value depth (token_of token.entry ∷ reader.old)) ≡ None) }
    ensures no_longer { OnOk result (length reader.new ≤ length reader.old) }
{
    match token {
        Token::String(_) | Token::Bool(_) | Token::Null => Ok(()),
        Token::Number(text) => match number(text) {
            Some(_) => Ok(()),
            None => Err(Invalid),
        },
        Token::EndObject | Token::EndArray | Token::Key(_) | Token::Bad => Err(Invalid),
        Token::BeginArray => {
            if depth == 0 {
                Err(Invalid)
            } else {
                walk_items(reader, depth - 1)
            }
        }
        Token::BeginObject => {
            if depth == 0 {
                Err(Invalid)
            } else {
                walk_members(reader, depth - 1)
            }
        }
    }
}

/// Passes the items of an array, behind its opening bracket.
#[cycle(walk)]
#[inline(never)]
fn walk_items(reader: &mut Reader<'_>, depth: usize) -> Result<(), Invalid>
    ensures value { MatchResult result
        (λ _. passed of_items (items (value depth) (length reader.old) reader.old) ≡ Some reader.new)
        (λ _. passed of_items (items (value depth) (length reader.old) reader.old) ≡ None) }
    ensures shorter { OnOk result (length reader.new < length reader.old) }
{
    'items: while !reader.take_end_array() {
        walk(reader, depth)?;
    }
    Ok(())
}

/// Passes the members of an object, behind its opening bracket.
#[cycle(walk)]
#[inline(never)]
fn walk_members(reader: &mut Reader<'_>, depth: usize) -> Result<(), Invalid>
    ensures value { MatchResult result
        (λ _. passed (λ ms. of_members ms no_members) (members (value depth) (length reader.old) reader.old) ≡ Some reader.new)
        (λ _. passed (λ ms. of_members ms no_members) (members (value depth) (length reader.old) reader.old) ≡ None) }
    ensures shorter { OnOk result (length reader.new < length reader.old) }
{
    'members: while let Some(_) = reader.next_key()? {
        walk(reader, depth)?;
    }
    Ok(())
}
