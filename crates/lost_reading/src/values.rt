//! Values as trees, read from their tokens as serde_json reads them, within a budget of memory.
ghost use Rattle.std.specs.Prelude.{◌≡◌, ◌<◌, ◌++◌, ◌∷◌, [], length, Some, None, Err, IfOk, IfErr, OnOk};
ghost use Rattle.json.specs.Json.{value, items, members};
ghost use Rattle.serde_json.specs.Data.{no_members, string, put};
ghost use Rattle.serde_json.specs.Read.{of_json, of_items, of_members, converted};
ghost use Rattle.serde_json.specs.View.{view, items_view, members_view};

use crate::budget::{Budget, FIRST_ROOM};
use crate::numbers::number;
use crate::request::ReadError;
use json::{Reader, Token};
use serde_json::{Map, Value};
use std::alloc::Global;

/// The next value, nested at most `depth` deep, or `Memory` where it takes more than the budget.
#[cycle(read)]
pub(crate) fn read(
    alloc: Global,
    reader: &mut Reader<'_>,
    budget: &mut Budget,
    depth: usize,
) -> Result<Value, ReadError>
    ensures ok { IfOk result (λ v. converted of_json (value depth reader.old) ≡ Some (view v, reader.new)) }
    ensures shorter { OnOk result (length reader.new < length reader.old) }
    ensures err { result ≡ Err ReadError.BadRequest → converted of_json (value depth reader.old) ≡ None }
{
    let token = reader.next().ok_or(ReadError::BadRequest)?;
    match token {
        Token::String(text) => text_value(alloc, budget, text),
        Token::Number(text) => match number(text) {
            Some(number) => Ok(Value::Number(number)),
            None => Err(ReadError::BadRequest),
        },
        Token::Bool(b) => Ok(Value::Bool(b)),
        Token::Null => Ok(Value::Null),
        Token::EndObject | Token::EndArray | Token::Key(_) | Token::Bad => {
            Err(ReadError::BadRequest)
        }
        Token::BeginArray => {
            if depth == 0 {
                return Err(ReadError::BadRequest);
            }
            Ok(Value::Array(read_items(alloc, reader, budget, depth - 1)?))
        }
        Token::BeginObject => {
            if depth == 0 {
                return Err(ReadError::BadRequest);
            }
            Ok(Value::Object(read_members(alloc, reader, budget, depth - 1)?))
        }
    }
}

/// A text as a value.
#[inline(never)]
fn text_value(alloc: Global, budget: &mut Budget, text: &str) -> Result<Value, ReadError>
    ensures ok { IfOk result (λ v. view v ≡ string text.now) }
    ensures err { IfErr result (λ fault. fault ≡ ReadError.Memory) }
{
    budget.spend_text(text)?;
    Ok(Value::String(String::from_str(alloc, text)?))
}

/// The items of an array, behind its opening bracket.
#[cycle(read)]
#[inline(never)]
fn read_items(
    alloc: Global,
    reader: &mut Reader<'_>,
    budget: &mut Budget,
    depth: usize,
) -> Result<Vec<Value>, ReadError>
    ensures ok { IfOk result
        (λ v. converted of_items (items (value depth) (length reader.old) reader.old) ≡ Some (items_view v.items, reader.new)) }
    ensures shorter { OnOk result (length reader.new < length reader.old) }
    ensures err { result ≡ Err ReadError.BadRequest
        → converted of_items (items (value depth) (length reader.old) reader.old) ≡ None }
{
    budget.spend_list()?;
    let mut found = Vec::with_capacity(alloc, FIRST_ROOM)?;
    'items: while !reader.take_end_array() {
        let item = read(alloc, reader, budget, depth)?;
        add_item(budget, &mut found, item)?;
    }
    Ok(found)
}

/// Adds an item to those of an array.
fn add_item(budget: &mut Budget, found: &mut Vec<Value>, item: Value) -> Result<(), ReadError>
    ensures added { OnOk result (found.new.items ≡ found.old.items ++ item ∷ []) }
    ensures err { IfErr result (λ fault. fault ≡ ReadError.Memory) }
{
    budget.spend_item(found)?;
    found.push(item)?;
    Ok(())
}

/// The members of an object, behind its opening bracket: of each name the last one stays.
#[cycle(read)]
#[inline(never)]
fn read_members(
    alloc: Global,
    reader: &mut Reader<'_>,
    budget: &mut Budget,
    depth: usize,
) -> Result<Map<String, Value>, ReadError>
    ensures ok { IfOk result
        (λ m. converted (λ ms. of_members ms no_members) (members (value depth) (length reader.old) reader.old)
        ≡ Some (members_view m.entries, reader.new)) }
    ensures shorter { OnOk result (length reader.new < length reader.old) }
    ensures err { result ≡ Err ReadError.BadRequest
        → converted (λ ms. of_members ms no_members) (members (value depth) (length reader.old) reader.old) ≡ None }
{
    let mut found = Map::new(alloc);
    'members: while let Some(name) = reader.next_key()? {
        budget.spend_text(name)?;
        let member = read(alloc, reader, budget, depth)?;
        add_member(alloc, budget, &mut found, name, member)?;
    }
    Ok(found)
}

/// Adds a member to those of an object, or puts it in the place of an earlier one of this name.
fn add_member(
    alloc: Global,
    budget: &mut Budget,
    found: &mut Map<String, Value>,
    name: &str,
    member: Value,
) -> Result<(), ReadError>
    ensures added { OnOk result (members_view found.new.entries ≡ put name.now (view member) (members_view found.old.entries)) }
    ensures err { IfErr result (λ fault. fault ≡ ReadError.Memory) }
{
    budget.spend_member(found)?;
    let key = String::from_str(alloc, name)?;
    drop(found.insert(key, member)?);
    Ok(())
}
