//! What of a line is kept as a tree: of the request or the desk line that it is, the members that have a name of theirs. All
//! others are walked over.
ghost use Rattle.std.specs.Prelude.{◌≡◌, ◌<◌, length, Some, None, Err, IfOk, IfSome, OnOk, option_and_then};
ghost use Rattle.json.specs.Json.{value, members};
ghost use Rattle.serde_json.specs.Data.{Data, Members, object, no_members, put};
ghost use Rattle.serde_json.specs.Find.{as_object};
ghost use Rattle.serde_json.specs.Read.{of_json, of_members, converted, read as tree_of_text};
ghost use Rattle.serde_json.specs.View.{view, members_view};
ghost use Rattle.lost_reading.specs.Desk.{order_in};
ghost use Rattle.lost_reading.specs.KnownMembers.{is_request_member, is_desk_member, is_known, of_tokens, HaveSameKnown, AreObjects, HaveSameNames, Tells, IsNeither};
ghost use Rattle.lost_reading.specs.Requests.{request_in};

use crate::budget::Budget;
use crate::desk::is_desk_name;
use crate::request::ReadError;
use crate::values::read;
use crate::walk::{walk, walk_from};
use json::{Reader, Scratch, Token};
use serde_json::{Map, Value};
use std::alloc::Global;

/// How deep the values of a line may nest, as serde_json reads it.
const MAX_DEPTH: usize = 127;

fn is_request_member(name: &str) -> bool
    ensures { result ≡ is_request_member name.now }
{
    "service" == name
        || "location" == name
        || "validateLocation" == name
        || "serviceBoundary" == name
        || "path" == name
        || "key" == name
}

fn is_desk_member(name: &str) -> bool
    ensures { result ≡ is_desk_member name.now }
{
    "source" == name
        || "sourceId" == name
        || "lastUpdated" == name
        || "expires" == name
        || "uri" == name
        || "serviceNumber" == name
        || "default" == name
        || "displayName" == name
}

/// Whether a request or a desk line has a member of this name.
fn is_known(name: &str) -> bool
    ensures { result ≡ is_known name.now }
{
    is_request_member(name) || is_desk_member(name)
}

/// Keeps the next value as the member of this name.
fn keep(
    alloc: Global,
    reader: &mut Reader<'_>,
    budget: &mut Budget,
    depth: usize,
    name: &str,
    found: &mut Map<String, Value>,
) -> Result<(), ReadError>
    ensures ok { OnOk result ((d : Data) × (converted of_json (value depth reader.old) ≡ Some (d, reader.new))
        × (members_view found.new.entries ≡ put name.now d (members_view found.old.entries))) }
    ensures shorter { OnOk result (length reader.new < length reader.old) }
    ensures err { result ≡ Err ReadError.BadRequest → converted of_json (value depth reader.old) ≡ None }
{
    budget.spend_text(name)?;
    let key = String::from_str(alloc, name)?;
    let member = read(alloc, reader, budget, depth)?;
    budget.spend_member(found)?;
    drop(found.insert(key, member)?);
    Ok(())
}

/// Keeps the next value as the member of this name, where the name is known, and else walks over it.
fn keep_known(
    alloc: Global,
    reader: &mut Reader<'_>,
    budget: &mut Budget,
    depth: usize,
    name: &str,
    found: &mut Map<String, Value>,
) -> Result<(), ReadError>
    ensures ok { OnOk result ((d : Data) × (converted of_json (value depth reader.old) ≡ Some (d, reader.new))
        × ((all : Members) → HaveSameKnown all (members_view found.old.entries)
        → HaveSameKnown (put name.now d all) (members_view found.new.entries))) }
    ensures shorter { OnOk result (length reader.new < length reader.old) }
    ensures err { result ≡ Err ReadError.BadRequest → converted of_json (value depth reader.old) ≡ None }
{
    if is_known(name) {
        keep(alloc, reader, budget, depth, name, found)
    } else {
        Ok(walk(reader, depth)?)
    }
}

/// The known members of an object, behind its opening bracket.
#[inline(never)]
fn read_known(
    alloc: Global,
    reader: &mut Reader<'_>,
    budget: &mut Budget,
    depth: usize,
) -> Result<Map<String, Value>, ReadError>
    ensures ok { IfOk result (λ m. (all : Members)
        × (converted (λ ms. of_members ms no_members) (members (value depth) (length reader.old) reader.old) ≡ Some (all, reader.new))
        × HaveSameKnown all (members_view m.entries)) }
    ensures shorter { OnOk result (length reader.new < length reader.old) }
    ensures err { result ≡ Err ReadError.BadRequest
        → converted (λ ms. of_members ms no_members) (members (value depth) (length reader.old) reader.old) ≡ None }
{
    let mut found = Map::new(alloc);
    'members: while let Some(name) = reader.next_key()? {
        keep_known(alloc, reader, budget, depth, name, &mut found)?;
    }
    Ok(found)
}

/// The next value: an object with its known members, and of any other value that it is none.
fn read_object(
    alloc: Global,
    reader: &mut Reader<'_>,
    budget: &mut Budget,
    depth: usize,
) -> Result<Value, ReadError>
    ensures ok { IfOk result (λ v. (d : Data) × (converted of_json (value depth reader.old) ≡ Some (d, reader.new))
        × AreObjects HaveSameKnown (as_object d) (as_object (view v))) }
    ensures shorter { OnOk result (length reader.new < length reader.old) }
    ensures err { result ≡ Err ReadError.BadRequest → converted of_json (value depth reader.old) ≡ None }
{
    let token = reader.next().ok_or(ReadError::BadRequest)?;
    if let Token::BeginObject = token {
        if depth == 0 {
            return Err(ReadError::BadRequest);
        }
        return Ok(Value::Object(read_known(alloc, reader, budget, depth - 1)?));
    }
    walk_from(reader, token, depth)?;
    Ok(Value::Null)
}

/// Keeps the next value as the member of this name, as [`read_object`] reads it.
fn keep_object(
    alloc: Global,
    reader: &mut Reader<'_>,
    budget: &mut Budget,
    depth: usize,
    name: &str,
    found: &mut Map<String, Value>,
) -> Result<(), ReadError>
    ensures ok { OnOk result ((d : Data) × (converted of_json (value depth reader.old) ≡ Some (d, reader.new))
        × ((all : Members) → HaveSameNames all (members_view found.old.entries)
        → HaveSameNames (put name.now d all) (members_view found.new.entries))) }
    ensures shorter { OnOk result (length reader.new < length reader.old) }
    ensures err { result ≡ Err ReadError.BadRequest → converted of_json (value depth reader.old) ≡ None }
{
    if !is_desk_name(name) {
        budget.narrow_to_request();
    }
    budget.spend_text(name)?;
    let key = String::from_str(alloc, name)?;
    let member = read_object(alloc, reader, budget, depth)?;
    budget.spend_member(found)?;
    drop(found.insert(key, member)?);
    Ok(())
}

/// The members of a line's object, behind its opening bracket, each as [`read_object`] reads it.
fn read_named(
    alloc: Global,
    reader: &mut Reader<'_>,
    budget: &mut Budget,
    depth: usize,
) -> Result<Map<String, Value>, ReadError>
    ensures ok { IfOk result (λ m. (all : Members)
        × (converted (λ ms. of_members ms no_members) (members (value depth) (length reader.old) reader.old) ≡ Some (all, reader.new))
        × HaveSameNames all (members_view m.entries)) }
    ensures err { result ≡ Err ReadError.BadRequest
        → converted (λ ms. of_members ms no_members) (members (value depth) (length reader.old) reader.old) ≡ None }
{
    let mut found = Map::new(alloc);
    'members: while let Some(name) = reader.next_key()? {
        keep_object(alloc, reader, budget, depth, name, &mut found)?;
    }
    Ok(found)
}

/// Reads an object from a line's tokens, and keeps its known members.
fn read_whole(alloc: Global, reader: &mut Reader<'_>) -> Result<Map<String, Value>, ReadError>
    ensures ok { IfOk result (λ m. (all : Members) × (of_tokens reader.old ≡ Some (object all)) × HaveSameNames all (members_view m.entries)) }
    ensures err { result ≡ Err ReadError.BadRequest → IfSome (of_tokens reader.old) (λ d. as_object d ≡ None) }
{
    let token = reader.next().ok_or(ReadError::BadRequest)?;
    let Token::BeginObject = token else {
        return Err(ReadError::BadRequest);
    };
    let mut budget = Budget::of_desk_line();
    let found = read_named(alloc, reader, &mut budget, MAX_DEPTH - 1)?;
    if reader.next().is_some() {
        Err(ReadError::BadRequest)
    } else {
        Ok(found)
    }
}

/// The tree of a text with its known members, or `BadRequest` if it is no object.
fn read_text(alloc: Global, text: &str) -> Result<Value, ReadError>
    ensures tells { IfOk result (λ tree. (option_and_then request_in (tree_of_text text.now) ≡ request_in (view tree))
        × (option_and_then order_in (tree_of_text text.now) ≡ order_in (view tree))) }
    ensures neither { result ≡ Err ReadError.BadRequest → (option_and_then request_in (tree_of_text text.now) ≡ None)
        × (option_and_then order_in (tree_of_text text.now) ≡ None) }
{
    let mut scratch = Scratch::new(alloc);
    let mut reader = Reader::new(text, &mut scratch)?;
    Ok(Value::Object(read_whole(alloc, &mut reader)?))
}

/// A tree that tells of a line what it is, a request or a desk line. It lacks members that neither has.
///
/// # Errors
///
/// `BadRequest` where the line is neither, and `Memory` where the tree would take more than its budget too.
pub(crate) fn read_tree(alloc: Global, line: &[u8]) -> Result<Value, ReadError>
    ensures tells { IfOk result (λ tree. Tells (view tree) line.now) }
    ensures neither { result ≡ Err ReadError.BadRequest → IsNeither line.now }
{
    match std::str::from_utf8(line) {
        Ok(text) => read_text(alloc, text),
        Err(_) => Err(ReadError::BadRequest),
    }
}
