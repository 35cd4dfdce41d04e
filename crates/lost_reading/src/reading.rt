//! Small readers: the members of an object, and the kinds of values that members have.
ghost use Rattle.std.specs.Prelude.{◌≡◌, Some, option_map};
ghost use Rattle.serde_json.specs.Find.{as_str, get_member};
ghost use Rattle.serde_json.specs.View.{view, members_view};
ghost use Rattle.lost_reading.specs.Gives.{Gives};
ghost use Rattle.lost_reading.specs.Members.{one_of, only_member, the_member, required, optional, defaulting};

use crate::request::ReadError;
use json::Invalid;
use serde_json::{Map, Value};
use std::alloc::{AllocError, AllocFailed, Global};

/// A type that a value of a tree is read as.
pub(crate) trait Kind: Drop {
    ghost use Rattle.std.specs.Prelude.{Option};
    ghost use Rattle.serde_json.specs.Data.{Data};

    // What contracts see of what was read.
    ghost Seen: { Type 0 };

    ghost seen: { Self → Self.Seen };

    // What a value means, where it is of this kind.
    ghost meant: { Data → Option Self.Seen };

    /// Reads the value. `BadRequest` if it is of another kind.
    fn read(alloc: Global, value: &Value) -> Result<Self, ReadError>
        ensures { Gives seen result (meant (view value.now)) };
}

impl From<AllocError> for ReadError {
    ghost use Rattle.lost_reading.specs.declared.request.ReadError.TheVariants.{Memory};

    ghost from_gives = { λ _ error. error ≡ Memory };

    fn from(_refused: AllocError) -> ReadError {
        ReadError::Memory
    }
}

impl From<Invalid> for ReadError {
    ghost use Rattle.lost_reading.specs.declared.request.ReadError.TheVariants.{BadRequest};

    ghost from_gives = { λ _ error. error ≡ BadRequest };

    fn from(_invalid: Invalid) -> ReadError {
        ReadError::BadRequest
    }
}

impl<T: Drop> From<AllocFailed<T>> for ReadError {
    ghost use Rattle.lost_reading.specs.declared.request.ReadError.TheVariants.{Memory};

    ghost from_gives = { λ _ error. error ≡ Memory };

    fn from(_refused: AllocFailed<T>) -> ReadError {
        ReadError::Memory
    }
}

/// The one member of an object that has exactly one. `None` for any other value.
pub(crate) fn only_member(value: &Value) -> Option<(&str, &Value)>
    ensures { option_map (λ found. (found.0.now, view found.1.now)) result ≡ only_member (view value.now) }
{
    match value.as_object() {
        Some(members) => one_of(members),
        None => None,
    }
}

fn one_of(members: &Map<String, Value>) -> Option<(&str, &Value)>
    ensures { option_map (λ found. (found.0.now, view found.1.now)) result ≡ one_of (members_view members.now.entries) }
{
    let mut entries = members.iter();
    let (name, value) = entries.next()?;
    if entries.next().is_some() {
        None
    } else {
        Some((name.as_str(), value))
    }
}

/// The value of a member, which may be `null`.
fn given<'v>(members: &'v Map<String, Value>, name: &str) -> Option<&'v Value>
    ensures { option_map (λ value. view value.now) result ≡ get_member name.now (members_view members.now.entries) }
{
    members.get(name)
}

/// The value of a member. A member that is `null` counts as absent.
pub(crate) fn member<'v>(members: &'v Map<String, Value>, name: &str) -> Option<&'v Value>
    ensures { option_map (λ value. view value.now) result ≡ the_member name.now (members_view members.now.entries) }
{
    let value = given(members, name)?;
    if value.is_null() { None } else { Some(value) }
}

/// The text of a member that is a text.
pub(crate) fn text_member<'v>(members: &'v Map<String, Value>, name: &str) -> Option<&'v str>
    ensures { option_map (λ text. text.now) result ≡ required as_str name.now (members_view members.now.entries) }
{
    match member(members, name) {
        Some(value) => value.as_str(),
        None => None,
    }
}

/// A required member of a kind.
pub(crate) fn required<T: Kind>(
    alloc: Global,
    members: &Map<String, Value>,
    name: &str,
) -> Result<T, ReadError>
    ensures { Gives T.seen result (required T.meant name.now (members_view members.now.entries)) }
{
    match member(members, name) {
        Some(value) => T::read(alloc, value),
        None => Err(ReadError::BadRequest),
    }
}

/// A member of a kind. `None` if it is missing or of another kind: only memory fails.
pub(crate) fn readable<T: Kind>(
    alloc: Global,
    members: &Map<String, Value>,
    name: &str,
) -> Result<Option<T>, ReadError>
    ensures { Gives (λ found. option_map T.seen found) result (Some (required T.meant name.now (members_view members.now.entries))) }
{
    match required::<T>(alloc, members, name) {
        Ok(thing) => Ok(Some(thing)),
        Err(ReadError::BadRequest) => Ok(None),
        Err(ReadError::Memory) => Err(ReadError::Memory),
    }
}

/// An optional member of a kind.
pub(crate) fn optional<T: Kind>(
    alloc: Global,
    members: &Map<String, Value>,
    name: &str,
) -> Result<Option<T>, ReadError>
    ensures { Gives (λ found. option_map T.seen found) result (optional T.meant name.now (members_view members.now.entries)) }
{
    match member(members, name) {
        Some(value) => Ok(Some(T::read(alloc, value)?)),
        None => Ok(None),
    }
}

/// An optional member of a kind, or the default if it is absent.
pub(crate) fn defaulting<T: Kind>(
    alloc: Global,
    members: &Map<String, Value>,
    name: &str,
    default: T,
) -> Result<T, ReadError>
    ensures { Gives T.seen result (defaulting T.meant (T.seen default) name.now (members_view members.now.entries)) }
{
    Ok(optional::<T>(alloc, members, name)?.unwrap_or(default))
}
