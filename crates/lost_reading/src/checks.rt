//! The first refusal of a mapping that a map desk hands in, found in the tree before any memory is taken.
ghost use Rattle.std.specs.Prelude.{◌≡◌, false, [], map, option_map};
ghost use Rattle.std.specs.Option.{option_copied};
ghost use Rattle.std.specs.Result.{result_err};
ghost use Rattle.serde_json.specs.Find.{as_bool, as_str};
ghost use Rattle.serde_json.specs.View.{view, members_view};
ghost use Rattle.lost_spec.specs.Book as book;
ghost use Rattle.lost_spec.specs.Mapping as spec;
ghost use Rattle.lost_reading.specs.Members.{required, optional, defaulting, list_in};
ghost use Rattle.lost_reading.specs.Desk.{parts_with_texts, parts_of_members, mapping_order};
ghost use Rattle.lost_reading.specs.TreeParts.{tree_parts};

use crate::desk::DeskFault;
use crate::fits::{Fits, list};
use crate::reading::{member, text_member};
use crate::tree::Tree;
use lost_mapping::{BorrowedParts, DisplayName, Mapping, Region};
use serde_json::{Map, Value};

/// Ok if the members of an object are the parts of a mapping, each of its kind, and none is refused. Otherwise the
/// first refusal.
pub(crate) fn check_members(members: &Map<String, Value>) -> Result<(), DeskFault>
    ensures { (edit : spec.Mapping → book.Edit)
        → result_err result ≡ result_err (mapping_order edit (parts_of_members (members_view members.now.entries))) }
{
    let Some(parts) = tell_parts(members) else {
        return Err(DeskFault::BadLine);
    };
    match Mapping::check::<Tree>(&parts) {
        Ok(()) => Ok(()),
        Err(fault) => Err(DeskFault::Mapping(fault)),
    }
}

/// The parts of a mapping as they lie in the tree. `None` if a required member is missing or a member is of another
/// kind.
fn tell_parts(members: &Map<String, Value>) -> Option<BorrowedParts<'_, Value, Value, Value>>
    ensures { option_map tree_parts result ≡ parts_of_members (members_view members.now.entries) }
{
    let source = text_member(members, "source")?;
    let source_id = text_member(members, "sourceId")?;
    let last_updated = text_member(members, "lastUpdated")?;
    let expires = text_member(members, "expires")?;
    let service = text_member(members, "service")?;
    tell_parts_with(members, source, source_id, last_updated, expires, service)
}

/// The parts of a mapping with these required texts, as they lie in the tree.
fn tell_parts_with<'v>(
    members: &'v Map<String, Value>,
    source: &'v str,
    source_id: &'v str,
    last_updated: &'v str,
    expires: &'v str,
    service: &'v str,
) -> Option<BorrowedParts<'v, Value, Value, Value>>
    ensures { option_map tree_parts result
        ≡ parts_with_texts source.now source_id.now last_updated.now expires.now service.now (members_view members.now.entries) }
{
    Some(BorrowedParts {
        source,
        source_id,
        last_updated,
        expires,
        service,
        uris: list_member::<String>(members, "uri")?,
        number: text_if_any(members, "serviceNumber")?,
        regions: list_if_any::<Region>(members, "serviceBoundary")?,
        is_default: truth_if_any(members, "default")?,
        display_names: list_if_any::<DisplayName>(members, "displayName")?,
        key: text_if_any(members, "key")?,
    })
}

/// The items of a required list, all of a kind.
fn list_member<'v, T: Fits>(members: &'v Map<String, Value>, name: &str) -> Option<&'v [Value]>
    ensures { option_map (λ items. map (λ item. T.told (view item)) items.now) result
        ≡ required (list_in T.meant) name.now (members_view members.now.entries) }
{
    match member(members, name) {
        Some(value) => list::<T>(value),
        None => None,
    }
}

/// The items of an optional list, all of a kind: none if the list is absent.
fn list_if_any<'v, T: Fits>(members: &'v Map<String, Value>, name: &str) -> Option<&'v [Value]>
    ensures { option_map (λ items. map (λ item. T.told (view item)) items.now) result
        ≡ defaulting (list_in T.meant) [] name.now (members_view members.now.entries) }
{
    match member(members, name) {
        Some(value) => list::<T>(value),
        None => Some(&[]),
    }
}

/// An optional text.
fn text_if_any<'v>(members: &'v Map<String, Value>, name: &str) -> Option<Option<&'v str>>
    ensures { option_map (λ text. option_copied text) result ≡ optional as_str name.now (members_view members.now.entries) }
{
    match member(members, name) {
        Some(value) => Some(Some(value.as_str()?)),
        None => Some(None),
    }
}

/// An optional truth value: false if it is absent.
fn truth_if_any(members: &Map<String, Value>, name: &str) -> Option<bool>
    ensures { result ≡ defaulting as_bool false name.now (members_view members.now.entries) }
{
    match member(members, name) {
        Some(value) => value.as_bool(),
        None => Some(false),
    }
}
