//! Items of lists as they lie in the tree: whether they are of a kind, and what they then tell. It takes no memory.
ghost use Rattle.std.specs.Prelude.{◌≡◌, is_some, map, option_map};
ghost use Rattle.serde_json.specs.View.{view, items_view, members_view};
ghost use Rattle.lost_reading.specs.Members.{each_of, list_in};
ghost use Rattle.lost_reading.specs.Desk.{display_name_of_members, region_in};
ghost use Rattle.lost_reading.specs.TreeParts.{text_or_empty, position_or_zeros, display_name_or_empty, text_or_empty-is, position_or_zeros-is, region_in-is, display_name_or_empty-is};

use crate::kinds::position;
use crate::reading::text_member;
use lost_mapping::{DisplayName, Region};
use serde_json::{Map, Value};

/// A kind of items that is recognized in the tree.
pub(crate) trait Fits {
    ghost use Rattle.std.specs.Prelude.{◌≡◌, Option, Some, is_some};
    ghost use Rattle.serde_json.specs.Data.{Data};
    ghost use Rattle.serde_json.specs.View.{view};

    // What contracts see of an item.
    ghost Seen: { Type 0 };

    // What a value means, where it is of this kind.
    ghost meant: { Data → Option Self.Seen };

    // What a value tells, whatever it is.
    ghost told: { Data → Self.Seen };

    /// Whether the value is of this kind.
    fn fits(value: &Value) -> bool
        ensures { result ≡ is_some (meant (view value.now)) };

    // A value of this kind tells what it means.
    ghost told_is: { (value : Data) (thing : Self.Seen) → meant value ≡ Some thing → told value ≡ thing };
}

impl Fits for String {
    ghost use Rattle.serde_json.specs.Find.{as_str};
    ghost use Rattle.lost_spec.specs.Text.{Text};

    ghost Seen = { Text };

    ghost meant = { as_str };

    ghost told = { text_or_empty };

    ghost told_is = { text_or_empty-is };

    fn fits(value: &Value) -> bool {
        value.as_str().is_some()
    }
}

impl Fits for (i64, i64) {
    ghost use Rattle.std.specs.Prelude.{ℤ};
    ghost use Rattle.lost_reading.specs.Members.{position_in};

    ghost Seen = { ℤ × ℤ };

    ghost meant = { position_in };

    ghost told = { position_or_zeros };

    ghost told_is = { position_or_zeros-is };

    fn fits(value: &Value) -> bool {
        position(value).is_some()
    }
}

/// A value that is no region is an unreadable one.
impl Fits for Region {
    ghost use Rattle.std.specs.Prelude.{Some};
    ghost use Rattle.lost_spec.specs.Place as spec;

    ghost Seen = { spec.Region };

    ghost meant = { λ value. Some (region_in value) };

    ghost told = { region_in };

    ghost told_is = { region_in-is };

    fn fits(_value: &Value) -> bool {
        true
    }
}

impl Fits for DisplayName {
    ghost use Rattle.lost_spec.specs.Mapping as spec;
    ghost use Rattle.lost_reading.specs.Desk.{display_name_in};

    ghost Seen = { spec.DisplayName };

    ghost meant = { display_name_in };

    ghost told = { display_name_or_empty };

    ghost told_is = { display_name_or_empty-is };

    fn fits(value: &Value) -> bool {
        match value.as_object() {
            Some(members) => is_display_name(members),
            None => false,
        }
    }
}

/// Whether an object is a display name.
fn is_display_name(members: &Map<String, Value>) -> bool
    ensures { result ≡ is_some (display_name_of_members (members_view members.now.entries)) }
{
    text_member(members, "lang").is_some() && text_member(members, "text").is_some()
}

/// The items of a list, all of a kind, as they lie in the tree.
pub(crate) fn list<T: Fits>(value: &Value) -> Option<&[Value]>
    ensures { option_map (λ items. map (λ item. T.told (view item)) items.now) result ≡ list_in T.meant (view value.now) }
{
    match value.as_array() {
        Some(items) => if_fitting::<T>(items.as_slice()),
        None => None,
    }
}

/// These items, if all are of a kind.
fn if_fitting<T: Fits>(items: &[Value]) -> Option<&[Value]>
    ensures { option_map (λ items. map (λ item. T.told (view item)) items.now) result ≡ each_of T.meant (items_view items.now) }
{
    if each_fits::<T>(items) {
        Some(items)
    } else {
        None
    }
}

/// Whether each item is of a kind.
fn each_fits<T: Fits>(items: &[Value]) -> bool
    ensures { result ≡ is_some (each_of T.meant (items_view items.now)) }
{
    items.iter().all(|item| T::fits(item))
}
