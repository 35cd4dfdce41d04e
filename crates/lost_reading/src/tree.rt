//! What the items of a mapping's lists tell as they lie in the tree (RFC 5222, section 5). It takes no memory.
ghost use Rattle.std.specs.Prelude.{◌≡◌};
ghost use Rattle.serde_json.specs.View.{view};
ghost use Rattle.lost_reading.specs.Desk.{region_in};
ghost use Rattle.lost_reading.specs.TreeParts.{text_or_empty, position_or_zeros, member_text_or_empty, display_name_or_empty};

use crate::kinds::position;
use crate::reading::text_member;
use crate::regions::kind_of_members;
use lost_geo::Positions;
use lost_location::PlaceKind;
use lost_mapping::PartItems;
use serde_json::Value;

/// A tree. Positions, texts and the parts of a mapping are read from its values.
pub(crate) struct Tree;

impl Positions for Tree {
    type Item = Value;

    ghost position_of = { λ item. position_or_zeros (view item) };

    fn position(item: &Value) -> (i64, i64) {
        position(item).unwrap_or((0, 0))
    }
}

impl PartItems for Tree {
    type Uri = Value;

    type Region = Value;

    type DisplayName = Value;

    ghost uri_of = { λ uri. text_or_empty (view uri) };

    ghost region_of = { λ region. region_in (view region) };

    ghost display_name_of = { λ name. display_name_or_empty (view name) };

    fn uri(uri: &Value) -> &str {
        text_or_empty(uri)
    }

    fn region_kind(region: &Value) -> Option<PlaceKind> {
        match region.as_object() {
            Some(members) => kind_of_members(members),
            None => None,
        }
    }

    fn lang(name: &Value) -> &str {
        text_of_member(name, "lang")
    }

    fn text(name: &Value) -> &str {
        text_of_member(name, "text")
    }
}

/// The text that a value is, or an empty one if it is none.
pub(crate) fn text_or_empty(value: &Value) -> &str
    ensures { result.now ≡ text_or_empty (view value.now) }
{
    value.as_str().unwrap_or("")
}

/// The text of a member of an object, or an empty one if there is none.
fn text_of_member<'v>(value: &'v Value, name: &str) -> &'v str
    ensures { result.now ≡ member_text_or_empty name.now (view value.now) }
{
    match value.as_object() {
        Some(members) => text_member(members, name).unwrap_or(""),
        None => "",
    }
}
