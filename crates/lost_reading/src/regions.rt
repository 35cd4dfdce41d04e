//! Regions of a mapping that a map desk hands in (RFC 5222, section 5.5): as they are read, and, with no memory, as they are
//! judged where they lie in the tree.
ghost use Rattle.std.specs.Prelude.{◌≡◌, None, Some, Ok, codes};
ghost use Rattle.std.specs.List.{list_all};
ghost use Rattle.serde_json.specs.View.{view, members_view};
ghost use Rattle.lost_spec.specs.Place.{is_region};
ghost use Rattle.lost_spec.specs.Text.{is_between};
ghost use Rattle.lost_location.specs.Region.{region_of, region_kind as kind_of_region};
ghost use Rattle.lost_reading.specs.Gives.{Gives};
ghost use Rattle.lost_reading.specs.Members as kinds;
ghost use Rattle.lost_reading.specs.Members.{the_member};
ghost use Rattle.lost_reading.specs.Desk.{ring_region, pattern_region, token_region, region_of_kind, region_of_members, region_in};
ghost use Rattle.lost_reading.specs.TreeParts.{text_or_empty, is_pattern_entry, members_region};

use crate::fits::list;
use crate::kinds::named_texts;
use crate::reading::{Kind, member, readable, text_member};
use crate::request::ReadError;
use crate::tree::{Tree, text_or_empty};
use lost_civic::CivicPattern;
use lost_geo::is_ring_of;
use lost_location::{PlaceKind, Region, kind_of};
use lost_profile::{TokenTexts, is_token_set_of};
use serde_json::{Map, Value};
use std::alloc::Global;

impl Kind for Region {
    ghost use Rattle.lost_spec.specs.Place as spec;

    ghost Seen = { spec.Region };

    ghost seen = { region_of };

    // A value that is no region is an unreadable one.
    ghost meant = { λ value. Some (region_in value) };

    fn read(alloc: Global, value: &Value) -> Result<Region, ReadError> {
        match value.as_object() {
            Some(members) => read_region(alloc, members),
            None => Ok(Region::Unreadable),
        }
    }
}

/// The region of an object.
fn read_region(alloc: Global, members: &Map<String, Value>) -> Result<Region, ReadError>
    ensures { Gives region_of result (Some (region_of_members (members_view members.now.entries))) }
{
    match text_member(members, "profile") {
        Some(profile) => read_region_of(alloc, kind_of(profile), members),
        None => Ok(Region::Unreadable),
    }
}

/// The region of an object, by the kind that its profile names.
fn read_region_of(
    alloc: Global,
    kind: Option<PlaceKind>,
    members: &Map<String, Value>,
) -> Result<Region, ReadError>
    ensures { Gives region_of result (Some (region_of_kind kind (members_view members.now.entries))) }
{
    match kind {
        Some(PlaceKind::Geodetic2d) => read_ring(alloc, members),
        Some(PlaceKind::Civic) => read_pattern(alloc, members),
        Some(PlaceKind::XToken) => read_tokens(alloc, members),
        None => Ok(Region::Unreadable),
    }
}

fn read_ring(alloc: Global, members: &Map<String, Value>) -> Result<Region, ReadError>
    ensures { Gives region_of result (Some (ring_region (the_member (codes "polygon") (members_view members.now.entries)))) }
{
    match readable::<Vec<(i64, i64)>>(alloc, members, "polygon")? {
        Some(positions) => Ok(Region::Ring(positions)),
        None => Ok(Region::Unreadable),
    }
}

/// The pattern of a region. A value that is no object of texts is unreadable even if memory is short.
fn read_pattern(alloc: Global, members: &Map<String, Value>) -> Result<Region, ReadError>
    ensures given { Gives region_of result (Some (pattern_region (the_member (codes "pattern") (members_view members.now.entries)))) }
    ensures unreadable { kinds.required kinds.pairs_in (codes "pattern") (members_view members.now.entries) ≡ None
        → result ≡ Ok Region.Unreadable }
{
    match named_texts(alloc, members, "pattern")? {
        Some(pairs) => Ok(Region::Pattern(pairs.0)),
        None => Ok(Region::Unreadable),
    }
}

fn read_tokens(alloc: Global, members: &Map<String, Value>) -> Result<Region, ReadError>
    ensures { Gives region_of result (Some (token_region (the_member (codes "tokens") (members_view members.now.entries)))) }
{
    match readable::<Vec<String>>(alloc, members, "tokens")? {
        Some(texts) => Ok(Region::Tokens(texts)),
        None => Ok(Region::Unreadable),
    }
}

/// A value has the text that it is, or an empty one.
impl TokenTexts for Tree {
    type Item = Value;

    ghost text_of = { λ item. text_or_empty (view item) };

    fn text(item: &Value) -> &str {
        text_or_empty(item)
    }
}

/// The kind of an object's region. `None` if it cannot be read.
pub(crate) fn kind_of_members(members: &Map<String, Value>) -> Option<PlaceKind>
    ensures { result ≡ kind_of_region (region_of_members (members_view members.now.entries)) }
{
    match text_member(members, "profile") {
        Some(profile) => kind_with(members, kind_of(profile)),
        None => None,
    }
}

/// This kind, if it is that of an object's region. `None` if the region cannot be read.
fn kind_with(members: &Map<String, Value>, kind: Option<PlaceKind>) -> Option<PlaceKind>
    ensures { result ≡ kind_of_region (region_of_kind kind (members_view members.now.entries)) }
{
    match kind {
        Some(PlaceKind::Geodetic2d) => has_ring(members).then_some(PlaceKind::Geodetic2d),
        Some(PlaceKind::Civic) => has_pattern(members).then_some(PlaceKind::Civic),
        Some(PlaceKind::XToken) => has_token_set(members).then_some(PlaceKind::XToken),
        None => None,
    }
}

/// Whether the member `polygon` is a ring of points.
fn has_ring(members: &Map<String, Value>) -> bool
    ensures { result ≡ is_region (ring_region (the_member (codes "polygon") (members_view members.now.entries))) }
{
    member(members, "polygon").is_some_and(is_ring)
}

fn is_ring(value: &Value) -> bool
    ensures { result ≡ is_region (ring_region (Some (view value.now))) }
{
    match list::<(i64, i64)>(value) {
        Some(positions) => is_ring_of::<Tree>(positions),
        None => false,
    }
}

/// Whether the member `pattern` is an object of names and texts that is accepted as a pattern.
fn has_pattern(members: &Map<String, Value>) -> bool
    ensures { result ≡ is_region (pattern_region (the_member (codes "pattern") (members_view members.now.entries))) }
{
    member(members, "pattern").is_some_and(is_pattern)
}

fn is_pattern(value: &Value) -> bool
    ensures { result ≡ is_region (pattern_region (Some (view value.now))) }
{
    match value.as_object() {
        Some(pairs) => make_pattern(pairs),
        None => false,
    }
}

/// Whether the names and values of an object make a pattern. No name stands twice in an object.
fn make_pattern(pairs: &Map<String, Value>) -> bool
    ensures { result ≡ is_region (members_region (members_view pairs.now.entries)) }
{
    is_pattern_count(pairs.len()) && each_is_taken(pairs)
}

#[tactic(auto, using(std::proofs::lemmas::Bool::Decides::nat_tests))]
fn is_pattern_count(count: usize) -> bool
    ensures { result ≡ is_between 1 128 count }
{
    count >= 1 && count <= CivicPattern::MAX_PAIRS
}

/// Whether a pattern accepts each name with its value.
fn each_is_taken(pairs: &Map<String, Value>) -> bool
    ensures { result ≡ list_all is_pattern_entry pairs.now.entries }
{
    for (name, value) in pairs.iter() {
        if !is_taken(name, value) {
            return false;
        }
    }
    true
}

fn is_taken(name: &String, value: &Value) -> bool
    ensures { result ≡ is_pattern_entry (name.now, value.now) }
{
    match value.as_str() {
        Some(text) => CivicPattern::takes_pair(name.as_str(), text),
        None => false,
    }
}

/// Whether the member `tokens` is a list of texts that are a token set.
fn has_token_set(members: &Map<String, Value>) -> bool
    ensures { result ≡ is_region (token_region (the_member (codes "tokens") (members_view members.now.entries))) }
{
    member(members, "tokens").is_some_and(is_token_set)
}

fn is_token_set(value: &Value) -> bool
    ensures { result ≡ is_region (token_region (Some (view value.now))) }
{
    match list::<String>(value) {
        Some(texts) => is_token_set_of::<Tree>(texts),
        None => false,
    }
}
