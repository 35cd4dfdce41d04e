//! Regions of a mapping that a map desk hands in (RFC 5222, section 5.5).
ghost use Rattle.std.specs.Prelude.{◌≡◌, Some, IfSome, codes};
ghost use Rattle.lost_location.specs.Region.{region_of};
ghost use Rattle.lost_reading.specs.Members.{the_member};
ghost use Rattle.lost_reading.specs.Desk.{ring_region, pattern_region, token_region, region_of_kind, region_of_members, region_in};
ghost use Rattle.lost_tape.specs.Tapes.{data_of, members_of};

use crate::addresses::read_pairs;
use crate::part::{Part, read_list, read_position, required_member, required_text};
use crate::tree::Tree;
use lost_location::{PlaceKind, Region, kind_of};
use std::alloc::Global;

impl<'a> Part<'a> for (i64, i64) {
    ghost use Rattle.std.specs.Prelude.{ℤ};
    ghost use Rattle.lost_reading.specs.Members.{position_in};

    ghost Seen = { ℤ × ℤ };

    ghost seen = { λ position. position };

    ghost meant = { position_in };

    fn read(_alloc: Global, tree: &Tree<'_, 'a>) -> Option<(i64, i64)> {
        read_position(tree)
    }
}

impl<'a> Part<'a> for Region {
    ghost use Rattle.lost_spec.specs.Place as spec;

    ghost Seen = { spec.Region };

    ghost seen = { region_of };

    // A value that is no region is an unreadable one.
    ghost meant = { λ value. Some (region_in value) };

    fn read(alloc: Global, tree: &Tree<'_, 'a>) -> Option<Region> {
        if tree.is_object() {
            read_region(alloc, tree)
        } else {
            None
        }
    }
}

/// The region of an object.
fn read_region(alloc: Global, object: &Tree<'_, '_>) -> Option<Region>
    ensures { IfSome result (λ region. region_of_members (members_of object.now) ≡ region_of region) }
{
    let profile = required_text(object, "profile")?;
    read_region_of(alloc, kind_of(profile), object)
}

/// The region of an object, by the kind that its profile names.
fn read_region_of(alloc: Global, kind: Option<PlaceKind>, object: &Tree<'_, '_>) -> Option<Region>
    ensures { IfSome result (λ region. region_of_kind kind (members_of object.now) ≡ region_of region) }
{
    match kind {
        Some(PlaceKind::Geodetic2d) => read_ring(alloc, object),
        Some(PlaceKind::Civic) => read_pattern(alloc, object),
        Some(PlaceKind::XToken) => read_tokens(alloc, object),
        None => None,
    }
}

fn read_ring(alloc: Global, object: &Tree<'_, '_>) -> Option<Region>
    ensures { IfSome result (λ region. ring_region (the_member (codes "polygon") (members_of object.now)) ≡ region_of region) }
{
    let tree = required_member(object, "polygon")?;
    let positions = read_list::<(i64, i64)>(alloc, &tree)?;
    Some(Region::Ring(positions))
}

fn read_pattern(alloc: Global, object: &Tree<'_, '_>) -> Option<Region>
    ensures { IfSome result (λ region. pattern_region (the_member (codes "pattern") (members_of object.now)) ≡ region_of region) }
{
    let tree = required_member(object, "pattern")?;
    let pairs = read_pairs(alloc, &tree)?;
    Some(Region::Pattern(pairs))
}

fn read_tokens(alloc: Global, object: &Tree<'_, '_>) -> Option<Region>
    ensures { IfSome result (λ region. token_region (the_member (codes "tokens") (members_of object.now)) ≡ region_of region) }
{
    let tree = required_member(object, "tokens")?;
    let texts = read_list::<String>(alloc, &tree)?;
    Some(Region::Tokens(texts))
}
