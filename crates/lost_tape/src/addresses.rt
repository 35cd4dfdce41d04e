//! The civic address of a location (RFC 5222, section 12.3).
ghost use Rattle.std.specs.Prelude.{◌≡◌, Some, IfSome, OnSome, option_map, string_bytes};
ghost use Rattle.serde_json.specs.Data.{Members as SpecMembers, no_members, string, put};
ghost use Rattle.lost_civic.specs.Pairs.{seen_pairs};
ghost use Rattle.lost_location.specs.Body.{body_of};
ghost use Rattle.lost_reading.specs.Members.{pairs_of, pairs_in};
ghost use Rattle.lost_reading.specs.Requests.{address_body};
ghost use Rattle.lost_writing.specs.Named.{named_members};
ghost use Rattle.lost_tape.specs.Tapes.{data_of, HoldsMembers};

use crate::part::{add, owned};
use crate::tree::{Named, Tree};
use lost_location::Body;
use std::alloc::Global;
use std::collections::BTreeMap;

/// The content of a location of `civic`.
pub(crate) fn read_address<'a>(alloc: Global, address: &Option<Tree<'_, '_>>) -> Option<Body<'a>>
    ensures { IfSome result (λ body. address_body (option_map data_of address.now) ≡ body_of body) }
{
    match address {
        Some(tree) => read_address_at(alloc, tree),
        None => Some(Body::Unreadable),
    }
}

fn read_address_at<'a>(alloc: Global, tree: &Tree<'_, '_>) -> Option<Body<'a>>
    ensures { IfSome result (λ body. address_body (Some (data_of tree.now)) ≡ body_of body) }
{
    let pairs = read_pairs(alloc, tree)?;
    Some(Body::Address(pairs))
}

/// The names and texts of an object, in ascending byte order of the names.
pub(crate) fn read_pairs(alloc: Global, tree: &Tree<'_, '_>) -> Option<Vec<(String, String)>>
    ensures { IfSome result (λ pairs. pairs_in (data_of tree.now) ≡ Some (seen_pairs pairs.items)) }
{
    let members = tree.named()?;
    let named = by_name(alloc, members)?;
    copy_pairs(alloc, &named)
}

/// The texts of an object by their names. If a name comes twice, its last text stays.
fn by_name<'a>(alloc: Global, members: Named<'_, 'a>) -> Option<BTreeMap<&'a str, &'a str>>
    ensures { (all : SpecMembers) → HoldsMembers members.entry no_members all
        → IfSome result (λ named. named_members named.entries ≡ all) }
{
    let mut members = members;
    let mut named = BTreeMap::new(alloc);
    while let Some((name, tree)) = members.next() {
        let text = tree.text()?;
        put(&mut named, name, text)?;
    }
    Some(named)
}

/// Puts a text under its name. It replaces one that stands there.
pub(crate) fn put<'a>(
    named: &mut BTreeMap<&'a str, &'a str>,
    name: &'a str,
    text: &'a str,
) -> Option<()>
    ensures { OnSome result (named_members named.new.entries ≡ put name.now (string text.now) (named_members named.old.entries)) }
{
    match named.insert(name, text) {
        Ok(_) => Some(()),
        Err(_) => None,
    }
}

/// Copies of the names and texts.
pub(crate) fn copy_pairs(
    alloc: Global,
    named: &BTreeMap<&str, &str>,
) -> Option<Vec<(String, String)>>
    ensures { IfSome result (λ pairs. pairs_of (named_members named.now.entries) ≡ Some (seen_pairs pairs.items)) }
{
    let mut pairs = Vec::new(alloc);
    for (name, text) in named.iter() {
        let name = owned(alloc, name)?;
        let text = owned(alloc, text)?;
        add(&mut pairs, (name, text))?;
    }
    Some(pairs)
}
