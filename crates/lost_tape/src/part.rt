//! Parts of a line that are read by themselves, and lists of them.
ghost use Rattle.std.specs.Prelude.{◌≡◌, ◌++◌, ◌∷◌, [], Some, IfSome, OnSome, map, option_map, option_and_then, string_bytes};
ghost use Rattle.serde_json.specs.Data.{Items as SpecItems};
ghost use Rattle.serde_json.specs.Find.{as_str};
ghost use Rattle.lost_reading.specs.Members.{the_member, required, optional, defaulting, each_of, list_in, pair_in, position_in};
ghost use Rattle.lost_tape.specs.Tapes.{data_of, members_of, HoldsItems};

use crate::tree::{Tree, Trees};
use lost_geo::GeoPoint;
use std::alloc::Global;
use std::borrow::CowStr;

/// A type that a value of a line is read as, if that is certain. It may borrow the line's texts.
pub(crate) trait Part<'a>: Drop {
    ghost use Rattle.std.specs.Prelude.{Option};
    ghost use Rattle.serde_json.specs.Data.{Data};

    // What contracts see of what was read.
    ghost Seen: { Type 0 };

    ghost seen: { Self → Self.Seen };

    // What a value means, where it is of this kind.
    ghost meant: { Data → Option Self.Seen };

    /// Reads the value. `None` says nothing about the value.
    fn read(alloc: Global, tree: &Tree<'_, 'a>) -> Option<Self>
        ensures { IfSome result (λ part. meant (data_of tree.now) ≡ Some (seen part)) };
}

impl<'a> Part<'a> for String {
    ghost use Rattle.lost_spec.specs.Text.{Text};

    ghost Seen = { Text };

    ghost seen = { string_bytes };

    ghost meant = { as_str };

    fn read(alloc: Global, tree: &Tree<'_, 'a>) -> Option<String> {
        let text = tree.text()?;
        owned(alloc, text)
    }
}

impl<'a> Part<'a> for CowStr<'a> {
    ghost use Rattle.std.specs.Cow.{cow_str_bytes};
    ghost use Rattle.lost_spec.specs.Text.{Text};

    ghost Seen = { Text };

    ghost seen = { cow_str_bytes };

    ghost meant = { as_str };

    fn read(_alloc: Global, tree: &Tree<'_, 'a>) -> Option<CowStr<'a>> {
        let text = tree.text()?;
        Some(CowStr::Borrowed(text))
    }
}

impl<'a> Part<'a> for bool {
    ghost use Rattle.std.specs.Prelude.{Bool};
    ghost use Rattle.serde_json.specs.Find.{as_bool};

    ghost Seen = { Bool };

    ghost seen = { λ truth. truth };

    ghost meant = { as_bool };

    fn read(_alloc: Global, tree: &Tree<'_, 'a>) -> Option<bool> {
        tree.truth()
    }
}

/// A list of parts of one kind.
impl<'a, T: Part<'a>> Part<'a> for Vec<T> {
    ghost use Rattle.std.specs.Prelude.{List};

    ghost Seen = { List T.Seen };

    ghost seen = { λ list. map T.seen list.items };

    ghost meant = { list_in T.meant };

    fn read(alloc: Global, tree: &Tree<'_, 'a>) -> Option<Vec<T>> {
        read_list::<T>(alloc, tree)
    }
}

/// A copy of a text.
pub(crate) fn owned(alloc: Global, text: &str) -> Option<String>
    ensures { IfSome result (λ copy. string_bytes copy ≡ text.now) }
{
    match String::from_str(alloc, text) {
        Ok(copy) => Some(copy),
        Err(_) => None,
    }
}

/// The list of an array.
pub(crate) fn read_list<'a, T: Part<'a>>(alloc: Global, tree: &Tree<'_, 'a>) -> Option<Vec<T>>
    ensures { IfSome result (λ list. list_in T.meant (data_of tree.now) ≡ Some (map T.seen list.items)) }
{
    let items = tree.items()?;
    read_each(alloc, items)
}

/// Each item, in order.
pub(crate) fn read_each<'a, T: Part<'a>>(alloc: Global, items: Trees<'_, 'a>) -> Option<Vec<T>>
    ensures { (held : SpecItems) → HoldsItems items.entry held
        → IfSome result (λ list. each_of T.meant held ≡ Some (map T.seen list.items)) }
{
    let mut items = items;
    let mut list = Vec::new(alloc);
    while let Some(item) = items.next() {
        let part = T::read(alloc, &item)?;
        add(&mut list, part)?;
    }
    Some(list)
}

/// Adds a part at the end of a list.
pub(crate) fn add<T: Drop>(list: &mut Vec<T>, part: T) -> Option<()>
    ensures { OnSome result (list.new.items ≡ list.old.items ++ part ∷ []) }
{
    match list.push(part) {
        Ok(()) => Some(()),
        Err(_) => None,
    }
}

/// The member of this name, which must be there.
pub(crate) fn required_member<'t, 'a>(object: &Tree<'t, 'a>, name: &str) -> Option<Tree<'t, 'a>>
    ensures { IfSome result (λ tree. the_member name.now (members_of object.now) ≡ Some (data_of tree)) }
{
    object.member(name)
}

/// The text of a member, which must be there.
pub(crate) fn text_of<'a>(member: &Option<Tree<'_, 'a>>) -> Option<&'a str>
    ensures { IfSome result (λ text. option_and_then as_str (option_map data_of member.now) ≡ Some text.now) }
{
    match member {
        Some(tree) => tree.text(),
        None => None,
    }
}

/// The text of this name, which must be there.
pub(crate) fn required_text<'a>(object: &Tree<'_, 'a>, name: &str) -> Option<&'a str>
    ensures { IfSome result (λ text. required as_str name.now (members_of object.now) ≡ Some text.now) }
{
    let tree = required_member(object, name)?;
    tree.text()
}

/// A position: a pair of whole numbers, or a text of decimal degrees.
pub(crate) fn read_position(tree: &Tree<'_, '_>) -> Option<(i64, i64)>
    ensures { IfSome result (λ position. position_in (data_of tree.now) ≡ Some position) }
{
    match tree.text() {
        Some(text) => GeoPoint::decimal(text.as_bytes()),
        None => read_pair(tree),
    }
}

/// A latitude and a longitude, each a whole number.
fn read_pair(tree: &Tree<'_, '_>) -> Option<(i64, i64)>
    ensures { IfSome result (λ position. pair_in (data_of tree.now) ≡ Some position) }
{
    let mut items = tree.items()?;
    let first = items.next()?;
    let second = items.next()?;
    let lat = first.whole()?;
    let lon = second.whole()?;
    match items.next() {
        Some(_) => None,
        None => Some((lat, lon)),
    }
}

/// The part of this name, which must be there.
pub(crate) fn required<'a, T: Part<'a>>(
    alloc: Global,
    object: &Tree<'_, 'a>,
    name: &str,
) -> Option<T>
    ensures { IfSome result (λ part. required T.meant name.now (members_of object.now) ≡ Some (T.seen part)) }
{
    let tree = required_member(object, name)?;
    T::read(alloc, &tree)
}

/// The part of this name. `Some(None)` if there is none.
pub(crate) fn optional<'a, T: Part<'a>>(
    alloc: Global,
    object: &Tree<'_, 'a>,
    name: &str,
) -> Option<Option<T>>
    ensures { IfSome result (λ found. optional T.meant name.now (members_of object.now) ≡ Some (option_map T.seen found)) }
{
    match object.member(name) {
        Some(tree) => Some(Some(T::read(alloc, &tree)?)),
        None => Some(None),
    }
}

/// The part of this name, or the default if there is none.
pub(crate) fn defaulting<'a, T: Part<'a>>(
    alloc: Global,
    object: &Tree<'_, 'a>,
    name: &str,
    default: T,
) -> Option<T>
    ensures { IfSome result (λ part. defaulting T.meant (T.seen default) name.now (members_of object.now) ≡ Some (T.seen part)) }
{
    match object.member(name) {
        Some(tree) => T::read(alloc, &tree),
        None => Some(default),
    }
}
