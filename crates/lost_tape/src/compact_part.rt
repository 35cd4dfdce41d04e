//! Parts of a compact line: a value at the front of a text, and what follows it (own format).
ghost use Rattle.std.specs.Prelude.{◌≡◌, ◌++◌, ◌∷◌, ◌≤◌, IfSome, map, length};
ghost use Rattle.std.specs.Str.{IsUtf8};
ghost use Rattle.lost_writing.specs.FoundLine.{IsPlain};
ghost use Rattle.lost_tape.specs.Values.{IsPartBefore, IsListBefore};

use crate::compact::{after, split_plain, utf8_of};
use crate::numbers::read_number;
use crate::part::{Part, add, owned};
use std::alloc::Global;

/// A part that is read from the front of a text as well.
pub(crate) trait CompactPart<'a>: Part<'a> {
    ghost use Rattle.std.specs.Prelude.{ℕ};

    // How deep the value nests at most.
    ghost DEEP: { ℕ };

    /// Reads the value that the text begins with, and gives what follows it. `None` says nothing about the text.
    fn read_front(alloc: Global, text: &[u8]) -> Option<(Self, &[u8])>
        ensures { IfSome result (λ found. IsPartBefore DEEP Self.meant text.now (Self.seen found.0) found.1.now) };
}

impl<'a> CompactPart<'a> for String {
    ghost DEEP = { 0 };

    fn read_front(alloc: Global, text: &[u8]) -> Option<(String, &[u8])> {
        let (text, rest) = read_text(text)?;
        Some((owned(alloc, text)?, rest))
    }
}

impl<'a> CompactPart<'a> for (i64, i64) {
    ghost DEEP = { 1 };

    fn read_front(_alloc: Global, text: &[u8]) -> Option<((i64, i64), &[u8])> {
        let rest = after(text, b"[")?;
        let (lat, rest) = read_number(rest)?;
        let rest = after(rest, b",")?;
        let (lon, rest) = read_number(rest)?;
        let rest = after(rest, b"]")?;
        Some(((lat, lon), rest))
    }
}

/// The text that stands between quotes as it is, and what follows it.
pub(crate) fn read_text(text: &[u8]) -> Option<(&str, &[u8])>
    ensures text { IfSome result (λ found. text.now ≡ 34 ∷ (found.0.now ++ 34 ∷ found.1.now)) }
    ensures plain { IfSome result (λ found. IsPlain found.0.now) }
{
    let rest = after(text, b"\"")?;
    let (plain, rest) = split_plain(rest);
    let rest = after(rest, b"\"")?;
    Some((utf8_of(plain)?, rest))
}

/// A list of parts of one kind, at least one, and what follows it.
pub(crate) fn read_front_list<'a, T: CompactPart<'a>>(
    alloc: Global,
    text: &[u8],
) -> Option<(Vec<T>, &[u8])>
    ensures { IfSome result (λ found. IsListBefore T.DEEP T.meant text.now (map T.seen found.0.items) found.1.now) }
{
    let mut list = Vec::with_capacity(alloc, 1).ok()?;
    let mut rest = after(text, b"[")?;
    loop {
        let (part, behind) = T::read_front(alloc, rest)?;
        add(&mut list, part)?;
        match behind.split_first() {
            Some((b',', more)) => rest = more,
            Some((b']', end)) => return Some((list, end)),
            _ => return None,
        }
    }
}
