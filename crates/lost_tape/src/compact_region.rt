//! Regions of a compact line (RFC 5222, section 5.5; own format).
ghost use Rattle.std.specs.Prelude.{◌++◌, IfSome};
ghost use Rattle.lost_location.specs.Region.{region_of};
ghost use Rattle.lost_writing.specs.Named.{named_members};
ghost use Rattle.lost_tape.specs.Values.{IsPartBefore, AreNamedBefore, before_polygon, region_kind};

use crate::addresses::{copy_pairs, put};
use crate::compact::after;
use crate::compact_part::{CompactPart, read_front_list, read_text};
use lost_location::Region;
use std::alloc::Global;
use std::collections::BTreeMap;

/// What stands before the positions of a ring.
const BEFORE_POLYGON: &[u8; 11] = b"{\"polygon\":";

/// What stands behind them.
const AFTER_POLYGON: &[u8; 25] = b",\"profile\":\"geodetic-2d\"}";

/// What stands before the names and texts of a pattern.
const BEFORE_PATTERN: &[u8; 12] = b"{\"pattern\":{";

/// What stands behind them.
const AFTER_PATTERN: &[u8; 19] = b",\"profile\":\"civic\"}";

impl<'a> CompactPart<'a> for Region {
    ghost DEEP = { 3 };

    fn read_front(alloc: Global, text: &[u8]) -> Option<(Region, &[u8])> {
        match after(text, BEFORE_POLYGON) {
            Some(rest) => read_front_ring(alloc, rest),
            None => read_front_pattern(alloc, text),
        }
    }
}

/// A ring, by the text behind the name of its positions.
fn read_front_ring(alloc: Global, text: &[u8]) -> Option<(Region, &[u8])>
    ensures { IfSome result (λ found. IsPartBefore 3 region_kind (before_polygon ++ text.now) (region_of found.0) found.1.now) }
{
    let (positions, rest) = read_front_list::<(i64, i64)>(alloc, text)?;
    let rest = after(rest, AFTER_POLYGON)?;
    Some((Region::Ring(positions), rest))
}

/// A pattern.
fn read_front_pattern(alloc: Global, text: &[u8]) -> Option<(Region, &[u8])>
    ensures { IfSome result (λ found. IsPartBefore 3 region_kind text.now (region_of found.0) found.1.now) }
{
    let rest = after(text, BEFORE_PATTERN)?;
    let (named, rest) = read_named(alloc, rest)?;
    let rest = after(rest, AFTER_PATTERN)?;
    let pairs = copy_pairs(alloc, &named)?;
    Some((Region::Pattern(pairs), rest))
}

/// The texts of an object by their names, at least one, by what stands behind its bracket. If a name comes twice, its
/// last text stays.
fn read_named(alloc: Global, text: &[u8]) -> Option<(BTreeMap<&str, &str>, &[u8])>
    ensures { IfSome result (λ found. AreNamedBefore text.now (named_members found.0.entries) found.1.now) }
{
    let mut named = BTreeMap::new(alloc);
    let mut rest = text;
    loop {
        let (name, behind) = read_text(rest)?;
        let behind = after(behind, b":")?;
        let (value, behind) = read_text(behind)?;
        put(&mut named, name, value)?;
        match behind.split_first() {
            Some((b',', more)) => rest = more,
            Some((b'}', end)) => return Some((named, end)),
            _ => return None,
        }
    }
}
