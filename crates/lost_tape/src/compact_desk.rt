//! The desk lines that are sent most, read in one pass: a mapping with a key and regions, perhaps with a number, as
//! compact JSON (RFC 5222, section 5; own format).
ghost use Rattle.std.specs.Prelude.{◌≡◌, Some, Ok, IfSome, option_map, string_bytes};
ghost use Rattle.std.specs.Option.{option_copied};
ghost use Rattle.json.specs.Json as json;
ghost use Rattle.lost_spec.specs.Text.{Text};
ghost use Rattle.lost_mapping.specs.Parts.{parts_of};
ghost use Rattle.lost_mapping.specs.Texts.{texts_of};
ghost use Rattle.lost_location.specs.Region.{regions_of};
ghost use Rattle.lost_reading.specs.Desk.{desk_line};
ghost use Rattle.lost_reading.specs.DeskLines.{order_of};
ghost use Rattle.lost_tape.specs.Values.{AreMembersBehind, AreMembersFirst, with_head, with_number, with_tail, compact_parts, IsMappingText};

use crate::compact::{after, utf8_of};
use crate::compact_part::{read_front_list, read_text};
use crate::mappings::build;
use crate::part::owned;
use lost_location::Region;
use lost_mapping::{DisplayName, Edit, Mapping, Parts};
use lost_reading::DeskLine;
use std::alloc::Global;

/// What stands before the members of a mapping to publish.
const BEFORE_PUBLISHED: &[u8; 12] = b"{\"publish\":{";

/// What stands before the members of a mapping to replace another one.
const BEFORE_REPLACING: &[u8; 12] = b"{\"replace\":{";

/// The texts of a mapping before its regions.
#[derive(Drop)]
pub(crate) struct Head<'a> {
    pub(crate) expires: &'a str,
    pub(crate) key: &'a str,
    pub(crate) last_updated: &'a str,
    pub(crate) service: &'a str,
}

/// The texts of a mapping between its regions and its URIs.
#[derive(Drop)]
pub(crate) struct Tail<'a> {
    pub(crate) number: Option<&'a str>,
    pub(crate) source: &'a str,
    pub(crate) source_id: &'a str,
}

/// Reads a compact line that publishes or replaces a mapping and is not refused: the members in the order of their
/// names, no space and no escape. `None` says nothing of the line.
pub(crate) fn read_compact_desk(alloc: Global, line: &[u8]) -> Option<DeskLine>
    ensures { IfSome result (λ found. desk_line line.now ≡ Some (Ok (order_of found))) }
{
    let text = utf8_of(line)?.as_bytes();
    match after(text, BEFORE_PUBLISHED) {
        Some(rest) => Some(DeskLine::Edit(Edit::Publish(read_members(alloc, rest)?))),
        None => {
            let rest = after(text, BEFORE_REPLACING)?;
            Some(DeskLine::Edit(Edit::Replace(read_members(alloc, rest)?)))
        }
    }
}

/// The mapping of these members, up to the end of the line.
fn read_members(alloc: Global, text: &[u8]) -> Option<Mapping>
    ensures { IfSome result (λ mapping. IsMappingText text.now mapping) }
{
    let (head, rest) = read_head(text)?;
    let rest = after(rest, b",\"serviceBoundary\":")?;
    let (regions, rest) = read_front_list::<Region>(alloc, rest)?;
    let (tail, rest) = read_tail(rest)?;
    let rest = after(rest, b",\"uri\":")?;
    let (uris, rest) = read_front_list::<String>(alloc, rest)?;
    if rest != b"}}".as_slice() {
        return None;
    }
    let parts = parts_with(alloc, &head, regions, &tail, uris)?;
    build(alloc, parts)
}

/// The members before the regions, and what follows them.
fn read_head(text: &[u8]) -> Option<(Head<'_>, &[u8])>
    ensures { IfSome result (λ found. (members : json.Members) (end : Text)
        → AreMembersBehind found.1.now members end → AreMembersFirst text.now (with_head found.0 members) end) }
{
    let (expires, rest) = read_text(after(text, b"\"expires\":")?)?;
    let (key, rest) = read_text(after(rest, b",\"key\":")?)?;
    let (last_updated, rest) = read_text(after(rest, b",\"lastUpdated\":")?)?;
    let (service, rest) = read_text(after(rest, b",\"service\":")?)?;
    let head = Head {
        expires,
        key,
        last_updated,
        service,
    };
    Some((head, rest))
}

/// The members between the regions and the URIs, and what follows them.
fn read_tail(text: &[u8]) -> Option<(Tail<'_>, &[u8])>
    ensures { IfSome result (λ found. (members : json.Members) (end : Text)
        → AreMembersBehind found.1.now members end → AreMembersBehind text.now (with_tail found.0 members) end) }
{
    let (number, rest) = read_number(text)?;
    let (source, rest) = read_text(after(rest, b",\"source\":")?)?;
    let (source_id, rest) = read_text(after(rest, b",\"sourceId\":")?)?;
    let tail = Tail {
        number,
        source,
        source_id,
    };
    Some((tail, rest))
}

/// The number to dial, if the text begins with it, and what follows it.
fn read_number(text: &[u8]) -> Option<(Option<&str>, &[u8])>
    ensures { IfSome result (λ found. (members : json.Members) (end : Text)
        → AreMembersBehind found.1.now members end → AreMembersBehind text.now (with_number (option_copied found.0) members) end) }
{
    match after(text, b",\"serviceNumber\":") {
        Some(rest) => {
            let (number, rest) = read_text(rest)?;
            Some((Some(number), rest))
        }
        None => Some((None, text)),
    }
}

/// The parts of a mapping with these texts.
fn parts_with(
    alloc: Global,
    head: &Head<'_>,
    regions: Vec<Region>,
    tail: &Tail<'_>,
    uris: Vec<String>,
) -> Option<Parts>
    ensures { IfSome result (λ parts. parts_of parts ≡ compact_parts head.now (regions_of regions.items) tail.now (texts_of uris.items)) }
{
    Some(Parts {
        source: owned(alloc, tail.source)?,
        source_id: owned(alloc, tail.source_id)?,
        last_updated: owned(alloc, head.last_updated)?,
        expires: owned(alloc, head.expires)?,
        service: owned(alloc, head.service)?,
        uris,
        number: number_of(alloc, tail.number)?,
        regions,
        is_default: false,
        display_names: Vec::<DisplayName>::new(alloc),
        key: Some(owned(alloc, head.key)?),
    })
}

/// A copy of the number to dial, if there is one.
fn number_of(alloc: Global, number: Option<&str>) -> Option<Option<String>>
    ensures { IfSome result (λ copy. option_map string_bytes copy ≡ option_copied number.entry) }
{
    match number {
        Some(number) => Some(Some(owned(alloc, number)?)),
        None => Some(None),
    }
}
