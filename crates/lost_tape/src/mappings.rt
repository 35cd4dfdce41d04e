//! The mapping that a map desk hands in (RFC 5222, section 5).
ghost use Rattle.std.specs.Prelude.{◌≡◌, Some, Ok, IfSome, string_bytes};
ghost use Rattle.lost_spec.specs.Book as book;
ghost use Rattle.lost_spec.specs.Mapping as spec;
ghost use Rattle.lost_mapping.specs.Parts.{display_name_of, parts_of};
ghost use Rattle.lost_reading.specs.Desk.{Stage, display_name_of_members, parts_with_texts, parts_of_members, mapping_order};
ghost use Rattle.lost_tape.specs.Tapes.{data_of, members_of};
ghost use Rattle.lost_tape.specs.Values.{IsMappingOf};

use crate::part::{Part, defaulting, optional, required};
use crate::tree::Tree;
use lost_mapping::{DisplayName, Mapping, Parts, Region};
use lost_writing::prepare;
use std::alloc::Global;

/// The mapping of an object, if no part is refused.
pub(crate) fn read_mapping(alloc: Global, object: &Tree<'_, '_>) -> Option<Mapping>
    ensures { IfSome result (λ mapping. (edit : spec.Mapping → book.Edit)
        → mapping_order edit (parts_of_members (members_of object.now)) ≡ Ok (Stage (edit mapping))) }
{
    let parts = read_parts(alloc, object)?;
    build(alloc, parts)
}

/// The mapping of parts, if none is refused. It keeps the text that replies show of it.
pub(crate) fn build(alloc: Global, parts: Parts) -> Option<Mapping>
    ensures { IfSome result (λ mapping. IsMappingOf (parts_of parts) mapping) }
{
    match Mapping::build(alloc, parts) {
        Ok(mapping) => prepared(alloc, mapping),
        Err(_) => None,
    }
}

/// The same mapping, with its text.
fn prepared(alloc: Global, mapping: Mapping) -> Option<Mapping>
    ensures { IfSome result (λ prepared. prepared ≡ mapping) }
{
    match prepare(alloc, mapping) {
        Ok(prepared) => Some(prepared),
        Err(_) => None,
    }
}

/// The parts of a mapping.
fn read_parts(alloc: Global, object: &Tree<'_, '_>) -> Option<Parts>
    ensures { IfSome result (λ parts. parts_of_members (members_of object.now) ≡ Some (parts_of parts)) }
{
    let source = required::<String>(alloc, object, "source")?;
    let source_id = required::<String>(alloc, object, "sourceId")?;
    let last_updated = required::<String>(alloc, object, "lastUpdated")?;
    let expires = required::<String>(alloc, object, "expires")?;
    let service = required::<String>(alloc, object, "service")?;
    read_parts_with(
        alloc,
        object,
        source,
        source_id,
        last_updated,
        expires,
        service,
    )
}

/// The parts of a mapping whose required texts were read.
fn read_parts_with(
    alloc: Global,
    object: &Tree<'_, '_>,
    source: String,
    source_id: String,
    last_updated: String,
    expires: String,
    service: String,
) -> Option<Parts>
    ensures { IfSome result (λ parts.
        parts_with_texts (string_bytes source) (string_bytes source_id) (string_bytes last_updated) (string_bytes expires)
        (string_bytes service) (members_of object.now) ≡ Some (parts_of parts)) }
{
    Some(Parts {
        source,
        source_id,
        last_updated,
        expires,
        service,
        uris: required::<Vec<String>>(alloc, object, "uri")?,
        number: optional::<String>(alloc, object, "serviceNumber")?,
        regions: defaulting(alloc, object, "serviceBoundary", Vec::<Region>::new(alloc))?,
        is_default: defaulting(alloc, object, "default", false)?,
        display_names: defaulting(alloc, object, "displayName", Vec::<DisplayName>::new(alloc))?,
        key: optional::<String>(alloc, object, "key")?,
    })
}

impl<'a> Part<'a> for DisplayName {
    ghost use Rattle.lost_spec.specs.Mapping as spec;
    ghost use Rattle.lost_reading.specs.Desk.{display_name_in};

    ghost Seen = { spec.DisplayName };

    ghost seen = { display_name_of };

    ghost meant = { display_name_in };

    fn read(alloc: Global, tree: &Tree<'_, 'a>) -> Option<DisplayName> {
        if tree.is_object() {
            read_display_name(alloc, tree)
        } else {
            None
        }
    }
}

/// The display name of an object.
fn read_display_name(alloc: Global, object: &Tree<'_, '_>) -> Option<DisplayName>
    ensures { IfSome result (λ name. display_name_of_members (members_of object.now) ≡ Some (display_name_of name)) }
{
    Some(DisplayName {
        lang: required::<String>(alloc, object, "lang")?,
        text: required::<String>(alloc, object, "text")?,
    })
}
