//! The parts of a mapping that a map desk hands in (RFC 5222, section 5).
ghost use Rattle.std.specs.Prelude.{◌≡◌, string_bytes};
ghost use Rattle.serde_json.specs.View.{view, members_view};
ghost use Rattle.lost_mapping.specs.Parts.{display_name_of, parts_of};
ghost use Rattle.lost_reading.specs.Gives.{Gives};
ghost use Rattle.lost_reading.specs.Desk.{display_name_of_members, display_name_in, parts_with_texts, parts_of_members};

use crate::reading::{Kind, defaulting, optional, required};
use crate::request::ReadError;
use lost_mapping::{DisplayName, Parts, Region};
use serde_json::{Map, Value};
use std::alloc::Global;

/// The parts of a mapping, or `BadRequest` if a required member is missing or a member is of another kind.
pub(crate) fn read_parts(alloc: Global, members: &Map<String, Value>) -> Result<Parts, ReadError>
    ensures { Gives parts_of result (parts_of_members (members_view members.now.entries)) }
{
    let source = required::<String>(alloc, members, "source")?;
    let source_id = required::<String>(alloc, members, "sourceId")?;
    let last_updated = required::<String>(alloc, members, "lastUpdated")?;
    let expires = required::<String>(alloc, members, "expires")?;
    let service = required::<String>(alloc, members, "service")?;
    read_parts_with(
        alloc,
        members,
        source,
        source_id,
        last_updated,
        expires,
        service,
    )
}

/// The parts of a mapping whose required texts were read.
fn read_parts_with(
    alloc: Global,
    members: &Map<String, Value>,
    source: String,
    source_id: String,
    last_updated: String,
    expires: String,
    service: String,
) -> Result<Parts, ReadError>
    ensures { Gives parts_of result
        (parts_with_texts (string_bytes source) (string_bytes source_id) (string_bytes last_updated) (string_bytes expires)
        (string_bytes service) (members_view members.now.entries)) }
{
    Ok(Parts {
        source,
        source_id,
        last_updated,
        expires,
        service,
        uris: required::<Vec<String>>(alloc, members, "uri")?,
        number: optional::<String>(alloc, members, "serviceNumber")?,
        regions: defaulting(alloc, members, "serviceBoundary", Vec::<Region>::new(alloc))?,
        is_default: defaulting(alloc, members, "default", false)?,
        display_names: defaulting(
            alloc,
            members,
            "displayName",
            Vec::<DisplayName>::new(alloc),
        )?,
        key: optional::<String>(alloc, members, "key")?,
    })
}

impl Kind for DisplayName {
    ghost use Rattle.lost_spec.specs.Mapping as spec;

    ghost Seen = { spec.DisplayName };

    ghost seen = { display_name_of };

    ghost meant = { display_name_in };

    fn read(alloc: Global, value: &Value) -> Result<DisplayName, ReadError> {
        match value.as_object() {
            Some(members) => read_display_name(alloc, members),
            None => Err(ReadError::BadRequest),
        }
    }
}

/// The display name of an object.
fn read_display_name(alloc: Global, members: &Map<String, Value>) -> Result<DisplayName, ReadError>
    ensures { Gives display_name_of result (display_name_of_members (members_view members.now.entries)) }
{
    Ok(DisplayName {
        lang: required::<String>(alloc, members, "lang")?,
        text: required::<String>(alloc, members, "text")?,
    })
}
