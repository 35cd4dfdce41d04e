//! Codes 10, 11 and 12: parts that do not go together, and parts that are too large.
use crate::counts::at_most;
use crate::object::Object;
use crate::regions::too_many_regions;
use crate::stop::{Stop, found};
use crate::texts::id;
use lost_mapping::{MAX_DISPLAY_NAME_BYTES, MAX_DISPLAY_NAMES};
use serde_json::Value;
use std::alloc::Global;

/// Whether a mapping is a default.
fn is_default(mapping: &Object<'_>) -> bool {
    match mapping.member("default") {
        Some(value) => value.as_bool() == Some(true),
        None => false,
    }
}

/// Why a mapping has no region, or a default has one.
pub(crate) fn missing(mapping: &Object<'_>) -> Result<(), Stop> {
    let words = if is_default(mapping) {
        "serviceBoundary: a default has no region"
    } else {
        "serviceBoundary: it has no region, and default is not true"
    };
    Err(found(String::from_str(mapping.alloc, words)))
}

/// Which part of a mapping is too large.
pub(crate) fn too_large(mapping: &Object<'_>) -> Result<(), Stop> {
    let alloc = mapping.alloc;
    too_many_regions(mapping)?;
    let names = mapping.optional_list("displayName", "a list of objects")?;
    at_most(
        alloc,
        "displayName",
        "names",
        names.len(),
        MAX_DISPLAY_NAMES,
    )?;
    for (place, item) in names.iter().enumerate() {
        display_name(alloc, place, item)?;
    }
    Ok(())
}

/// Which text of a display name is too long.
fn display_name(alloc: Global, place: usize, item: &Value) -> Result<(), Stop> {
    let object = Object::of(alloc, "displayName", item)?;
    for member in ["lang", "text"] {
        if object.required_text(member)?.len() > MAX_DISPLAY_NAME_BYTES {
            return Err(found(format!(in alloc;
                "displayName[{place}].{member}: it has more than {MAX_DISPLAY_NAME_BYTES} bytes"
            )));
        }
    }
    Ok(())
}

/// Why the key of a mapping is refused.
pub(crate) fn key(mapping: &Object<'_>) -> Result<(), Stop> {
    let words = match mapping.text("key") {
        Some(_) if is_default(mapping) => "key: a default has none",
        Some(text) => return id(mapping.alloc, "key", text),
        None => "key: it is missing, and default is not true",
    };
    Err(found(String::from_str(mapping.alloc, words)))
}
