//! Code 1: a value that is no object, a missing member, and a member of another kind, in the order of the checks.
use crate::object::Object;
use crate::stop::Stop;
use serde_json::Value;
use std::alloc::Global;

/// The texts that a mapping must have, in the order of the checks.
const REQUIRED_TEXTS: [&str; 5] = ["source", "sourceId", "lastUpdated", "expires", "service"];

/// The texts that a withdrawal must have, in the order of the checks.
const WITHDRAWAL_TEXTS: [&str; 3] = ["source", "sourceId", "lastUpdated"];

/// Looks for code 1 in the desk line of this name.
pub(crate) fn bad_line(alloc: Global, name: &str, value: &Value) -> Result<(), Stop> {
    let object = Object::of(alloc, name, value)?;
    if name == "withdraw" {
        have_texts(&object, &WITHDRAWAL_TEXTS)
    } else if name == "commit" {
        Ok(())
    } else {
        bad_mapping(&object)
    }
}

/// Looks for code 1 in a mapping.
fn bad_mapping(mapping: &Object<'_>) -> Result<(), Stop> {
    have_texts(mapping, &REQUIRED_TEXTS)?;
    let uris = mapping.required_list("uri", "a list of texts")?;
    mapping.are_texts("uri", uris)?;
    let _number = mapping.optional_text("serviceNumber")?;
    let _regions = mapping.optional_list("serviceBoundary", "a list of regions")?;
    mapping.optional_truth("default")?;
    bad_display_names(mapping)?;
    let _key = mapping.optional_text("key")?;
    Ok(())
}

fn have_texts(object: &Object<'_>, names: &[&str]) -> Result<(), Stop> {
    for name in names {
        let _text = object.required_text(name)?;
    }
    Ok(())
}

/// Looks for code 1 in the display names of a mapping.
fn bad_display_names(mapping: &Object<'_>) -> Result<(), Stop> {
    let items = mapping.optional_list("displayName", "a list of objects")?;
    let owner = mapping.name;
    for (place, item) in items.iter().enumerate() {
        let name = format!(in mapping.alloc; "{owner}.displayName[{place}]")?;
        let object = Object::of(mapping.alloc, name.as_str(), item)?;
        have_texts(&object, &["lang", "text"])?;
    }
    Ok(())
}
