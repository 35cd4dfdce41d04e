//! Code 9: civic patterns.
use crate::object::Object;
use crate::quoting::quoted;
use crate::stop::{Stop, found};
use lost_civic::{Element, MAX_TEXT_BYTES};
use serde_json::Value;
use std::alloc::Global;

/// Why the pattern of a region is refused.
pub(crate) fn pattern(region: &Object<'_>) -> Result<(), Stop> {
    let alloc = region.alloc;
    let owner = region.name;
    let value = region.required("pattern")?;
    let Some(members) = value.as_object() else {
        return Err(region.wanted("pattern", "an object of texts"));
    };
    for (name, value) in members.iter() {
        element(alloc, owner, name.as_str(), value)?;
    }
    if members.is_empty() {
        return Err(found(format!(in alloc; "{owner}.pattern: it has no element")));
    }
    Ok(())
}

/// Why a member of a pattern is refused.
fn element(alloc: Global, owner: &str, name: &str, value: &Value) -> Result<(), Stop> {
    let Some(text) = value.as_str() else {
        let shown = quoted(alloc, name)?;
        return Err(found(format!(in alloc;
            "{owner}.pattern: the value of {shown} must be a text"
        )));
    };
    if Element::by_name(name).is_none() {
        return Err(unknown(alloc, owner, name));
    }
    if text.len() > MAX_TEXT_BYTES {
        return Err(found(format!(in alloc;
            "{owner}.pattern: the value of {name} has more than {MAX_TEXT_BYTES} bytes"
        )));
    }
    Ok(())
}

/// A name is of no element. It may be one in another case.
fn unknown(alloc: Global, owner: &str, name: &str) -> Stop {
    let Ok(shown) = quoted(alloc, name) else {
        return Stop::Memory;
    };
    for element in Element::ALL {
        let known = element.name();
        if known.eq_ignore_ascii_case(name) {
            return found(format!(in alloc;
                "{owner}.pattern: {shown} is no civic element, and {known} is one"
            ));
        }
    }
    found(format!(in alloc; "{owner}.pattern: {shown} is no civic element"))
}
