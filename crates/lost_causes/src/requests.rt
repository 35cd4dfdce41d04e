//! Lines that are JSON, and neither a desk line nor a request.
use crate::json::tree;
use crate::locations::locations;
use crate::object::Object;
use crate::quoting::quoted;
use crate::stop::{Stop, found};
use crate::texts::service;
use lost_reading::{MAX_NAMES, by_value};
use serde_json::{Map, Value};
use std::alloc::Global;

/// The names that the one member of a line may have.
const NAMES: [&str; 8] = [
    "findService",
    "listServicesByLocation",
    "listServices",
    "getServiceBoundary",
    "publish",
    "replace",
    "withdraw",
    "commit",
];

/// Why a line is neither a desk line nor a request.
pub(crate) fn bad_request(alloc: Global, line: &[u8]) -> Result<(), Stop> {
    let tree = tree(alloc, line)?;
    let Some(members) = tree.as_object() else {
        return Err(found(String::from_str(alloc, "an object with one member is wanted")));
    };
    let count = members.len();
    if count != 1 {
        return Err(found(format!(in alloc;
            "an object with one member is wanted, and it has {count}"
        )));
    }
    one_member(alloc, members)
}

fn one_member(alloc: Global, members: &Map<String, Value>) -> Result<(), Stop> {
    for (name, value) in members.iter() {
        if !NAMES.iter().any(|known| *known == name.as_str()) {
            return Err(unknown(alloc, name.as_str()));
        }
        request(&Object::of(alloc, name.as_str(), value)?)?;
    }
    Ok(())
}

/// A name is of no line. It may be one in another case.
fn unknown(alloc: Global, name: &str) -> Stop {
    let Ok(shown) = quoted(alloc, name) else {
        return Stop::Memory;
    };
    for known in NAMES {
        if known.eq_ignore_ascii_case(name) {
            return found(format!(in alloc;
                "{shown} is neither a desk line nor a request, and {known} is one"
            ));
        }
    }
    found(format!(in alloc; "{shown} is neither a desk line nor a request"))
}

/// Why an object is no request of its name.
fn request(object: &Object<'_>) -> Result<(), Stop> {
    if object.name == "findService" {
        find_service(object)
    } else if object.name == "listServicesByLocation" {
        asked_service(object)?;
        locations(object)?;
        path(object)
    } else if object.name == "listServices" {
        asked_service(object)?;
        path(object)
    } else {
        let _key = object.required_text("key")?;
        path(object)
    }
}

/// Why an object is no `findService`.
fn find_service(object: &Object<'_>) -> Result<(), Stop> {
    let _service = object.required("service")?;
    asked_service(object)?;
    locations(object)?;
    object.optional_truth("validateLocation")?;
    preference(object)?;
    path(object)
}

/// Why the service of a request is refused, if it has one.
fn asked_service(object: &Object<'_>) -> Result<(), Stop> {
    let owner = object.name;
    match object.optional_text("service")? {
        Some(text) => {
            let name = format!(in object.alloc; "{owner}.service")?;
            service(object.alloc, name.as_str(), text)
        }
        None => Ok(()),
    }
}

/// Why a request does not say how it wants boundaries.
fn preference(object: &Object<'_>) -> Result<(), Stop> {
    match object.optional_text("serviceBoundary")? {
        Some(text) if by_value(text).is_none() => Err(object.wanted(
            "serviceBoundary",
            "\"reference\" or \"value\"",
        )),
        _ => Ok(()),
    }
}

/// Why the path of a request is refused.
fn path(object: &Object<'_>) -> Result<(), Stop> {
    let names = object.optional_list("path", "a list of texts")?;
    object.are_texts("path", names)?;
    let count = names.len();
    if count > MAX_NAMES {
        let owner = object.name;
        return Err(found(format!(in object.alloc;
            "{owner}.path: it has {count} names, and at most {MAX_NAMES} are allowed"
        )));
    }
    Ok(())
}
