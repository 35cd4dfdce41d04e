//! Locations of a request.
use crate::object::Object;
use crate::quoting::quoted;
use crate::stop::{Stop, found};
use lost_reading::MAX_LOCATIONS;
use serde_json::Value;
use std::alloc::Global;

/// Why the locations of a request are refused.
pub(crate) fn locations(request: &Object<'_>) -> Result<(), Stop> {
    let alloc = request.alloc;
    let owner = request.name;
    let items = request.required_list("location", "a list of locations")?;
    for (place, item) in items.iter().enumerate() {
        let name = format!(in alloc; "{owner}.location[{place}]")?;
        let object = Object::of(alloc, name.as_str(), item)?;
        let _id = object.required_text("id")?;
        let _profile = object.required_text("profile")?;
    }
    let count = items.len();
    if count == 0 || count > MAX_LOCATIONS {
        return Err(found(format!(in alloc;
            "{owner}.location: it has {count}, and 1 to {MAX_LOCATIONS} are wanted"
        )));
    }
    repeated(alloc, owner, items)
}

/// The first profile that repeats an earlier location's.
fn repeated(alloc: Global, owner: &str, items: &[Value]) -> Result<(), Stop> {
    for (place, item) in items.iter().enumerate() {
        let profile = profile_of(item);
        if items
            .iter()
            .take(place)
            .any(|other| profile_of(other) == profile)
        {
            let shown = quoted(alloc, profile)?;
            return Err(found(format!(in alloc;
                "{owner}.location[{place}]: a second one of the profile {shown}"
            )));
        }
    }
    Ok(())
}

fn profile_of(location: &Value) -> &str {
    match location.as_object() {
        Some(members) => match members.get("profile") {
            Some(profile) => profile.as_str().unwrap_or(""),
            None => "",
        },
        None => "",
    }
}
