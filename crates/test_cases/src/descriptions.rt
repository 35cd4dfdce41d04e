//! Mappings as cases describe them: a sourceId, and then changes, each after a `;`. Without changes, a mapping is the
//! police of `map.example`, of 2025-12-01, without end and without a region. Its URI and key come from the sourceId.
use crate::case_error::CaseError;
use crate::gathered::joined;
use crate::words::{number_pair, number_pairs, owned, text_pairs, texts};
use lost_mapping::{DisplayName, Mapping, MappingError, Parts, Region};
use std::alloc::Global;

/// The changes that make the mapping without changes.
const POLICE: &str =
    "source=map.example;stamp=2025-12-01T00:00:00Z;expires=NO-EXPIRATION;service=urn:service:sos.police";

/// The mapping that a description makes.
pub(crate) fn mapping(alloc: Global, description: &str) -> Result<Mapping, CaseError> {
    match Mapping::build(alloc, parts(alloc, description)?) {
        Ok(mapping) => Ok(mapping),
        Err(MappingError::Memory) => Err(CaseError::Memory),
        Err(_) => Err(CaseError::NoCase),
    }
}

/// The parts of a description.
pub(crate) fn parts(alloc: Global, description: &str) -> Result<Parts, CaseError> {
    let mut parts = no_parts(alloc);
    describe(alloc, &mut parts, description)?;
    Ok(parts)
}

/// Parts without texts and without lists.
fn no_parts(alloc: Global) -> Parts {
    Parts {
        source: String::new(alloc),
        source_id: String::new(alloc),
        last_updated: String::new(alloc),
        expires: String::new(alloc),
        service: String::new(alloc),
        uris: Vec::new(alloc),
        number: None,
        regions: Vec::new(alloc),
        is_default: false,
        display_names: Vec::new(alloc),
        key: None,
    }
}

/// Makes empty parts those of a description.
fn describe(alloc: Global, parts: &mut Parts, description: &str) -> Result<(), CaseError> {
    let (source_id, changes) = description.split_once(';').unwrap_or((description, ""));
    set_names(alloc, parts, source_id)?;
    make_changes(alloc, parts, POLICE)?;
    make_changes(alloc, parts, changes)
}

/// Sets the sourceId, the URI and the key.
fn set_names(alloc: Global, parts: &mut Parts, source_id: &str) -> Result<(), CaseError> {
    let uri = joined(alloc, &["sip:", source_id, "@map.example"])?;
    parts.uris.push(uri)?;
    parts.key = Some(joined(alloc, &[source_id, "-1"])?);
    set(alloc, &mut parts.source_id, source_id)
}

fn make_changes(alloc: Global, parts: &mut Parts, changes: &str) -> Result<(), CaseError> {
    for change in changes.split(';') {
        if !change.is_empty() {
            make_change(alloc, parts, change)?;
        }
    }
    Ok(())
}

/// Makes a change `NAME=VALUE` or `NAME`.
fn make_change(alloc: Global, parts: &mut Parts, change: &str) -> Result<(), CaseError> {
    let (name, value) = change.split_once('=').unwrap_or((change, ""));
    match name {
        "source" => set(alloc, &mut parts.source, value),
        "stamp" => set(alloc, &mut parts.last_updated, value),
        "expires" => set(alloc, &mut parts.expires, value),
        "service" => set(alloc, &mut parts.service, value),
        "number" => set_some(alloc, &mut parts.number, value),
        "key" => set_some(alloc, &mut parts.key, value),
        "no key" => {
            parts.key = None;
            Ok(())
        }
        "default" => {
            parts.is_default = true;
            Ok(())
        }
        _ => change_list(alloc, parts, name, value),
    }
}

fn set(alloc: Global, text: &mut String, value: &str) -> Result<(), CaseError> {
    *text = owned(alloc, value)?;
    Ok(())
}

fn set_some(alloc: Global, text: &mut Option<String>, value: &str) -> Result<(), CaseError> {
    *text = Some(owned(alloc, value)?);
    Ok(())
}

/// Makes a change of a list.
fn change_list(alloc: Global, parts: &mut Parts, name: &str, value: &str) -> Result<(), CaseError> {
    match name {
        "no uri" => {
            parts.uris = Vec::new(alloc);
            Ok(())
        }
        "uri" => Ok(parts.uris.push(owned(alloc, value)?)?),
        "name" => Ok(parts.display_names.push(display_name(alloc, value)?)?),
        _ => Ok(parts.regions.push(region(alloc, name, value)?)?),
    }
}

/// The region of a change.
fn region(alloc: Global, name: &str, value: &str) -> Result<Region, CaseError> {
    match name {
        "ring" => Ok(Region::Ring(number_pairs(alloc, value)?)),
        "square" => square(alloc, value),
        "pattern" => Ok(Region::Pattern(text_pairs(alloc, value, ',')?)),
        "tokens" => Ok(Region::Tokens(texts(alloc, value)?)),
        "unreadable" => Ok(Region::Unreadable),
        _ => Err(CaseError::NoCase),
    }
}

/// The name of `LANGUAGE:TEXT`.
fn display_name(alloc: Global, value: &str) -> Result<DisplayName, CaseError> {
    let Some((lang, text)) = value.split_once(':') else {
        return Err(CaseError::NoCase);
    };
    Ok(DisplayName {
        lang: owned(alloc, lang)?,
        text: owned(alloc, text)?,
    })
}

/// The ring from a south-west corner to a north-east one.
fn square(alloc: Global, value: &str) -> Result<Region, CaseError> {
    let Some((low, high)) = value.split_once(' ') else {
        return Err(CaseError::NoCase);
    };
    let ((south, west), (north, east)) = (number_pair(low)?, number_pair(high)?);
    let positions = [
        (south, west),
        (south, east),
        (north, east),
        (north, west),
        (south, west),
    ];
    Ok(Region::Ring(Vec::from_slice(alloc, &positions)?))
}
