//! Code 7: the list of URIs.
use crate::quoting::quoted;
use crate::stop::{Stop, found};
use lost_mapping::{MAX_URI_BYTES, MAX_URIS};
use serde_json::Value;
use std::alloc::Global;

/// Why the URIs of a mapping are refused.
pub(crate) fn uris(alloc: Global, items: &[Value]) -> Result<(), Stop> {
    let count = items.len();
    if count == 0 {
        return Err(found(format!(in alloc; "uri: the list is empty")));
    }
    if count > MAX_URIS {
        return Err(found(format!(in alloc;
            "uri: there are {count}, and at most {MAX_URIS} are allowed"
        )));
    }
    for (place, item) in items.iter().enumerate() {
        uri(alloc, place, item.as_str().unwrap_or(""))?;
    }
    repeated(alloc, items)
}

/// Why a text is no URI.
fn uri(alloc: Global, place: usize, text: &str) -> Result<(), Stop> {
    let why = if text.len() > MAX_URI_BYTES {
        "it has more than 2048 bytes"
    } else if !text.as_bytes().iter().all(|byte| byte.is_ascii_graphic()) {
        "it has a space, a control character or one that is not ASCII"
    } else if !has_scheme(text) {
        "it does not begin with a scheme and a colon, as sip:"
    } else if text.ends_with(":") && scheme_of(text).len().saturating_add(1) == text.len() {
        "nothing stands behind the colon"
    } else {
        return Ok(());
    };
    let shown = quoted(alloc, text)?;
    Err(found(format!(in alloc; "uri[{place}]: {shown}: {why}")))
}

/// The text before the first colon, or the whole text if it has none.
fn scheme_of(text: &str) -> &str {
    match text.split_once(":") {
        Some((scheme, _)) => scheme,
        None => text,
    }
}

/// Whether a text has a colon, and a scheme before it.
fn has_scheme(text: &str) -> bool {
    let scheme = scheme_of(text).as_bytes();
    match scheme.first() {
        Some(first) => {
            scheme.len() < text.len()
                && first.is_ascii_alphabetic()
                && scheme.iter().all(|byte| is_scheme_byte(*byte))
        }
        None => false,
    }
}

fn is_scheme_byte(byte: u8) -> bool {
    byte.is_ascii_alphanumeric() || byte == b'+' || byte == b'-' || byte == b'.'
}

/// The first scheme that repeats an earlier URI's, in any case.
fn repeated(alloc: Global, items: &[Value]) -> Result<(), Stop> {
    for (place, item) in items.iter().enumerate() {
        let scheme = scheme_of(item.as_str().unwrap_or(""));
        if items
            .iter()
            .take(place)
            .any(|other| has_same_scheme(other, scheme))
        {
            let shown = quoted(alloc, scheme)?;
            return Err(found(format!(in alloc;
                "uri[{place}]: a second one of the scheme {shown}"
            )));
        }
    }
    Ok(())
}

fn has_same_scheme(item: &Value, scheme: &str) -> bool {
    match item.as_str() {
        Some(text) => scheme_of(text).eq_ignore_ascii_case(scheme),
        None => false,
    }
}
