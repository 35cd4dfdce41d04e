//! Codes 13 to 19, 21 and 22: the book's refusals of an edit.
use crate::object::Object;
use crate::quoting::quoted;
use crate::stop::{Stop, found};
use lost_book::{Register, has_key};
use lost_mapping::{Identity, Mapping};
use lost_query::Holdings;
use std::alloc::{AllocError, Global};

/// Why the book with the staged edits refuses an edit with this code.
pub(crate) fn book_refusal<B: Register + Holdings>(
    edit: &Object<'_>,
    code: u8,
    staged: &B,
) -> Result<(), Stop> {
    match code {
        18 => full(edit, staged),
        19 => spent(edit, staged),
        22 => traces_full(edit, staged),
        _ => match identity(edit)? {
            Some(identity) => against(edit, code, staged, &identity),
            None => Ok(()),
        },
    }
}

/// The identity of an edit's mapping.
fn identity(edit: &Object<'_>) -> Result<Option<Identity>, Stop> {
    let (Some(source), Some(source_id)) = (edit.text("source"), edit.text("sourceId")) else {
        return Ok(None);
    };
    if Identity::check(source, source_id).is_err() {
        return Ok(None);
    }
    match Identity::parse(edit.alloc, source, source_id) {
        Ok(identity) => Ok(Some(identity)),
        Err(_) => Err(Stop::Memory),
    }
}

/// Why the book refuses an edit of the mapping with this identity.
fn against<B: Register + Holdings>(
    edit: &Object<'_>,
    code: u8,
    staged: &B,
    identity: &Identity,
) -> Result<(), Stop> {
    let alloc = edit.alloc;
    let source = identity.source().text();
    let source_id = identity.source_id();
    match code {
        13 => Err(found(format!(in alloc; "{source} / {source_id} is held: send it as replace"))),
        14 => Err(found(format!(in alloc; "{source} / {source_id} is not held"))),
        15 => not_newer(edit, staged, identity),
        16 => key_held(edit, staged, identity),
        17 => key_unchanged(edit),
        21 => withdrawn(edit, staged, identity),
        _ => Ok(()),
    }
}

/// Code 15: the stamp is not after that of the held mapping.
fn not_newer<B: Register>(edit: &Object<'_>, staged: &B, identity: &Identity) -> Result<(), Stop> {
    let Some(held) = staged.held(identity) else {
        return Ok(());
    };
    let source = identity.source().text();
    let source_id = identity.source_id();
    let stamp = held.stamp().text();
    Err(found(format!(in edit.alloc;
        "lastUpdated: it is not after {stamp}, that of {source} / {source_id}"
    )))
}

/// Code 16: the key is that of another mapping.
fn key_held<B: Holdings>(edit: &Object<'_>, staged: &B, identity: &Identity) -> Result<(), Stop> {
    let Some(key) = edit.text("key") else {
        return Ok(());
    };
    let Some(held) = with_key(staged, identity, key) else {
        return Ok(());
    };
    let shown = quoted(edit.alloc, key)?;
    let source = held.identity().source().text();
    let source_id = held.identity().source_id();
    Err(found(format!(in edit.alloc; "key {shown} is that of {source} / {source_id}")))
}

/// The first mapping of another identity that has this key. It takes time in proportion to the held mappings.
fn with_key<'h, B: Holdings>(staged: &'h B, identity: &Identity, key: &str) -> Option<&'h Mapping> {
    for position in 0..staged.len() {
        let held = staged.mapping(position);
        if has_key(held, key) && held.identity() != identity {
            return Some(held);
        }
    }
    None
}

/// Code 17: the regions changed, and the key did not.
fn key_unchanged(edit: &Object<'_>) -> Result<(), Stop> {
    let Some(key) = edit.text("key") else {
        return Ok(());
    };
    let shown = quoted(edit.alloc, key)?;
    Err(found(format!(in edit.alloc;
        "the regions changed, and key {shown} did not: give a new key"
    )))
}

/// Code 18: the book holds as many mappings as it may.
fn full<B: Register>(edit: &Object<'_>, staged: &B) -> Result<(), Stop> {
    let count = staged.count();
    Err(found(format!(in edit.alloc; "{count} mappings are held, and no more may be")))
}

/// Code 19: the book has accepted as many edits as it may.
fn spent<B: Register>(edit: &Object<'_>, staged: &B) -> Result<(), Stop> {
    let count = staged.edits();
    Err(found(format!(in edit.alloc; "{count} edits were accepted, and no more may be")))
}

/// Code 21: the stamp is not after that of the withdrawal.
fn withdrawn<B: Register>(edit: &Object<'_>, staged: &B, identity: &Identity) -> Result<(), Stop> {
    let Some(trace) = staged.withdrawn(identity) else {
        return Ok(());
    };
    let shown = quoted(edit.alloc, identity.source_id())?;
    let then = trace.text();
    let now = edit.text("lastUpdated").unwrap_or("");
    Err(found(format!(in edit.alloc;
        "{shown} was withdrawn at {then}, and this publish is stamped {now}"
    )))
}

/// Code 22: the book remembers as many withdrawn mappings as it may.
fn traces_full<B: Register>(edit: &Object<'_>, staged: &B) -> Result<(), Stop> {
    let count = with_comma(edit.alloc, staged.limits().traces())?;
    Err(found(format!(in edit.alloc;
        "{count} withdrawn mappings are remembered, and no more can be: publish one of them again"
    )))
}

/// A number below a million, with a comma before its thousands.
fn with_comma(alloc: Global, number: u32) -> Result<String, AllocError> {
    if number < 1_000 {
        return format!(in alloc; "{number}");
    }
    let (thousands, rest) = (number / 1_000, number % 1_000);
    format!(in alloc; "{thousands},{rest:03}")
}
