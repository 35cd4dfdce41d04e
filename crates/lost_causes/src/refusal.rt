//! The cause of a refusal, and of `badRequest`.
use crate::bad_line::bad_line;
use crate::book_refusals::book_refusal;
use crate::json::tree;
use crate::object::Object;
use crate::regions::regions;
use crate::requests::bad_request;
use crate::shape::{key, missing, too_large};
use crate::stop::Stop;
use crate::texts::{id, number, service, source};
use crate::times::{expires, stamp};
use crate::uris::uris;
use lost_book::Register;
use lost_query::Holdings;
use serde_json::Value;
use std::alloc::{AllocError, Global};

/// Why a desk line is refused with this code of the desk's table, in words. `staged` is the book with the staged edits
/// too. The words are empty if no cause is found.
pub fn refusal_cause<B: Register + Holdings>(
    alloc: Global,
    line: &[u8],
    code: u8,
    staged: &B,
) -> Result<String, AllocError> {
    if code == 20 {
        return String::from_str(alloc, "memory ran out");
    }
    words(alloc, refusal(alloc, line, code, staged))
}

/// Why a line is neither a desk line nor a request, in words. They are empty if no cause is found.
pub fn bad_request_cause(alloc: Global, line: &[u8]) -> Result<String, AllocError> {
    words(alloc, bad_request(alloc, line))
}

/// The words of a cause, or none.
fn words(alloc: Global, walked: Result<(), Stop>) -> Result<String, AllocError> {
    match walked {
        Ok(()) => Ok(String::new(alloc)),
        Err(Stop::Cause(words)) => Ok(words),
        Err(Stop::Memory) => Err(AllocError),
    }
}

/// Walks through the one member of a desk line.
fn refusal<B: Register + Holdings>(
    alloc: Global,
    line: &[u8],
    code: u8,
    staged: &B,
) -> Result<(), Stop> {
    let tree = tree(alloc, line)?;
    let Some(members) = tree.as_object() else {
        return Ok(());
    };
    for (name, value) in members.iter() {
        member(alloc, name.as_str(), value, code, staged)?;
    }
    Ok(())
}

fn member<B: Register + Holdings>(
    alloc: Global,
    name: &str,
    value: &Value,
    code: u8,
    staged: &B,
) -> Result<(), Stop> {
    if code == 1 {
        return bad_line(alloc, name, value);
    }
    let edit = Object::of(alloc, name, value)?;
    match code {
        2..=8 => text_of(&edit, code),
        9 => regions(&edit),
        10 => missing(&edit),
        11 => too_large(&edit),
        12 => key(&edit),
        _ => book_refusal(&edit, code, staged),
    }
}

/// Codes 2 to 8: one text, or the list of URIs.
fn text_of(edit: &Object<'_>, code: u8) -> Result<(), Stop> {
    let alloc = edit.alloc;
    match code {
        2 => source(alloc, edit.text("source").unwrap_or("")),
        3 => id(alloc, "sourceId", edit.text("sourceId").unwrap_or("")),
        4 => stamp(alloc, edit.text("lastUpdated").unwrap_or("")),
        5 => expires(alloc, edit.text("expires").unwrap_or("")),
        6 => service(alloc, "service", edit.text("service").unwrap_or("")),
        7 => uris(alloc, edit.required_list("uri", "a list of texts")?),
        _ => number(alloc, edit.text("serviceNumber").unwrap_or("")),
    }
}
