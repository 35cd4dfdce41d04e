//! Calls of lost_digest.
use crate::book_cases::Shelf;
use crate::case_error::CaseError;
use crate::descriptions::mapping;
use crate::fields::Fields;
use crate::words::owned;
use lost_digest::{MapDigest, book_digest, mapping_digest};
use lost_mapping::Mapping;
use std::alloc::Global;

/// The result of a call, some of which ask the book.
pub(crate) fn said(
    alloc: Global,
    call: &str,
    fields: &Fields,
    shelf: &Shelf,
) -> Result<String, CaseError> {
    match call {
        "digest of" => changed(alloc, fields),
        "digest of the book" => Ok(book_digest(shelf.book()?).text(alloc)?),
        _ => Err(CaseError::NoCase),
    }
}

/// The digest after mappings were added, and others taken away.
fn changed(alloc: Global, fields: &Fields) -> Result<String, CaseError> {
    let mut digest = MapDigest::empty();
    for position in 1..fields.len().saturating_sub(1) {
        if !change(alloc, &mut digest, fields.text(position)?)? {
            return owned(alloc, "at odds");
        }
    }
    Ok(digest.text(alloc)?)
}

/// Adds the mapping of a description behind a `+`, or takes it away behind a `-`. Says whether its digest is that of a map
/// with this mapping alone.
fn change(alloc: Global, digest: &mut MapDigest, change: &str) -> Result<bool, CaseError> {
    if let Some(description) = change.strip_prefix('+') {
        let mapping = mapping(alloc, description)?;
        digest.add(&mapping);
        return Ok(is_digest_of(&mapping));
    }
    let Some(description) = change.strip_prefix('-') else {
        return Err(CaseError::NoCase);
    };
    let mapping = mapping(alloc, description)?;
    digest.remove(&mapping);
    Ok(is_digest_of(&mapping))
}

/// Whether the digest of a map with one mapping is that of the mapping.
fn is_digest_of(mapping: &Mapping) -> bool {
    let mut alone = MapDigest::empty();
    alone.add(mapping);
    alone.number() == mapping_digest(mapping)
}
