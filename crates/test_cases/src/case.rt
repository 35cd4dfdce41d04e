//! One case.
use crate::book_cases::Shelf;
use crate::case_error::CaseError;
use crate::fields::Fields;
use crate::{
    civic_cases, digest_cases, geo_cases, line_cases, mapping_cases, numbered_cases, place_cases,
    stamp_cases, token_cases, tokens_cases, urn_cases,
};
use std::alloc::Global;

/// The result of a case's call, or `None` where it is as wanted.
pub(crate) fn judge(
    alloc: Global,
    shelf: &mut Shelf,
    line: &str,
) -> Result<Option<String>, CaseError> {
    let fields = Fields::read(alloc, line)?;
    let said = said(alloc, shelf, &fields)?;
    let is_wanted = said.as_bytes() == fields.wanted()?;
    Ok(if is_wanted { None } else { Some(said) })
}

/// The result of a case's call. The first word of a call chooses the file of its crate.
fn said(alloc: Global, shelf: &mut Shelf, fields: &Fields) -> Result<String, CaseError> {
    let call = fields.text(0)?;
    match call.split_once(' ').unwrap_or((call, "")).0 {
        "urn" => urn_cases::said(alloc, call, fields),
        "geo" => geo_cases::said(alloc, call, fields),
        "civic" => civic_cases::said(alloc, call, fields),
        "place" => place_cases::said(alloc, call, fields),
        "digest" => digest_cases::said(alloc, call, fields, shelf),
        "mapping" => mapping_cases::said(alloc, call, fields),
        "numbered" => numbered_cases::said(alloc, call, fields),
        "book" => shelf.said(alloc, call, fields),
        "reply" => reply(alloc, shelf, fields),
        "line" => line_cases::said(alloc, call, fields),
        "token" => token_cases::said(alloc, call, fields),
        "tokens" => tokens_cases::said(alloc, call, fields),
        _ => stamp_cases::said(alloc, call, fields),
    }
}

/// The reply of the book to a line.
fn reply(alloc: Global, shelf: &Shelf, fields: &Fields) -> Result<String, CaseError> {
    let book = shelf.book()?;
    line_cases::reply(alloc, book, fields.bytes(1)?)
}
