//! Calls of lost_tape: what lines are read as by their tokens.
use crate::case_error::CaseError;
use crate::fields::Fields;
use crate::line_cases::{refused_desk_line, refused_request, shown_order, shown_request};
use crate::words::owned;
use lost_reading::Line;
use lost_tape::{Scratch, read_common, read_line, read_request};
use std::alloc::Global;

/// The result of a call.
pub(crate) fn said(alloc: Global, call: &str, fields: &Fields) -> Result<String, CaseError> {
    let text = fields.bytes(1)?;
    match call {
        "tokens common" => common(alloc, text),
        "tokens request" => request(alloc, text, &mut Scratch::new(alloc)),
        "tokens line" => line(alloc, text, &mut Scratch::new(alloc)),
        _ => Err(CaseError::NoCase),
    }
}

/// What a request line of a common shape is read as, or `none`. Refused memory reads as nothing too, so the line is
/// then read once more.
fn common(alloc: Global, line: &[u8]) -> Result<String, CaseError> {
    if let Some(said) = read_once(alloc, line, &mut Scratch::new(alloc)) {
        return said;
    }
    match read_once(alloc, line, &mut Scratch::new(alloc)) {
        Some(_) => Err(CaseError::Memory),
        None => owned(alloc, "none"),
    }
}

/// What a request line of a common shape is read as, or `None`.
fn read_once(
    alloc: Global,
    line: &[u8],
    scratch: &mut Scratch,
) -> Option<Result<String, CaseError>> {
    match read_common(alloc, line, scratch) {
        Some(request) => Some(shown_request(alloc, &request)),
        None => None,
    }
}

/// What a request line is read as, or the number of the refusal.
fn request(alloc: Global, line: &[u8], scratch: &mut Scratch) -> Result<String, CaseError> {
    match read_request(alloc, line, scratch) {
        Ok(request) => shown_request(alloc, &request),
        Err(refusal) => refused_request(alloc, refusal),
    }
}

/// What a line is read as, the number of its refusal, or `neither`.
fn line(alloc: Global, line: &[u8], scratch: &mut Scratch) -> Result<String, CaseError> {
    match read_line(alloc, line, scratch) {
        Ok(line) => shown_line(alloc, &line),
        Err(fault) => refused_desk_line(alloc, fault),
    }
}

fn shown_line(alloc: Global, line: &Line<'_>) -> Result<String, CaseError> {
    match line {
        Line::Request(request) => shown_request(alloc, request),
        Line::Desk(order) => shown_order(alloc, order),
        Line::Neither => owned(alloc, "neither"),
    }
}
