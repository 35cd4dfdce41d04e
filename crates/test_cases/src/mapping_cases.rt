//! Calls of lost_mapping on mappings.
use crate::case_error::CaseError;
use crate::descriptions::{mapping, parts};
use crate::fields::Fields;
use crate::gathered::Gathered;
use crate::geo_cases::add_positions;
use crate::stamp_cases::stamp;
use crate::token_cases::add_tokens;
use crate::words::{checked, owned, refused, yes_or_no};
use lost_mapping::{Expires, Mapping, MappingError, Moment, Parts};
use lost_spec::Coded;
use std::alloc::Global;

/// The result of a call.
pub(crate) fn said(alloc: Global, call: &str, fields: &Fields) -> Result<String, CaseError> {
    let text = fields.text(1)?;
    match call {
        "mapping build" => build(alloc, text),
        "mapping check" => check(alloc, text),
        "mapping read" => read(alloc, text),
        "mapping live" => live(alloc, text, fields),
        _ => Err(CaseError::NoCase),
    }
}

/// The result of each reader of a copy.
fn read(alloc: Global, text: &str) -> Result<String, CaseError> {
    let copy = mapping(alloc, text)?.clone()?;
    let mut text = Gathered::new(alloc);
    add_mapping(&mut text, &copy);
    text.done()
}

fn live(alloc: Global, text: &str, fields: &Fields) -> Result<String, CaseError> {
    let moment = stamp(alloc, fields.bytes(2)?)?.moment();
    owned(alloc, is_live(&mapping(alloc, text)?, &moment)?)
}

/// Whether parts make a mapping.
fn build(alloc: Global, text: &str) -> Result<String, CaseError> {
    match Mapping::build(alloc, parts(alloc, text)?) {
        Ok(_) => owned(alloc, "built"),
        Err(MappingError::Memory) => Err(CaseError::Memory),
        Err(refusal) => refused(alloc, refusal.code()),
    }
}

/// The first refusal of parts, checked where they are.
fn check(alloc: Global, text: &str) -> Result<String, CaseError> {
    let fault = parts_fault(&parts(alloc, text)?);
    checked(alloc, fault.map(MappingError::code))
}

fn parts_fault(parts: &Parts) -> Option<MappingError> {
    Mapping::check::<Parts>(&parts.borrowed()).err()
}

/// Whether a mapping is live at an instant; `at odds` where a copy of its end says otherwise.
fn is_live(mapping: &Mapping, moment: &Moment) -> Result<&'static str, CaseError> {
    let end = mapping.expires().clone()?;
    let live = mapping.is_live(moment);
    Ok(if end.is_live_at(moment) == live {
        yes_or_no(live)
    } else {
        "at odds"
    })
}

/// Adds the result of each reader of a mapping.
pub(crate) fn add_mapping(text: &mut Gathered, mapping: &Mapping) {
    add_head(text, mapping);
    add_contacts(text, mapping);
    add_regions(text, mapping);
    add_names(text, mapping);
    if let Some(key) = mapping.key() {
        text.add_all(&[" under ", key]);
    }
    if mapping.is_default() {
        text.add(" by default");
    }
}

/// Adds the identity, the stamp, the end and the service.
fn add_head(text: &mut Gathered, mapping: &Mapping) {
    let identity = mapping.identity();
    let end = match mapping.expires() {
        Expires::NoCache => "NO-CACHE",
        Expires::NoExpiration => "NO-EXPIRATION",
        Expires::At(end) => end.text(),
    };
    text.add_all(&[identity.source().text(), " ", identity.source_id(), " "]);
    text.add_all(&[
        mapping.stamp().text(),
        " ",
        end,
        " ",
        mapping.service().text(),
    ]);
}

/// Adds the URIs and the number.
fn add_contacts(text: &mut Gathered, mapping: &Mapping) {
    for uri in mapping.uris() {
        text.add_all(&[" at ", uri.as_str()]);
    }
    if let Some(number) = mapping.number() {
        text.add_all(&[" dialled ", number]);
    }
}

/// Adds the polygons, then the patterns, and then the token sets.
fn add_regions(text: &mut Gathered, mapping: &Mapping) {
    for polygon in mapping.polygons() {
        text.add(" in ");
        add_positions(text, polygon.positions());
    }
    for pattern in mapping.patterns() {
        text.add(" where ");
        text.add_pairs(pattern.pairs());
    }
    for set in mapping.token_sets() {
        text.add(" of ");
        add_tokens(text, set.tokens());
    }
}

fn add_names(text: &mut Gathered, mapping: &Mapping) {
    for name in mapping.display_names() {
        text.add_all(&[" named ", name.lang.as_str(), ":", name.text.as_str()]);
    }
}
