//! Calls of lost_mapping that need no mapping: stamps, instants, sources and identities.
use crate::case_error::CaseError;
use crate::fields::Fields;
use crate::gathered::joined;
use crate::words::{checked, compared, owned, refused, yes_or_no};
use lost_mapping::{Identity, MappingError, Moment, Source, SourceError, Stamp, StampError};
use lost_spec::Coded;
use std::alloc::Global;

/// The result of a call.
pub(crate) fn said(alloc: Global, call: &str, fields: &Fields) -> Result<String, CaseError> {
    match call {
        "stamp" => new_stamp(alloc, fields),
        "stamp check" => check_stamp(alloc, fields),
        "source" => new_source(alloc, fields),
        "same sources" => same_sources(alloc, fields),
        "identity" => new_identity(alloc, fields),
        "identity check" => check_identity(alloc, fields),
        "same identities" => same_identities(alloc, fields),
        "moment" => new_moment(alloc, fields),
        "moments" => two_moments(alloc, fields),
        _ => Err(CaseError::NoCase),
    }
}

fn check_stamp(alloc: Global, fields: &Fields) -> Result<String, CaseError> {
    owned(alloc, yes_or_no(Stamp::is_stamp(fields.bytes(1)?)))
}

fn same_sources(alloc: Global, fields: &Fields) -> Result<String, CaseError> {
    let one = source(alloc, fields.bytes(1)?)?;
    owned(alloc, compared(&one, &source(alloc, fields.bytes(2)?)?))
}

fn check_identity(alloc: Global, fields: &Fields) -> Result<String, CaseError> {
    let fault = Identity::check(fields.text(1)?, fields.text(2)?).err();
    checked(alloc, fault.map(MappingError::code))
}

fn same_identities(alloc: Global, fields: &Fields) -> Result<String, CaseError> {
    let one = identity_in(alloc, fields, 1)?;
    owned(alloc, compared(&one, &identity_in(alloc, fields, 3)?))
}

/// The identity of the source and the sourceId in the fields from a position on.
pub(crate) fn identity_in(
    alloc: Global,
    fields: &Fields,
    position: usize,
) -> Result<Identity, CaseError> {
    let source = fields.text(position)?;
    identity(alloc, source, fields.text(position.saturating_add(1))?)
}

fn new_moment(alloc: Global, fields: &Fields) -> Result<String, CaseError> {
    match moment(fields, 1)? {
        Some(_) => owned(alloc, "kept"),
        None => owned(alloc, "none"),
    }
}

fn two_moments(alloc: Global, fields: &Fields) -> Result<String, CaseError> {
    match (moment(fields, 1)?, moment(fields, 3)?) {
        (Some(one), Some(other)) => owned(alloc, order(&one, &other)),
        _ => Err(CaseError::NoCase),
    }
}

/// The stamp that a text spells.
pub(crate) fn stamp(alloc: Global, text: &[u8]) -> Result<Stamp, CaseError> {
    match Stamp::parse(alloc, text) {
        Ok(stamp) => Ok(stamp),
        Err(StampError::Memory) => Err(CaseError::Memory),
        Err(StampError::Bad) => Err(CaseError::NoCase),
    }
}

/// The source that a text spells.
pub(crate) fn source(alloc: Global, text: &[u8]) -> Result<Source, CaseError> {
    match Source::parse(alloc, text) {
        Ok(source) => Ok(source),
        Err(SourceError::Memory) => Err(CaseError::Memory),
        Err(SourceError::Bad) => Err(CaseError::NoCase),
    }
}

/// The identity that two texts make.
pub(crate) fn identity(alloc: Global, source: &str, id: &str) -> Result<Identity, CaseError> {
    match Identity::parse(alloc, source, id) {
        Ok(identity) => Ok(identity),
        Err(MappingError::Memory) => Err(CaseError::Memory),
        Err(_) => Err(CaseError::NoCase),
    }
}

/// The text and the instant of a copy of a stamp.
fn new_stamp(alloc: Global, fields: &Fields) -> Result<String, CaseError> {
    match Stamp::parse(alloc, fields.bytes(1)?) {
        Ok(stamp) => shown_stamp(alloc, &stamp),
        Err(StampError::Memory) => Err(CaseError::Memory),
        Err(refusal) => refused(alloc, refusal.code()),
    }
}

fn shown_stamp(alloc: Global, stamp: &Stamp) -> Result<String, CaseError> {
    let copy = stamp.clone()?;
    let (text, moment) = (copy.text(), copy.moment());
    let (day, nanosecond) = (moment.day(), moment.nanosecond());
    Ok(format!(in alloc; "{text} day {day}, {nanosecond}")?)
}

/// The text of a copy of a source.
fn new_source(alloc: Global, fields: &Fields) -> Result<String, CaseError> {
    match Source::parse(alloc, fields.bytes(1)?) {
        Ok(source) => shown_source(alloc, &source),
        Err(SourceError::Memory) => Err(CaseError::Memory),
        Err(refusal) => refused(alloc, refusal.code()),
    }
}

fn shown_source(alloc: Global, source: &Source) -> Result<String, CaseError> {
    let copy = source.clone()?;
    joined(alloc, &[copy.text(), " ", compared(&copy, source)])
}

/// The texts of a copy of an identity.
fn new_identity(alloc: Global, fields: &Fields) -> Result<String, CaseError> {
    match Identity::parse(alloc, fields.text(1)?, fields.text(2)?) {
        Ok(identity) => shown_identity(alloc, &identity),
        Err(MappingError::Memory) => Err(CaseError::Memory),
        Err(refusal) => refused(alloc, refusal.code()),
    }
}

fn shown_identity(alloc: Global, identity: &Identity) -> Result<String, CaseError> {
    let copy = identity.clone()?;
    let same = compared(&copy, identity);
    joined(
        alloc,
        &[copy.source().text(), " ", copy.source_id(), " ", same],
    )
}

/// The instant of the day and the nanosecond in the fields from a position on.
fn moment(fields: &Fields, position: usize) -> Result<Option<Moment>, CaseError> {
    let Ok(day) = i32::try_from(fields.number(position)?) else {
        return Err(CaseError::NoCase);
    };
    let nanosecond = fields.count(position.saturating_add(1))?;
    Ok(Moment::new(day, nanosecond))
}

/// How one instant compares with another; `at odds` where two ways of comparing differ.
fn order(one: &Moment, other: &Moment) -> &'static str {
    match (one.is_earlier(other), other.is_earlier(one)) {
        (true, false) if one < other && one != other => "before",
        (false, true) if one > other && one != other => "after",
        (false, false) if one == other => "same",
        _ => "at odds",
    }
}
