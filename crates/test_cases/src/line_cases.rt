//! Calls of lost_json and lost_export: what lines are read as, the lines of replies, and the lines that publish mappings,
//! without their byte 10.
use crate::case_error::CaseError;
use crate::fields::Fields;
use crate::gathered::Gathered;
use crate::mapping_cases::add_mapping;
use crate::stamp_cases::{source, stamp};
use crate::words::{owned, refused, yes_or_no};
use lost_book::{Book, Edit};
use lost_export::publish_line;
use lost_json::{
    DeskFault, DeskLine, DeskReply, ReadError, is_code, read_desk, read_request, reply_line,
    write_desk, write_reply,
};
use lost_mapping::{Identity, Mapping, MappingError, Stamp};
use lost_query::{AnswerError, Body, Location, Locations, Reply, Request};
use lost_spec::Coded;
use lost_urn::ServiceUrn;
use std::alloc::Global;
use std::borrow::CowStr;

/// The result of a call.
pub(crate) fn said(alloc: Global, call: &str, fields: &Fields) -> Result<String, CaseError> {
    match call {
        "line request" => request(alloc, fields),
        "line cut short" => cut_short(alloc, fields),
        "line desk" => order(alloc, fields),
        "line publish" => publish_again(alloc, fields),
        "line staged" => write_staged(alloc, fields),
        "line committed" => write_committed(alloc, fields),
        "line refused" => write_refusal(alloc, fields),
        "line code" => check_code(alloc, fields),
        "line error" => write_error(alloc, fields),
        "line bad request" => written(alloc, Reply::BadRequest),
        "line internal error" => written(alloc, Reply::InternalError),
        _ => Err(CaseError::NoCase),
    }
}

/// The reply of `lost.example` at the first instant of 2026.
pub(crate) fn reply(alloc: Global, book: &Book, line: &[u8]) -> Result<String, CaseError> {
    let moment = stamp(alloc, b"2026-01-01T00:00:00Z")?.moment();
    let name = source(alloc, b"lost.example")?;
    let reply = reply_line(alloc, book, &name, &moment, line)?;
    without_its_end(alloc, reply.as_slice())
}

fn written(alloc: Global, reply: Reply<'_>) -> Result<String, CaseError> {
    without_its_end(alloc, write_reply(alloc, &reply)?.as_slice())
}

fn write_staged(alloc: Global, fields: &Fields) -> Result<String, CaseError> {
    let reply = DeskReply::Staged(fields.count(1)?);
    without_its_end(alloc, write_desk(&reply).bytes())
}

fn write_committed(alloc: Global, fields: &Fields) -> Result<String, CaseError> {
    let reply = DeskReply::Committed(fields.count(1)?);
    without_its_end(alloc, write_desk(&reply).bytes())
}

/// A line without the byte 10 at its end.
fn without_its_end(alloc: Global, line: &[u8]) -> Result<String, CaseError> {
    let Some((b'\n', line)) = line.split_last() else {
        return owned(alloc, "a line without an end");
    };
    match str::from_utf8(line) {
        Ok(text) => owned(alloc, text),
        Err(_) => Err(CaseError::NoCase),
    }
}

/// The code in the first field.
fn code(fields: &Fields) -> Result<u8, CaseError> {
    match u8::try_from(fields.count(1)?) {
        Ok(code) => Ok(code),
        Err(_) => Err(CaseError::NoCase),
    }
}

fn check_code(alloc: Global, fields: &Fields) -> Result<String, CaseError> {
    owned(alloc, yes_or_no(is_code(code(fields)?)))
}

fn write_refusal(alloc: Global, fields: &Fields) -> Result<String, CaseError> {
    let code = code(fields)?;
    if !is_code(code) {
        return Err(CaseError::NoCase);
    }
    without_its_end(alloc, write_desk(&DeskReply::Refused(code)).bytes())
}

fn write_error(alloc: Global, fields: &Fields) -> Result<String, CaseError> {
    let error = error(fields.text(1)?)?;
    let edition = fields.count(2)?;
    written(alloc, Reply::Errors { edition, error })
}

fn error(name: &str) -> Result<AnswerError, CaseError> {
    match name {
        "loop" => Ok(AnswerError::Loop),
        "locationProfileUnrecognized" => Ok(AnswerError::LocationProfileUnrecognized),
        "SRSInvalid" => Ok(AnswerError::SrsInvalid),
        "locationInvalid" => Ok(AnswerError::LocationInvalid),
        "notFound" => Ok(AnswerError::NotFound),
        "serviceNotImplemented" => Ok(AnswerError::ServiceNotImplemented),
        _ => Err(CaseError::NoCase),
    }
}

/// The least length at which a line that is cut short is still read.
fn cut_short(alloc: Global, fields: &Fields) -> Result<String, CaseError> {
    let line = fields.bytes(1)?;
    for end in 0..line.len() {
        match read_request(alloc, &line[..end]).err() {
            None => return Ok(format!(in alloc; "read to {end}")?),
            Some(ReadError::Memory) => return Err(CaseError::Memory),
            Some(ReadError::BadRequest) => {}
        }
    }
    owned(alloc, "never read")
}

/// What a request line is read as, or the number of the refusal.
fn request(alloc: Global, fields: &Fields) -> Result<String, CaseError> {
    match read_request(alloc, fields.bytes(1)?) {
        Ok(request) => shown_request(alloc, &request),
        Err(refusal) => refused_request(alloc, refusal),
    }
}

/// The number of the refusal of a request line.
pub(crate) fn refused_request(alloc: Global, refusal: ReadError) -> Result<String, CaseError> {
    match refusal {
        ReadError::Memory => Err(CaseError::Memory),
        ReadError::BadRequest => refused(alloc, refusal.code()),
    }
}

/// A request as a text.
pub(crate) fn shown_request(alloc: Global, request: &Request<'_>) -> Result<String, CaseError> {
    let mut text = Gathered::new(alloc);
    add_request(&mut text, request);
    text.done()
}

fn add_request(text: &mut Gathered, request: &Request<'_>) {
    match request {
        Request::FindService {
            service,
            locations,
            validate,
            by_value,
            path,
        } => {
            add_find(text, service, *validate, *by_value);
            add_places(text, locations, path.as_slice());
        }
        Request::ListServicesByLocation {
            service,
            locations,
            path,
        } => {
            text.add_all(&["at ", text_or_dash(service)]);
            add_places(text, locations, path.as_slice());
        }
        Request::ListServices { service, path } => {
            text.add_all(&["list ", text_or_dash(service)]);
            add_path(text, path.as_slice());
        }
        Request::GetServiceBoundary { key, path } => {
            text.add_all(&["boundary ", key.as_str()]);
            add_path(text, path.as_slice());
        }
    }
}

fn add_find(text: &mut Gathered, service: &ServiceUrn, validate: bool, by_value: bool) {
    text.add_all(&["find ", service.text(), " "]);
    text.add_all(&[true_or_false(validate), " ", true_or_false(by_value)]);
}

/// The text of a service, or a dash where there is none.
fn text_or_dash(service: &Option<ServiceUrn>) -> &str {
    match service {
        Some(service) => service.text(),
        None => "-",
    }
}

fn true_or_false(answer: bool) -> &'static str {
    if answer { "true" } else { "false" }
}

/// Adds the locations, each in brackets, and then the names of the path.
fn add_places(text: &mut Gathered, locations: &Locations<'_>, path: &[CowStr<'_>]) {
    add_location(text, &locations.first);
    for location in &locations.rest {
        add_location(text, location);
    }
    add_path(text, path);
}

/// Adds the names of a path.
fn add_path(text: &mut Gathered, path: &[CowStr<'_>]) {
    text.add(" path");
    for name in path {
        text.add_all(&[" ", name.as_str()]);
    }
}

fn add_location(text: &mut Gathered, location: &Location<'_>) {
    text.add_all(&[" [", location.id.as_str(), " ", location.profile.as_str()]);
    text.add_all(&[" ", true_or_false(location.srs_known), " "]);
    match &location.body {
        Body::Point(lat, lon) => text.add_two(*lat, *lon),
        Body::Address(pairs) => text.add_pairs(pairs.as_slice()),
        Body::Token(token) => text.add(token.as_str()),
        Body::Unreadable => text.add("unreadable"),
    }
    text.add("]");
}

/// The order of a desk line, or the number of its refusal, or `other`.
fn order(alloc: Global, fields: &Fields) -> Result<String, CaseError> {
    match read_desk(alloc, fields.bytes(1)?) {
        Ok(Some(line)) => shown_order(alloc, &line),
        Ok(None) => owned(alloc, "other"),
        Err(fault) => refused_desk_line(alloc, fault),
    }
}

/// The line of the mapping that a desk line publishes, or the number of the refusal.
fn publish_again(alloc: Global, fields: &Fields) -> Result<String, CaseError> {
    match read_desk(alloc, fields.bytes(1)?) {
        Ok(Some(DeskLine::Edit(Edit::Publish(mapping)))) => publish(alloc, &mapping),
        Ok(_) => Err(CaseError::NoCase),
        Err(fault) => refused_desk_line(alloc, fault),
    }
}

/// The line of a mapping.
fn publish(alloc: Global, mapping: &Mapping) -> Result<String, CaseError> {
    without_its_end(alloc, publish_line(alloc, mapping)?.as_slice())
}

/// The number of the refusal of a desk line.
pub(crate) fn refused_desk_line(alloc: Global, fault: DeskFault) -> Result<String, CaseError> {
    match fault {
        DeskFault::Mapping(MappingError::Memory) => Err(CaseError::Memory),
        _ => refused(alloc, fault.code()),
    }
}

/// The order of a desk line as a text.
pub(crate) fn shown_order(alloc: Global, line: &DeskLine) -> Result<String, CaseError> {
    match line {
        DeskLine::Commit => owned(alloc, "commit"),
        DeskLine::Edit(edit) => shown_edit(alloc, edit),
    }
}

fn shown_edit(alloc: Global, edit: &Edit) -> Result<String, CaseError> {
    let mut text = Gathered::new(alloc);
    match edit {
        Edit::Publish(mapping) => {
            text.add("publish ");
            add_mapping(&mut text, mapping);
        }
        Edit::Replace(mapping) => {
            text.add("replace ");
            add_mapping(&mut text, mapping);
        }
        Edit::Withdraw(identity, stamp) => add_withdrawal(&mut text, identity, stamp),
    }
    text.done()
}

fn add_withdrawal(text: &mut Gathered, identity: &Identity, stamp: &Stamp) {
    text.add_all(&["withdraw ", identity.source().text(), " "]);
    text.add_all(&[identity.source_id(), " ", stamp.text()]);
}
