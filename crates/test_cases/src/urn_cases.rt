//! Calls of lost_urn.
ghost use Rattle.std.specs.Prelude.{◌≤◌, IfOk, length};

use crate::case_error::CaseError;
use crate::fields::Fields;
use crate::gathered::Gathered;
use crate::words::{checked, compared, copy_of, order, owned, refused, yes_or_no};
use lost_spec::Coded;
use lost_urn::{ServiceUrn, UrnError};
use std::alloc::Global;

/// The result of a call.
pub(crate) fn said(alloc: Global, call: &str, fields: &Fields) -> Result<String, CaseError> {
    let text = fields.bytes(1)?;
    match call {
        "urn parse" => parse(alloc, text),
        "urn check" => check(alloc, text),
        "urn cut" => cut(alloc, text, fields),
        "urn front" => front(alloc, text, fields),
        "urn at or below" => at_or_below(alloc, text, fields),
        "urn order" => two_services(alloc, text, fields),
        _ => Err(CaseError::NoCase),
    }
}

fn check(alloc: Global, text: &[u8]) -> Result<String, CaseError> {
    checked(alloc, ServiceUrn::check(text).err().map(UrnError::code))
}

fn at_or_below(alloc: Global, text: &[u8], fields: &Fields) -> Result<String, CaseError> {
    let one = service(alloc, text)?;
    let other = service(alloc, fields.bytes(2)?)?;
    owned(alloc, yes_or_no(one.is_at_or_below(&other)))
}

fn two_services(alloc: Global, text: &[u8], fields: &Fields) -> Result<String, CaseError> {
    let one = service(alloc, text)?;
    owned(alloc, order(&one, &service(alloc, fields.bytes(2)?)?))
}

/// The service that a text spells.
pub(crate) fn service(alloc: Global, text: &[u8]) -> Result<ServiceUrn, CaseError> {
    match ServiceUrn::parse(alloc, text) {
        Ok(service) => Ok(service),
        Err(UrnError::Memory) => Err(CaseError::Memory),
        Err(_) => Err(CaseError::NoCase),
    }
}

fn parse(alloc: Global, text: &[u8]) -> Result<String, CaseError> {
    match ServiceUrn::parse(alloc, text) {
        Ok(service) => shown(alloc, &service),
        Err(UrnError::Memory) => Err(CaseError::Memory),
        Err(refusal) => refused(alloc, refusal.code()),
    }
}

/// The text and the depth of a copy of a copy, by the method and by the trait.
fn shown(alloc: Global, service: &ServiceUrn) -> Result<String, CaseError> {
    let copy = copy_of(&service.clone()?)?;
    let mut text = Gathered::new(alloc);
    add_service(&mut text, &copy);
    text.add_all(&[" ", compared(&copy, service)]);
    text.done()
}

/// Adds the text and the depth of a service.
fn add_service(text: &mut Gathered, service: &ServiceUrn) {
    text.add_all(&[service.text(), " "]);
    text.add_number(service.depth() as u64);
}

/// The number of labels in the second field: at least 1, and at most those of the service.
fn some_labels(service: &ServiceUrn, fields: &Fields) -> Result<usize, CaseError>
    ensures { IfOk result (λ n. (1 ≤ n) × (n ≤ length service.now)) }
{
    let Ok(labels) = usize::try_from(fields.count(2)?) else {
        return Err(CaseError::NoCase);
    };
    if labels < 1 || labels > service.depth() {
        return Err(CaseError::NoCase);
    }
    Ok(labels)
}

fn front(alloc: Global, text: &[u8], fields: &Fields) -> Result<String, CaseError> {
    let service = service(alloc, text)?;
    owned(alloc, service.front(some_labels(&service, fields)?))
}

fn cut(alloc: Global, text: &[u8], fields: &Fields) -> Result<String, CaseError> {
    let service = service(alloc, text)?;
    let front = service.cut(some_labels(&service, fields)?)?;
    let mut text = Gathered::new(alloc);
    add_service(&mut text, &front);
    text.done()
}
