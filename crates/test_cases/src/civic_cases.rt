//! Calls of lost_civic.
use crate::case_error::CaseError;
use crate::fields::Fields;
use crate::gathered::Gathered;
use crate::words::{checked, compared, owned, refused, text_pairs, yes_or_no};
use lost_civic::{CivicAddress, CivicError, CivicPattern, Element};
use lost_spec::Coded;
use std::alloc::Global;

/// The result of a call.
pub(crate) fn said(alloc: Global, call: &str, fields: &Fields) -> Result<String, CaseError> {
    let text = fields.text(1)?;
    match call {
        "civic elements" => elements(alloc),
        "civic element" => by_name(alloc, text),
        "civic order" => two_elements(alloc, text, fields),
        "civic address" => new_address(alloc, text),
        "civic pattern" => new_pattern(alloc, text),
        "civic address check" => check_address(alloc, text),
        "civic pattern check" => check_pattern(alloc, text),
        "civic same addresses" => same_addresses(alloc, text, fields),
        "civic same patterns" => same_patterns(alloc, text, fields),
        "civic matches" => matches(alloc, text, fields),
        _ => Err(CaseError::NoCase),
    }
}

fn check_address(alloc: Global, text: &str) -> Result<String, CaseError> {
    let pairs = text_pairs(alloc, text, ';')?;
    let fault = CivicAddress::check(pairs.as_slice()).err();
    checked(alloc, fault.map(CivicError::code))
}

fn check_pattern(alloc: Global, text: &str) -> Result<String, CaseError> {
    let pairs = text_pairs(alloc, text, ';')?;
    let fault = CivicPattern::check(pairs.as_slice()).err();
    checked(alloc, fault.map(CivicError::code))
}

fn same_addresses(alloc: Global, text: &str, fields: &Fields) -> Result<String, CaseError> {
    let one = address(alloc, text)?;
    owned(alloc, compared(&one, &address(alloc, fields.text(2)?)?))
}

fn same_patterns(alloc: Global, text: &str, fields: &Fields) -> Result<String, CaseError> {
    let one = pattern(alloc, text)?;
    owned(alloc, yes_or_no(one == pattern(alloc, fields.text(2)?)?))
}

fn matches(alloc: Global, text: &str, fields: &Fields) -> Result<String, CaseError> {
    let pattern = pattern(alloc, text)?;
    let address = address(alloc, fields.text(2)?)?;
    owned(alloc, yes_or_no(pattern.matches(&address)))
}

/// The address that pairs make.
pub(crate) fn address(alloc: Global, text: &str) -> Result<CivicAddress, CaseError> {
    match CivicAddress::from_pairs(alloc, text_pairs(alloc, text, ';')?) {
        Ok(address) => Ok(address),
        Err(CivicError::Memory) => Err(CaseError::Memory),
        Err(_) => Err(CaseError::NoCase),
    }
}

/// The pattern that pairs make.
fn pattern(alloc: Global, text: &str) -> Result<CivicPattern, CaseError> {
    match CivicPattern::from_pairs(alloc, text_pairs(alloc, text, ';')?) {
        Ok(pattern) => Ok(pattern),
        Err(CivicError::Memory) => Err(CaseError::Memory),
        Err(_) => Err(CaseError::NoCase),
    }
}

/// The names of all elements that stand at their index, each behind a space.
fn elements(alloc: Global) -> Result<String, CaseError> {
    let mut text = Gathered::new(alloc);
    for (position, element) in Element::ALL.iter().enumerate() {
        if element.index() == position {
            text.add_all(&[" ", element.name()]);
        }
    }
    text.done()
}

fn by_name(alloc: Global, name: &str) -> Result<String, CaseError> {
    match Element::by_name(name) {
        Some(element) => shown_element(alloc, element),
        None => owned(alloc, "none"),
    }
}

fn shown_element(alloc: Global, element: Element) -> Result<String, CaseError> {
    let mut text = Gathered::new(alloc);
    text.add_number(element.index() as u64);
    text.add_all(&[" ", element.name()]);
    text.done()
}

fn element(name: &str) -> Result<Element, CaseError> {
    match Element::by_name(name) {
        Some(element) => Ok(element),
        None => Err(CaseError::NoCase),
    }
}

fn two_elements(alloc: Global, name: &str, fields: &Fields) -> Result<String, CaseError> {
    let other = element(fields.text(2)?)?;
    owned(alloc, order(element(name)?, other))
}

/// How one element compares with another.
fn order(one: Element, other: Element) -> &'static str {
    match compared(&one, &other) {
        "same" => "same",
        "other" if one < other => "before",
        "other" if other < one => "after",
        _ => "at odds",
    }
}

/// The pairs of a copy of an address, and its comparison texts.
fn new_address(alloc: Global, text: &str) -> Result<String, CaseError> {
    match CivicAddress::from_pairs(alloc, text_pairs(alloc, text, ';')?) {
        Ok(address) => shown_address(alloc, &address),
        Err(CivicError::Memory) => Err(CaseError::Memory),
        Err(refusal) => refused(alloc, refusal.code()),
    }
}

fn shown_address(alloc: Global, address: &CivicAddress) -> Result<String, CaseError> {
    let copy = address.clone()?;
    let mut said = Gathered::new(alloc);
    said.add_all(&[compared(&copy, address), " "]);
    said.add_pairs(copy.pairs());
    said.add(" as ");
    for element in Element::ALL {
        add_text(&mut said, element, copy.text(element));
    }
    said.done()
}

/// The pairs of a copy of a pattern, and its comparison texts.
fn new_pattern(alloc: Global, text: &str) -> Result<String, CaseError> {
    match CivicPattern::from_pairs(alloc, text_pairs(alloc, text, ';')?) {
        Ok(pattern) => shown_pattern(alloc, &pattern),
        Err(CivicError::Memory) => Err(CaseError::Memory),
        Err(refusal) => refused(alloc, refusal.code()),
    }
}

fn shown_pattern(alloc: Global, pattern: &CivicPattern) -> Result<String, CaseError> {
    let copy = pattern.clone()?;
    let mut said = Gathered::new(alloc);
    said.add(if copy == *pattern { "same " } else { "other " });
    said.add_pairs(copy.pairs());
    said.add(" as ");
    for element in Element::ALL {
        add_text(&mut said, element, copy.text(element));
    }
    said.done()
}

/// Adds an element's comparison text, where it has one.
fn add_text(said: &mut Gathered, element: Element, text: Option<&str>) {
    if let Some(text) = text {
        said.add_all(&[element.name(), "="]);
        said.add(text);
        said.add(";");
    }
}
