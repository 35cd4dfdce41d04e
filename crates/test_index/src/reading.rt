//! Patterns, addresses and elements as they are written in a question.

use lost_civic::{CivicAddress, CivicPattern, Element};
use lost_civicdex::RequiredElements;
use std::alloc::Global;

/// The pairs of a text such as `A1=NJ;A3=Leonia`.
fn pairs(alloc: Global, text: &str) -> Option<Vec<(String, String)>> {
    let mut pairs = Vec::new(alloc);
    for part in text.split(';') {
        pairs.push(pair(alloc, part)?).ok()?;
    }
    Some(pairs)
}

/// The pair of a text such as `A1=NJ`.
fn pair(alloc: Global, text: &str) -> Option<(String, String)> {
    let (name, value) = text.split_once('=')?;
    let name = String::from_str(alloc, name).ok()?;
    let value = String::from_str(alloc, value).ok()?;
    Some((name, value))
}

pub(crate) fn pattern(alloc: Global, text: &str) -> Option<CivicPattern> {
    CivicPattern::from_pairs(alloc, pairs(alloc, text)?).ok()
}

pub(crate) fn address(alloc: Global, text: &str) -> Option<CivicAddress> {
    CivicAddress::from_pairs(alloc, pairs(alloc, text)?).ok()
}

/// The elements of a text such as `A1 A3`.
fn elements(alloc: Global, text: &str) -> Option<Vec<Element>> {
    let mut elements = Vec::new(alloc);
    for name in text.split(' ') {
        elements.push(Element::by_name(name)?).ok()?;
    }
    Some(elements)
}

/// The required elements of a text such as `A1=NJ;A3=Leonia / A1 A3`.
pub(crate) fn required(alloc: Global, text: &str) -> Option<RequiredElements> {
    let (address_text, names) = text.split_once(" / ")?;
    let address = address(alloc, address_text)?;
    let elements = elements(alloc, names)?;
    RequiredElements::of_address(alloc, &address, elements.as_slice()).ok()?
}
