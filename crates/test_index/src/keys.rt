//! Questions on civic keys, one a line, and their answers. A pattern and an address are written as `NAME=VALUE` with
//! `;` between them, and elements by their names with spaces between them.
//!
//! - `cover PATTERN` and `probes ADDRESS`: the keys of the profile of civic addresses.
//! - `contains PATTERN / ADDRESS`: whether the pattern contains the address.
//! - `reference-cover PATTERN` and `reference-probes ADDRESS / ELEMENTS`: the keys of the profile of references, where
//!   these elements of the address are required.
//! - `refers PATTERN / ADDRESS / ELEMENTS`: whether the pattern contains the address, with these elements required.
//! - `near PATTERN / ADDRESS` and `reference-near PATTERN / ADDRESS / ELEMENTS`: whether the pattern's outline says that
//!   it may. It must where the pattern contains the address, and it refuses most others.

use crate::reading::{address, pattern, required};
use lost_civic::{CivicAddress, Element};
use lost_civicdex::{Civic, HashedKey, References};
use lost_profile::Profile;
use std::alloc::{AllocError, Global};
use std::rt::Files;
use std::{fs, io};

/// The table of the questions.
const TABLE: &str = "keys.rows";

/// Prints each question of the table with its answer.
pub(crate) fn print_answers<R: Files + Print + AllocGlobal>(rt: &R) -> io::Result<()> {
    let table = fs::read_to_string(rt, TABLE)?;
    print_lines(rt, table.as_str())
}

/// Prints each question of a table with its answer.
fn print_lines<R: Print + AllocGlobal>(rt: &R, table: &str) -> io::Result<()> {
    for line in table.lines() {
        match answer(rt.alloc(), line) {
            Some(answer) => println!(rt; "{line}: {answer}")?,
            None => println!(rt; "{line}: unreadable")?,
        }
    }
    Ok(())
}

/// The answer to a question, or `None` where it cannot be read.
fn answer(alloc: Global, line: &str) -> Option<String> {
    let (question, rest) = line.split_once(' ')?;
    match question {
        "cover" => cover(alloc, rest),
        "probes" => probes(alloc, rest),
        "contains" | "near" => with_address(alloc, question, rest),
        "reference-cover" => reference_cover(alloc, rest),
        "reference-probes" => reference_probes(alloc, rest),
        "refers" | "reference-near" => with_required(alloc, question, rest),
        _ => None,
    }
}

fn cover(alloc: Global, text: &str) -> Option<String> {
    let pattern = pattern(alloc, text)?;
    written(alloc, Civic::cover(alloc, &pattern), text)
}

fn probes(alloc: Global, text: &str) -> Option<String> {
    let address = address(alloc, text)?;
    written(alloc, Civic::probes(alloc, &address), text)
}

fn reference_cover(alloc: Global, text: &str) -> Option<String> {
    let pattern = pattern(alloc, text)?;
    written(alloc, References::cover(alloc, &pattern), text)
}

fn reference_probes(alloc: Global, text: &str) -> Option<String> {
    let (pairs, _) = text.split_once(" / ")?;
    let required = required(alloc, text)?;
    written(alloc, References::probes(alloc, &required), pairs)
}

/// Whether a pattern contains an address, or its outline says that it may.
fn with_address(alloc: Global, question: &str, text: &str) -> Option<String> {
    let (region, location) = text.split_once(" / ")?;
    let region = pattern(alloc, region)?;
    let location = address(alloc, location)?;
    said(alloc, held::<Civic>(question, &region, &location))
}

/// The same of an address with required elements.
fn with_required(alloc: Global, question: &str, text: &str) -> Option<String> {
    let (region, location) = text.split_once(" / ")?;
    let region = pattern(alloc, region)?;
    let location = required(alloc, location)?;
    said(alloc, held::<References>(question, &region, &location))
}

fn held<P: Profile>(question: &str, region: &P::Region, location: &P::Location) -> bool {
    match question {
        "contains" | "refers" => P::contains(region, location),
        _ => P::is_near(&P::outline(region), location),
    }
}

fn said(alloc: Global, holds: bool) -> Option<String> {
    String::from_str(alloc, if holds { "yes" } else { "no" }).ok()
}

/// Keys such as `A1=nj;A3=leonia`. A key is hashed, so its text is that of the one of these pairs with this hash.
fn written(alloc: Global, keys: Result<Vec<HashedKey>, AllocError>, pairs: &str) -> Option<String> {
    let own = address(alloc, pairs)?;
    let mut text = String::new(alloc);
    for key in &keys.ok()? {
        push_key(&mut text, key, &own).ok()?;
    }
    Some(text)
}

/// Appends the pair of an address that has the hash of a key.
fn push_key(text: &mut String, key: &HashedKey, own: &CivicAddress) -> Result<(), AllocError> {
    for element in Element::ALL {
        match own.text(element) {
            Some(value) if HashedKey::new(element, value) == *key => {
                push_pair(text, element.name(), value)?;
            }
            _ => {}
        }
    }
    Ok(())
}

/// Appends a pair, with a `;` before it where it is not the first.
fn push_pair(text: &mut String, name: &str, value: &str) -> Result<(), AllocError> {
    if !text.is_empty() {
        text.push(';')?;
    }
    text.push_str(name)?;
    text.push('=')?;
    text.push_str(value)
}
