//! What patterns tell about the elements of an address.
ghost use Rattle.std.specs.Prelude.{◌≡◌, ◌++◌, ◌&&◌, None, Bool, IfOk, OnOk, filter, map};
ghost use Rattle.std.specs.List.{AllByRecursion, list_any};
ghost use Rattle.std.specs.Fn.{FnReturnsAt};
ghost use Rattle.lost_spec.specs.Civic.{Pairs, pattern_fault, matches};
ghost use Rattle.lost_spec.specs.Validation.{names_it, agrees, patterns_in};
ghost use Rattle.lost_civic.specs.Element.{element_name};
ghost use Rattle.lost_query.specs.Finding.{mappings_of};
ghost use Rattle.lost_query.specs.Judged.{is_named, is_reference};

use crate::found::Found;
use lost_civic::{CivicAddress, CivicPattern, Element};
use lost_mapping::Mapping;
use std::alloc::{AllocError, Global};

/// Whether a pattern names an element.
fn names_it(pattern: &CivicPattern, element: Element) -> bool
    ensures { result ≡ names_it (element_name element) pattern.now }
{
    pattern.text(element).is_some()
}

/// Whether a pattern names an element with the address's comparison text.
fn agrees(pattern: &CivicPattern, address: &CivicAddress, element: Element) -> bool
    ensures { result ≡ agrees address.now (element_name element) pattern.now }
{
    match (pattern.text(element), address.text(element)) {
        (Some(own), Some(given)) => own == given,
        _ => false,
    }
}

/// Whether some pattern names an element.
pub(super) fn is_named(patterns: &[&CivicPattern], element: Element) -> bool
    ensures { result ≡ is_named (map (λ p. p.now) patterns.now) element }
{
    patterns.iter().any(|pattern| names_it(pattern, element))
}

/// Whether a pattern names each of these elements with the address's comparison text (own policy).
fn is_reference(pattern: &CivicPattern, address: &CivicAddress, valid: &[Element]) -> bool
    ensures { result ≡ is_reference valid.now address.now pattern.now }
{
    valid
        .iter()
        .all(|element| agrees(pattern, address, *element))
}

/// Whether some pattern of a mapping names each of these elements with the address's comparison text (own policy).
pub(crate) fn refers(mapping: &Mapping, address: &CivicAddress, elements: &[Element]) -> bool
    ensures { result ≡ list_any (is_reference elements.now address.now) mapping.now.regions.patterns }
{
    mapping
        .patterns()
        .iter()
        .any(|pattern| is_reference(pattern, address, elements))
}

/// Whether some pattern of a mapping names each of these elements with the address's comparison text, and another element
/// with any text (own policy).
pub(crate) fn refers_naming(
    mapping: &Mapping,
    address: &CivicAddress,
    elements: &[Element],
    named: Element,
) -> bool
    ensures { result ≡ list_any (λ p. is_reference elements.now address.now p && names_it (element_name named) p) mapping.now.regions.patterns }
{
    mapping.patterns().iter().any(|pattern| is_reference(pattern, address, elements)
        && names_it(pattern, named))
}

/// Adds the patterns of a mapping that pass a test at the end.
fn add_patterns<'a, F: Fn(&CivicPattern) -> bool>(
    patterns: &mut Vec<&'a CivicPattern>,
    mapping: &'a Mapping,
    passes: F,
) -> Result<(), AllocError>
    requires { F.IsAlwaysCallable passes }
    ensures added { (test : Pairs → Bool) → ((p : Pairs) (r : Bool) → FnReturnsAt F.Fn passes p r → r ≡ test p)
        → OnOk result (map (λ p. p.now) patterns.new.items ≡ map (λ p. p.now) patterns.old.items ++ filter test mapping.now.regions.patterns) }
    ensures lawful { OnOk result (AllByRecursion (λ p. pattern_fault p ≡ None) (map (λ p. p.now) patterns.old.items)
        → AllByRecursion (λ p. pattern_fault p ≡ None) (map (λ p. p.now) patterns.new.items)) }
{
    for pattern in mapping.patterns() {
        // Shows to the proof that the pattern names only known elements.
        let _pairs = pattern.pairs();
        if passes(pattern) {
            patterns.push(pattern)?;
        }
    }
    Ok(())
}

/// The patterns of found mappings that match an address (RFC 5222, section 8.4.2).
pub(super) fn matching_patterns<'a>(
    alloc: Global,
    found: &'a Found,
    address: &CivicAddress,
) -> Result<Vec<&'a CivicPattern>, AllocError>
    ensures matching { IfOk result (λ patterns.
        map (λ p. p.now) patterns.items ≡ filter (λ p. matches p address.now) (patterns_in (mappings_of found.now))) }
    ensures lawful { IfOk result (λ patterns. AllByRecursion (λ p. pattern_fault p ≡ None) (map (λ p. p.now) patterns.items)) }
{
    let mut patterns = Vec::new(alloc);
    add_patterns(
        &mut patterns,
        &found.first,
        |pattern| pattern.matches(address),
    )?;
    for mapping in &found.rest {
        add_patterns(&mut patterns, mapping, |pattern| pattern.matches(address))?;
    }
    Ok(patterns)
}
