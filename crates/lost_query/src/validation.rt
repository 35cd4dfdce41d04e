//! Validation of a civic address.
ghost use Rattle.std.specs.Prelude.{◌≡◌, [], ◌∷◌, ◌++◌, not, filter, map, IfOk, OnOk};
ghost use Rattle.lost_spec.specs.Text.{ascending_by};
ghost use Rattle.lost_spec.specs.Validation.{unknown_names, validation};
ghost use Rattle.lost_civic.specs.Element.{element_name, all_elements};
ghost use Rattle.lost_query.specs.Finding.{mappings_of};
ghost use Rattle.lost_query.specs.Judged.{stands_in, is_valid_element, ValidatesNoOther};
ghost use Rattle.lost_query.specs.Reference.{is_contradicted_by};
ghost use Rattle.lost_mapping.specs.Reply.{validation_of};

use crate::found::Found;
use crate::holdings::Holdings;
use crate::reference::Reference;
use crate::validation::elements::{append, elements_of, names_of, part, unknown_names};
use crate::validation::patterns::{is_named, matching_patterns};
use lost_civic::{CivicAddress, Element};
use lost_mapping::{Moment, Validation};
use lost_urn::ServiceUrn;
use std::alloc::{AllocError, Global};

mod elements;
pub(crate) mod patterns;

/// How the elements of an address are judged, given the mappings of a service found at it (RFC 5222, section 8.4.2;
/// policy own).
pub(crate) fn validate<H: Holdings>(
    alloc: Global,
    holdings: &H,
    moment: &Moment,
    service: &ServiceUrn,
    found: &Found,
    address: &CivicAddress,
) -> Result<Validation, AllocError>
    ensures { IfOk result (λ judged.
        validation_of judged ≡ validation (H.book holdings.now) moment.now service.now (mappings_of found.now) address.now) }
{
    let (valid, others) = part_valid(alloc, found, address)?;
    let reference = Reference {
        moment,
        service,
        address,
        elements: &valid,
    };
    let (invalid, unchecked) = part_invalid(alloc, holdings, &reference, &others)?;
    make_validation(alloc, address, &invalid, &unchecked, &valid)
}

/// The elements that are valid, and the other elements of the address, in the order of the table (RFC 5222, section
/// 8.4.2; policy own).
fn part_valid(
    alloc: Global,
    found: &Found,
    address: &CivicAddress,
) -> Result<(Vec<Element>, Vec<Element>), AllocError>
    ensures valid { IfOk result (λ parts.
        parts.0.items ≡ filter (is_valid_element (mappings_of found.now) address.now) (filter (stands_in address.now) all_elements)) }
    ensures others { IfOk result (λ parts.
        parts.1.items ≡ filter (λ e. not (is_valid_element (mappings_of found.now) address.now e)) (filter (stands_in address.now) all_elements)) }

    // A name of no element is not valid.
    ensures unknown { OnOk result (ValidatesNoOther (mappings_of found.now) address.now) }
{
    let elements = elements_of(alloc, address)?;
    let matching = matching_patterns(alloc, found, address)?;
    part(alloc, &elements, |element| is_named(&matching, *element))
}

/// Splits the elements that are not valid into the invalid ones and the rest, in their order (RFC 5222, section 8.4.2;
/// policy own). The reference has the valid ones.
fn part_invalid<H: Holdings>(
    alloc: Global,
    holdings: &H,
    reference: &Reference<'_>,
    others: &[Element],
) -> Result<(Vec<Element>, Vec<Element>), AllocError>
    ensures invalid { IfOk result (λ parts.
        parts.0.items ≡ filter (is_contradicted_by (H.book holdings.now) reference.now) others.now) }
    ensures unchecked { IfOk result (λ parts.
        parts.1.items ≡ filter (λ e. not (is_contradicted_by (H.book holdings.now) reference.now e)) others.now) }
{
    let mut invalid = Vec::new(alloc);
    let mut unchecked = Vec::new(alloc);
    for element in others {
        if is_contradicted(alloc, holdings, reference, *element)? {
            invalid.push(*element)?;
        } else {
            unchecked.push(*element)?;
        }
    }
    Ok((invalid, unchecked))
}

/// Whether some reference pattern names an element, and none with the address's comparison text. The reference has the
/// valid elements (RFC 5222, section 8.4.2; own policy).
fn is_contradicted<H: Holdings>(
    alloc: Global,
    holdings: &H,
    reference: &Reference<'_>,
    element: Element,
) -> Result<bool, AllocError>
    ensures { IfOk result (λ contradicted.
        contradicted ≡ is_contradicted_by (H.book holdings.now) reference.now element) }
{
    let elements = with_one_more(alloc, reference.elements, element)?;
    let longer = Reference {
        elements: &elements,
        ..*reference
    };
    if holdings.is_agreed(&longer)? {
        return Ok(false);
    }
    holdings.is_named(reference, element)
}

/// These elements and one more at the end.
fn with_one_more(
    alloc: Global,
    elements: &[Element],
    element: Element,
) -> Result<Vec<Element>, AllocError>
    ensures { IfOk result (λ longer. longer.items ≡ elements.now ++ element ∷ []) }
{
    let mut longer = Vec::with_capacity(alloc, elements.len().saturating_add(1))?;
    longer.extend_from_slice(elements)?;
    longer.push(element)?;
    Ok(longer)
}

/// The names of the elements by how they were judged. The address's other names are unchecked (own policy).
fn make_validation(
    alloc: Global,
    address: &CivicAddress,
    invalid: &[Element],
    unchecked: &[Element],
    valid: &[Element],
) -> Result<Validation, AllocError>
    ensures { IfOk result (λ judged. validation_of judged ≡ record {
      invalid = map element_name invalid.now;
      unchecked = map element_name unchecked.now ++ ascending_by (λ name. name) (unknown_names address.now);
      valid = map element_name valid.now;
    }) }
{
    let mut unchecked = names_of(alloc, unchecked)?;
    append(&mut unchecked, unknown_names(alloc, address)?)?;
    Ok(Validation {
        invalid: names_of(alloc, invalid)?,
        unchecked,
        valid: names_of(alloc, valid)?,
    })
}
