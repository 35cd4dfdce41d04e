//! The elements of an address, and their names.
ghost use Rattle.std.specs.Prelude.{◌≡◌, ◌++◌, Bool, not, IfOk, OnOk, filter, map, string_bytes};
ghost use Rattle.std.specs.Fn.{FnReturnsAt};
ghost use Rattle.lost_spec.specs.Text.{ascending_by};
ghost use Rattle.lost_spec.specs.Validation.{unknown_names};
ghost use Rattle.lost_civic.specs.Element.{element_name, all_elements};
ghost use Rattle.lost_civic.specs.declared.elements.Element as spec;
ghost use Rattle.lost_mapping.specs.Texts.{texts_of};
ghost use Rattle.lost_query.specs.Judged.{stands_in};

use lost_civic::{CivicAddress, Element};
use std::alloc::{AllocError, Global};
use std::collections::BTreeSet;

/// Whether an element stands in an address.
fn stands_in(address: &CivicAddress, element: Element) -> bool
    ensures { result ≡ stands_in address.now element }
{
    address.text(element).is_some()
}

/// The elements that stand in an address, in the order of the table.
pub(super) fn elements_of(alloc: Global, address: &CivicAddress) -> Result<Vec<Element>, AllocError>
    ensures { IfOk result (λ elements. elements.items ≡ filter (stands_in address.now) all_elements) }
{
    Element::ALL
        .iter()
        .copied()
        .filter(|element| stands_in(address, *element))
        .collect(alloc)
}

/// The elements that pass a test, and those that fail, in their order.
pub(super) fn part<F: Fn(&Element) -> bool>(
    alloc: Global,
    elements: &[Element],
    passes: F,
) -> Result<(Vec<Element>, Vec<Element>), AllocError>
    requires { F.IsAlwaysCallable passes }
    ensures passing { (test : spec.Element → Bool) → ((e : spec.Element) (r : Bool) → FnReturnsAt F.Fn passes e r → r ≡ test e)
        → IfOk result (λ parts. parts.0.items ≡ filter test elements.now) }
    ensures failing { (test : spec.Element → Bool) → ((e : spec.Element) (r : Bool) → FnReturnsAt F.Fn passes e r → r ≡ test e)
        → IfOk result (λ parts. parts.1.items ≡ filter (λ e. not (test e)) elements.now) }
{
    let mut passing = Vec::new(alloc);
    let mut failing = Vec::new(alloc);
    for element in elements {
        if passes(element) {
            passing.push(*element)?;
        } else {
            failing.push(*element)?;
        }
    }
    Ok((passing, failing))
}

/// The names of elements.
pub(super) fn names_of(alloc: Global, elements: &[Element]) -> Result<Vec<String>, AllocError>
    ensures { IfOk result (λ names. texts_of names.items ≡ map element_name elements.now) }
{
    let mut names = Vec::with_capacity(alloc, elements.len())?;
    for element in elements {
        names.push(String::from_str(alloc, element.name())?)?;
    }
    Ok(names)
}

/// The names in an address that are of no element, ascending by bytes, each once (own order).
pub(super) fn unknown_names(
    alloc: Global,
    address: &CivicAddress,
) -> Result<BTreeSet<String>, AllocError>
    ensures { IfOk result (λ names. map string_bytes names.keys ≡ ascending_by (λ name. name) (unknown_names address.now)) }
{
    let mut names = BTreeSet::new(alloc);
    for pair in address.pairs().iter().rev() {
        if Element::by_name(pair.0.as_str()).is_none() {
            names.insert(pair.0.clone()?)?;
        }
    }
    Ok(names)
}

/// Adds names at the end.
pub(super) fn append(names: &mut Vec<String>, others: BTreeSet<String>) -> Result<(), AllocError>
    ensures { OnOk result (names.new.items ≡ names.old.items ++ others.keys) }
{
    for name in others {
        names.push(name)?;
    }
    Ok(())
}
