//! The comparison texts that are kept beside the pairs of an address and of a pattern.

ghost use Rattle.std.specs.Prelude.{◌≡◌, ◌<◌, true, IfOk, option_map, string_bytes};
ghost use Rattle.std.specs.Option.{option_copied};
ghost use Rattle.std.specs.List.{list_all};
ghost use Rattle.lost_spec.specs.Civic.{names_of, is_known, value_of, comparison_text};
ghost use Rattle.lost_civic.specs.Element.{element_name};
ghost use Rattle.lost_civic.specs.Pairs.{seen_pairs};
ghost use Rattle.lost_civic.specs.Texts.{text_of, table_of, seen_table, compared_of, seen_compared};

use crate::Element;
use crate::squeezing::make_comparison_text;
use std::alloc::{AllocError, Global};

/// An element with the comparison text of its value.
#[derive(Drop)]
pub(crate) struct Compared {
    pub element: Element,
    pub text: String,
}

/// The value that stands beside a name.
fn find_value<'a>(pairs: &'a [(String, String)], name: &str) -> Option<&'a str>
    ensures { option_copied result ≡ value_of name.now (seen_pairs pairs.now) }
{
    for pair in pairs {
        if name == pair.0.as_str() {
            return Some(pair.1.as_str());
        }
    }
    None
}

fn make_text(
    alloc: Global,
    pairs: &[(String, String)],
    element: Element,
) -> Result<Option<String>, AllocError>
    ensures { IfOk result (λ text. option_map string_bytes text ≡ text_of element (seen_pairs pairs.now)) }
{
    match find_value(pairs, element.name()) {
        Some(value) => Ok(Some(make_comparison_text(alloc, value)?)),
        None => Ok(None),
    }
}

/// The comparison text of each element, in the order of the table, where the element stands among the pairs.
pub(crate) fn make_table(
    alloc: Global,
    pairs: &[(String, String)],
) -> Result<Vec<Option<String>>, AllocError>
    ensures { IfOk result (λ texts. seen_table texts.items ≡ table_of (seen_pairs pairs.now)) }
{
    let mut texts = Vec::with_capacity(alloc, Element::ALL.len())?;
    for element in Element::ALL {
        texts.push(make_text(alloc, pairs, element)?)?;
    }
    Ok(texts)
}

fn compare_pair(alloc: Global, pair: &(String, String)) -> Result<Compared, AllocError>
    requires { is_known (string_bytes pair.now.0) ≡ true }
    ensures named { IfOk result (λ compared. element_name compared.element ≡ string_bytes pair.now.0) }
    ensures text { IfOk result (λ compared. string_bytes compared.text ≡ comparison_text (string_bytes pair.now.1)) }
{
    match Element::by_name(pair.0.as_str()) {
        Some(element) => Ok(Compared {
            element,
            text: make_comparison_text(alloc, pair.1.as_str())?,
        }),
        None => unreachable!(),
    }
}

/// Each pair's element with the comparison text of its value, in the order of the pairs.
pub(crate) fn compare_pairs(
    alloc: Global,
    pairs: &[(String, String)],
) -> Result<Vec<Compared>, AllocError>
    requires { list_all is_known (names_of (seen_pairs pairs.now)) ≡ true }
    ensures { IfOk result (λ list. seen_compared list.items ≡ compared_of (seen_pairs pairs.now)) }
{
    let mut list = Vec::with_capacity(alloc, pairs.len())?;
    for pair in pairs {
        list.push(compare_pair(alloc, pair)?)?;
    }
    Ok(list)
}

/// The comparison text that is kept for an element.
pub(crate) fn find_text(list: &[Compared], element: Element) -> Option<&str>
    ensures { option_copied result ≡ value_of (element_name element) (seen_compared list.now) }
{
    for compared in list {
        if compared.element == element {
            return Some(compared.text.as_str());
        }
    }
    None
}
