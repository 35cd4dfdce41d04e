//! The keys of the elements of an address or a pattern.

ghost use Rattle.std.specs.Prelude.{◌≡◌, IfOk, filter_map, map, option_map, slice_get};
ghost use Rattle.std.specs.Option.{option_copied};
ghost use Rattle.lost_spec.specs.Civic.{Pairs};
ghost use Rattle.lost_civic.specs.Texts.{text_of};
ghost use Rattle.lost_civicdex.specs.Keys.{key_of, keys_of, last_key};
ghost use Rattle.lost_civicdex.specs.HashedKeys.{hashed};

use crate::{ElementKey, HashedKey};
use lost_civic::{CivicAddress, CivicPattern, Element};
use std::alloc::{AllocError, Global};

/// An address or a pattern: it has comparison texts of elements.
pub(crate) trait ElementTexts {
    ghost pairs_of: { Self → Pairs };

    /// The comparison text of an element, where the element stands in it.
    fn text(&self, element: Element) -> Option<&str>
        ensures { option_copied result ≡ text_of element (pairs_of self.now) };
}

impl ElementTexts for CivicAddress {
    ghost pairs_of = { λ address. address };

    fn text(&self, element: Element) -> Option<&str> {
        CivicAddress::text(self, element)
    }
}

impl ElementTexts for CivicPattern {
    ghost pairs_of = { λ pattern. pattern };

    fn text(&self, element: Element) -> Option<&str> {
        CivicPattern::text(self, element)
    }
}

/// The keys of these elements, where they stand in it, in the order given. Room for `room` keys is taken at once.
pub(crate) fn make_keys<T: ElementTexts>(
    alloc: Global,
    texts: &T,
    elements: &[Element],
    room: usize,
) -> Result<Vec<ElementKey>, AllocError>
    ensures { IfOk result (λ keys. keys.items ≡ filter_map (key_of (T.pairs_of texts.now)) elements.now) }
{
    let mut keys = Vec::with_capacity(alloc, room)?;
    for element in elements {
        let Some(text) = texts.text(*element) else {
            continue;
        };
        keys.push(ElementKey::new(alloc, *element, text)?)?;
    }
    Ok(keys)
}

/// The hashed keys of these elements, where they stand in it, in the order given. Room for `room` keys is taken at once,
/// and a key takes no memory of its own.
pub(crate) fn hash_keys<T: ElementTexts>(
    alloc: Global,
    texts: &T,
    elements: &[Element],
    room: usize,
) -> Result<Vec<HashedKey>, AllocError>
    ensures { IfOk result (λ keys. keys.items ≡ map hashed (filter_map (key_of (T.pairs_of texts.now)) elements.now)) }
{
    let mut keys = Vec::with_capacity(alloc, room)?;
    for element in elements {
        let Some(text) = texts.text(*element) else {
            continue;
        };
        keys.push(HashedKey::new(*element, text))?;
    }
    Ok(keys)
}

/// The last element in the order of the table, with its comparison text.
pub(crate) fn find_last<T: ElementTexts>(texts: &T) -> Option<(Element, &str)>
    ensures { option_map (λ found. (found.0, found.1.now)) result ≡ last_key (T.pairs_of texts.now) }
{
    let mut last = None;
    for element in Element::ALL {
        match texts.text(element) {
            Some(text) => last = Some((element, text)),
            None => {}
        }
    }
    last
}

/// The element at a position among those that stand in it, in the order of the table, with its comparison text.
pub(crate) fn find_nth<T: ElementTexts>(texts: &T, position: usize) -> Option<(Element, &str)>
    ensures { option_map (λ found. (found.0, found.1.now)) result ≡ slice_get (keys_of (T.pairs_of texts.now)) position }
{
    let mut left = position;
    for element in Element::ALL {
        let Some(text) = texts.text(element) else {
            continue;
        };
        if left == 0 {
            return Some((element, text));
        }
        left -= 1;
    }
    None
}
