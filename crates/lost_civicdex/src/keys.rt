//! Keys of civic elements.

ghost use Rattle.std.specs.Prelude.{◌≡◌, IfOk, string_bytes};
ghost use Rattle.lost_civicdex.specs.Keys.{Key};

use lost_civic::Element;
use std::alloc::{AllocError, Global};
use std::marker::Model;

/// An element with the comparison text of a value, as a validation requires it. An index holds a `HashedKey` in its
/// place. Contracts see a key as the pair of both.
#[derive(Drop)]
pub struct ElementKey {
    element: Element,
    text: String,
}

impl Model for ElementKey {
    ghost Value = { Key };

    ghost view = { λ k. (k.element, string_bytes k.text) };
}

impl ElementKey {
    /// The key of an element with a copy of this comparison text.
    pub fn new(alloc: Global, element: Element, text: &str) -> Result<ElementKey, AllocError>
        ensures { IfOk result (λ key. key ≡ (element, text.now)) }
    {
        Ok(ElementKey {
            element,
            text: String::from_str(alloc, text)?,
        })
    }

    /// The element.
    pub fn element(&self) -> Element
        ensures { result ≡ self.now.0 }
    {
        self.element
    }

    /// The comparison text.
    pub fn text(&self) -> &str
        ensures { result.now ≡ self.now.1 }
    {
        self.text.as_str()
    }
}
