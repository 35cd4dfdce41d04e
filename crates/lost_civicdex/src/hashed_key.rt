//! Keys of an index of civic elements.

ghost use Rattle.std.specs.Prelude.{◌≡◌};
ghost use Rattle.lost_civicdex.specs.HashedKeys.{hashed};

use lost_civic::{Element, element_hash};

/// An element with the hash of the element and a comparison text, by which an index finds civic patterns (own rule). It
/// takes no memory of its own, as a key with the text would. An index shortens a search and never decides: two texts
/// with one hash cost a look at a pattern and change no answer. Keys are ordered by their elements' positions in the
/// table, and then by their hashes.
#[derive(Clone, Copy, PartialEq, Eq, PartialOrd, Ord, Hash)]
pub struct HashedKey {
    element: Element,
    hash: u64,
}

impl HashedKey {
    /// The key of an element with this comparison text.
    pub fn new(element: Element, text: &str) -> HashedKey
        ensures { result ≡ hashed (element, text.now) }
    {
        HashedKey {
            element,
            hash: element_hash(element, text),
        }
    }

    /// The element.
    pub fn element(&self) -> Element
        ensures { result ≡ self.now.element }
    {
        self.element
    }
}
