//! Signatures, which tell most patterns that do not match an address from those that do.

ghost use Rattle.std.specs.Prelude.{◌≡◌, Some, bit_or, length};
ghost use Rattle.std.specs.Option.{option_copied};
ghost use Rattle.lost_spec.specs.Civic.{Pairs};
ghost use Rattle.lost_civic.specs.Signatures.{are_among, bits_of, bits_of_hash, hash_of, one_bit, signature_of};
ghost use Rattle.lost_civic.specs.Texts.{seen_table, table_of};

use crate::Element;
use std::hash::{FoldHasher, Hash, Hasher};

/// The signature of an address or a pattern: each element that stands in it sets three bits of 64, by the hash of the
/// element and its comparison text (own rule). A pattern matches an address only if each bit of the pattern's
/// signature is set in the address's.
#[derive(Clone, Copy, PartialEq, Eq)]
pub struct Signature {
    /// The 64 bits.
    pub bits: u64,
}

impl Signature {
    /// Whether each bit of this signature is set in the other.
    pub fn is_within(&self, other: &Signature) -> bool
        ensures { result ≡ are_among self.now.bits other.now.bits }
    {
        self.bits & other.bits == self.bits
    }

    /// This signature with the bits of an element with a comparison text.
    pub fn with(self, element: Element, text: &str) -> Signature
        ensures { result.bits ≡ bit_or self.bits (bits_of element (Some text.now)) }
    {
        Signature {
            bits: self.bits | hash_bits(element_hash(element, text)),
        }
    }
}

/// One bit of 64, by the last six bits of a number.
fn bit(number: u64) -> u64
    ensures { result ≡ one_bit number }
{
    1 << (number % 64)
}

/// The bits that a hash sets.
#[tactic(auto, unfolding(crate::specs::Signatures::bits_of_hash))]
fn hash_bits(hash: u64) -> u64
    ensures { result ≡ bits_of_hash hash }
{
    bit(hash) | bit(hash / 64) | bit(hash / 4096)
}

/// The hash of an element with its comparison text: 64 bits, the same in each run (own rule). It takes no memory.
#[tactic(auto, unfolding(crate::specs::Signatures::hash_of))]
pub fn element_hash(element: Element, text: &str) -> u64
    ensures { result ≡ hash_of element text.now }
{
    let mut hasher = FoldHasher::default();
    element.index().hash(&mut hasher);
    text.hash(&mut hasher);
    hasher.finish()
}

/// The bits that an element sets, where it has a comparison text.
pub(crate) fn element_bits(element: Element, text: Option<&str>) -> u64
    ensures { result ≡ bits_of element (option_copied text.entry) }
{
    match text {
        Some(text) => hash_bits(element_hash(element, text)),
        None => 0,
    }
}

/// The signature of the comparison texts that an address keeps.
pub(crate) fn table_signature(texts: &[Option<String>]) -> Signature
    requires { length texts.now ≡ 31 }
    ensures { (pairs : Pairs) → seen_table texts.now ≡ table_of pairs → result.bits ≡ signature_of pairs }
{
    let mut bits = 0;
    for element in Element::ALL {
        match &texts[element.index()] {
            Some(text) => bits |= element_bits(element, Some(text.as_str())),
            None => {}
        }
    }
    Signature { bits }
}
