//! Civic patterns.

ghost use Rattle.std.specs.Prelude.{◌≡◌, ◌≢◌, None, Some, IsTrue, IfOk, IfErr, OnOk, IfSome};
ghost use Rattle.std.specs.Option.{option_copied};
ghost use Rattle.std.specs.Result.{result_err};
ghost use Rattle.std.specs.Cmp.{partial_equiv_from_equiv};
ghost use Rattle.lost_spec.specs.Civic.{pattern_fault, matches};
ghost use Rattle.lost_civic.specs.Pairs.{seen_pairs, same_pairs, same_pairs-equiv, is_pattern_pair};
ghost use Rattle.lost_civic.specs.Signatures.{signature_of};
ghost use Rattle.lost_civic.specs.Texts.{text_of, HasElement};

use crate::refusals::{self, first_pattern_fault};
use crate::signatures::{self, Signature};
use crate::texts::{Compared, compare_pairs, find_text};
use crate::{CivicAddress, Element};
use lost_spec::faults::CivicError;
use std::alloc::{AllocError, Global};
use std::marker::Model;
use std::sync::Arc;

/// A civic pattern, which stands for the addresses that it matches (RFC 5222, section 12.3; patterns are an own
/// form of a civic boundary): pairs of an element's name and a value, in the order in which they were given.
/// It never changes and is shared, so a copy costs a pointer. Contracts see a pattern as its pairs.
pub struct CivicPattern {
    inner: Arc<Fields>,
}

impl Drop for CivicPattern {
    fn drop(self) {
        let CivicPattern { inner: _ } = self;
    }
}

#[derive(Drop)]
struct Fields {
    pairs: Vec<(String, String)>,
    compared: Vec<Compared>,
}

impl Model for CivicPattern {
    ghost use Rattle.std.specs.Prelude.{◌≡◌, None};
    ghost use Rattle.std.specs.Arc.{arc_value};
    ghost use Rattle.lost_spec.specs.Civic.{Pairs, pattern_fault};
    ghost use Rattle.lost_civic.specs.Pairs.{seen_pairs};
    ghost use Rattle.lost_civic.specs.Texts.{compared_of, seen_compared};

    ghost Value = { Pairs };

    ghost view = { λ p. seen_pairs (arc_value p.inner).pairs.items };

    ghost invariant = { λ p. (pattern_fault (seen_pairs (arc_value p.inner).pairs.items) ≡ None)
        × (seen_compared (arc_value p.inner).compared.items ≡ compared_of (seen_pairs (arc_value p.inner).pairs.items)) };
}

impl CivicPattern {
    /// The most pairs that a pattern has (own bound).
    pub const MAX_PAIRS: usize = refusals::MAX_PAIRS;

    /// Whether a pattern takes a pair of this name and this value: the name is that of an element, and neither text has
    /// more than 512 bytes. So 1 to 128 such pairs, no name twice, are a pattern.
    pub fn takes_pair(name: &str, value: &str) -> bool
        ensures { result ≡ is_pattern_pair (name.now, value.now) }
    {
        !refusals::is_long(name, value) && refusals::knows(name)
    }

    /// The pattern of these pairs. The refusals, in the order of the checks: `TooLong` for more than 128
    /// pairs, or a name or a value of more than 512 bytes; `Repeated` for a name that stands twice; `UnknownElement`
    /// where a name is that of no element; `NoKnownElement` where there is no pair; `Memory`.
    pub fn from_pairs(
        alloc: Global,
        mut pairs: Vec<(String, String)>,
    ) -> Result<CivicPattern, CivicError>
        ensures pairs { IfOk result (λ pattern. pattern ≡ seen_pairs pairs.items) }
        ensures lawful { OnOk result (pattern_fault (seen_pairs pairs.items) ≡ None) }
        ensures refused { IfErr result
            (λ fault. fault ≢ CivicError.Memory → pattern_fault (seen_pairs pairs.items) ≡ Some fault) }

        // Memory comes only after the checks.
        ensures checked_first { IfSome (pattern_fault (seen_pairs pairs.items)) (λ fault. result ≡ Err fault) }
    {
        if let Some(fault) = first_pattern_fault(pairs.as_slice()) {
            return Err(fault);
        }
        let Ok(compared) = compare_pairs(alloc, pairs.as_slice()) else {
            return Err(CivicError::Memory);
        };
        pairs.shrink_to_fit();
        match Arc::new(alloc, Fields { pairs, compared }) {
            Ok(inner) => Ok(CivicPattern { inner }),
            Err(_) => Err(CivicError::Memory),
        }
    }

    /// Ok where `from_pairs` takes these pairs, and else its refusal. It takes no memory.
    pub fn check(pairs: &[(String, String)]) -> Result<(), CivicError>
        ensures { result_err result ≡ pattern_fault (seen_pairs pairs.now) }
    {
        match first_pattern_fault(pairs) {
            Some(fault) => Err(fault),
            None => Ok(()),
        }
    }

    /// The pairs as they were given.
    pub fn pairs(&self) -> &[(String, String)]
        ensures pairs { seen_pairs result.now ≡ self.now }
        ensures lawful { pattern_fault self.now ≡ None }
        ensures some_element { HasElement self.now }
    {
        self.inner.pairs.as_slice()
    }

    /// The comparison text of an element, where it stands in the pattern, as `CivicAddress::text` has it.
    pub fn text(&self, element: Element) -> Option<&str>
        ensures { option_copied result ≡ text_of element self.now }
    {
        find_text(self.inner.compared.as_slice(), element)
    }

    /// Whether each element of the pattern stands in the address with an equal comparison text (RFC 5222, section
    /// 12.3; the comparison is an own rule).
    pub fn matches(&self, address: &CivicAddress) -> bool
        ensures value { result ≡ matches self.now address.now }

        // What a match says element by element: each text of the pattern is that of the address.
        ensures shared { IsTrue result
            → (element : Element) → IfSome (text_of element self.now) (λ text. text_of element address.now ≡ Some text) }
    {
        self.inner.compared.iter().all(|compared| address.has_text(
            compared.element,
            compared.text.as_str(),
        ))
    }

    /// The signature of the pattern. It is made at each call.
    pub fn signature(&self) -> Signature
        ensures { result.bits ≡ signature_of self.now }
    {
        let mut bits = 0;
        for element in Element::ALL {
            bits |= signatures::element_bits(element, self.text(element));
        }
        Signature { bits }
    }

    /// A copy. It costs a pointer.
    pub fn clone(&self) -> Result<CivicPattern, AllocError>
        ensures { IfOk result (λ copy. copy ≡ self.now) }
    {
        Ok(CivicPattern {
            inner: Arc::try_clone(&self.inner)?,
        })
    }
}

/// Two patterns are equal where their pairs are, names and values byte for byte and in their order.
impl PartialEq for CivicPattern {
    ghost eq = { same_pairs };

    ghost laws = { partial_equiv_from_equiv same_pairs-equiv };

    fn eq(&self, other: &CivicPattern) -> bool {
        self.inner.pairs == other.inner.pairs
    }
}

impl Eq for CivicPattern {
    ghost laws = { same_pairs-equiv };
}
