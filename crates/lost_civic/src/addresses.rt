//! Civic addresses.

ghost use Rattle.std.specs.Prelude.{◌≡◌, ◌≢◌, None, Some, IfOk, IfErr, OnOk, IfSome, option_map, string_bytes};
ghost use Rattle.std.specs.Option.{option_copied};
ghost use Rattle.std.specs.Result.{result_err};
ghost use Rattle.std.specs.Cmp.{partial_equiv_from_equiv};
ghost use Rattle.lost_spec.specs.Civic.{address_fault, has_value};
ghost use Rattle.lost_civic.specs.Element.{element_name};
ghost use Rattle.lost_civic.specs.Pairs.{seen_pairs, same_pairs, hashed_pairs, same_pairs-equiv, hashed_pairs-alike};
ghost use Rattle.lost_civic.specs.Signatures.{signature_of};
ghost use Rattle.lost_civic.specs.Texts.{text_of, HasElement};

use crate::Element;
use crate::refusals::first_address_fault;
use crate::signatures::{Signature, table_signature};
use crate::texts::make_table;
use lost_spec::faults::CivicError;
use std::alloc::{AllocError, Global};
use std::hash::{Hash, Hasher};
use std::marker::Model;

/// A civic address (RFC 5222, section 12.3; RFC 4119, section 2.2.1): pairs of a name and a value, in the order in
/// which they were given. Contracts see an address as its pairs. At least one name is an element's; others may be
/// unknown.
pub struct CivicAddress {
    pairs: Vec<(String, String)>,
    texts: Vec<Option<String>>,
    signature: Signature,
}

impl Drop for CivicAddress {
    fn drop(self) {
        let CivicAddress {
            pairs: _,
            texts: _,
            signature: _,
        } = self;
    }
}

impl Model for CivicAddress {
    ghost use Rattle.std.specs.Prelude.{◌≡◌, None};
    ghost use Rattle.lost_spec.specs.Civic.{Pairs, address_fault};
    ghost use Rattle.lost_civic.specs.Pairs.{seen_pairs};
    ghost use Rattle.lost_civic.specs.Signatures.{signature_of};
    ghost use Rattle.lost_civic.specs.Texts.{table_of, seen_table};

    ghost Value = { Pairs };

    ghost view = { λ a. seen_pairs a.pairs.items };

    ghost invariant = { λ a. (address_fault (seen_pairs a.pairs.items) ≡ None)
        × (seen_table a.texts.items ≡ table_of (seen_pairs a.pairs.items))
        × (a.signature.bits ≡ signature_of (seen_pairs a.pairs.items)) };
}

impl CivicAddress {
    /// The address of these pairs. The refusals, in the order of the checks: `TooLong` for more than 128
    /// pairs, or a name or a value of more than 512 bytes; `Repeated` for a name that stands twice; `NoKnownElement`
    /// where no name is that of an element; `Memory`.
    pub fn from_pairs(
        alloc: Global,
        pairs: Vec<(String, String)>,
    ) -> Result<CivicAddress, CivicError>
        ensures pairs { IfOk result (λ address. address ≡ seen_pairs pairs.items) }
        ensures lawful { OnOk result (address_fault (seen_pairs pairs.items) ≡ None) }
        ensures refused { IfErr result
            (λ fault. fault ≢ CivicError.Memory → address_fault (seen_pairs pairs.items) ≡ Some fault) }

        // Memory comes only after the checks.
        ensures checked_first { IfSome (address_fault (seen_pairs pairs.items)) (λ fault. result ≡ Err fault) }
    {
        if let Some(fault) = first_address_fault(pairs.as_slice()) {
            return Err(fault);
        }
        let Ok(texts) = make_table(alloc, pairs.as_slice()) else {
            return Err(CivicError::Memory);
        };
        let signature = table_signature(texts.as_slice());
        Ok(CivicAddress {
            pairs,
            texts,
            signature,
        })
    }

    /// Ok where `from_pairs` takes these pairs, and else its refusal. It takes no memory.
    pub fn check(pairs: &[(String, String)]) -> Result<(), CivicError>
        ensures { result_err result ≡ address_fault (seen_pairs pairs.now) }
    {
        match first_address_fault(pairs) {
            Some(fault) => Err(fault),
            None => Ok(()),
        }
    }

    /// The pairs as they were given.
    pub fn pairs(&self) -> &[(String, String)]
        ensures pairs { seen_pairs result.now ≡ self.now }
        ensures lawful { address_fault self.now ≡ None }
        ensures some_element { HasElement self.now }
    {
        self.pairs.as_slice()
    }

    /// The comparison text of an element, where it stands in the address: its value with each run of white space
    /// (bytes 9 to 13, and 32) as one space, both ends trimmed, and ASCII letters in lower case.
    pub fn text(&self, element: Element) -> Option<&str>
        ensures { option_copied result ≡ text_of element self.now }
    {
        match self.kept(element) {
            Some(text) => Some(text.as_str()),
            None => None,
        }
    }

    /// The comparison text that is kept for an element.
    fn kept(&self, element: Element) -> &Option<String>
        ensures { option_map string_bytes result.now ≡ text_of element self.now }
    {
        &self.texts[element.index()]
    }

    /// Whether the element stands in the address with this comparison text.
    pub(crate) fn has_text(&self, element: Element, text: &str) -> bool
        ensures { result ≡ has_value self.now (element_name element) text.now }
    {
        match self.text(element) {
            Some(own) => own == text,
            None => false,
        }
    }

    /// The signature of the address. It was made with the address.
    pub fn signature(&self) -> Signature
        ensures { result.bits ≡ signature_of self.now }
    {
        self.signature
    }

    /// A copy.
    pub fn clone(&self) -> Result<CivicAddress, AllocError>
        ensures { IfOk result (λ copy. copy ≡ self.now) }
    {
        Ok(CivicAddress {
            pairs: self.pairs.clone()?,
            texts: self.texts.clone()?,
            signature: self.signature,
        })
    }
}

/// Two addresses are equal where their pairs are, names and values byte for byte and in their order.
impl PartialEq for CivicAddress {
    ghost eq = { same_pairs };

    ghost laws = { partial_equiv_from_equiv same_pairs-equiv };

    fn eq(&self, other: &CivicAddress) -> bool {
        self.pairs == other.pairs
    }
}

impl Eq for CivicAddress {
    ghost laws = { same_pairs-equiv };
}

impl Hash for CivicAddress {
    ghost hash_input = { hashed_pairs };

    ghost respects_eq = { hashed_pairs-alike.fed };

    fn hash<H: Hasher>(&self, state: &mut H) {
        self.pairs.hash(state);
    }
}
