//! Elements that a pattern must name.

ghost use Rattle.std.specs.Prelude.{◌≡◌, ◌↔◌, ◌<◌, [], IfOk, IfSome, IsNone, filter_map, length};
ghost use Rattle.lost_civic.specs.Signatures.{signature_of_keys};
ghost use Rattle.lost_civicdex.specs.Keys.{key_of};

use crate::ElementKey;
use crate::texts::make_keys;
use lost_civic::{CivicAddress, Element, Signature};
use std::alloc::{AllocError, Global};
use std::marker::Model;

/// Elements with their comparison texts, at least one, which a pattern must name. Contracts see them as the list of
/// their keys.
#[derive(Drop)]
pub struct RequiredElements {
    keys: Vec<ElementKey>,
    signature: Signature,
}

impl Model for RequiredElements {
    ghost use Rattle.std.specs.Prelude.{List};
    ghost use Rattle.lost_civicdex.specs.Keys.{Key};
    ghost use Rattle.lost_civicdex.specs.Covers.{IsRequirement};
    ghost use Rattle.std.specs.Prelude.{◌≡◌};
    ghost use Rattle.lost_civic.specs.Signatures.{signature_of_keys};

    ghost Value = { List Key };

    ghost view = { λ r. r.keys.items };

    ghost invariant = { λ r. IsRequirement r.keys.items
        × (r.signature.bits ≡ signature_of_keys r.keys.items) };
}

impl RequiredElements {
    /// These elements with their texts; `None` where the list is empty.
    pub fn new(keys: Vec<ElementKey>) -> Option<RequiredElements>
        ensures some { IfSome result (λ required. required ≡ keys.items) }
        ensures none { IsNone result ↔ (keys.items ≡ []) }
    {
        if keys.is_empty() {
            None
        } else {
            let signature = keys_signature(&keys);
            Some(RequiredElements { keys, signature })
        }
    }

    /// These elements, where they stand in the address, with its comparison texts, in the order given; `None` where
    /// none does.
    pub fn of_address(
        alloc: Global,
        address: &CivicAddress,
        elements: &[Element],
    ) -> Result<Option<RequiredElements>, AllocError>
        ensures some { IfOk result (λ found. IfSome found (λ required. required ≡ filter_map (key_of address.now) elements.now)) }
        ensures none { IfOk result (λ found. IsNone found ↔ (filter_map (key_of address.now) elements.now ≡ [])) }
    {
        let keys = make_keys(alloc, address, elements, elements.len())?;
        Ok(RequiredElements::new(keys))
    }

    /// The keys of the elements, in the order in which they were given.
    pub fn keys(&self) -> &[ElementKey]
        ensures keys { result.now ≡ self.now }
        ensures some { 0 < length self.now }
    {
        self.keys.as_slice()
    }

    /// The signature of the elements with their texts. It was made with them.
    pub(crate) fn signature(&self) -> Signature
        ensures { result.bits ≡ signature_of_keys self.now }
    {
        self.signature
    }
}

/// The signature of keys.
fn keys_signature(keys: &[ElementKey]) -> Signature
    ensures { result.bits ≡ signature_of_keys keys.now }
{
    let mut signature = Signature { bits: 0 };
    for key in keys {
        signature = signature.with(key.element(), key.text());
    }
    signature
}
