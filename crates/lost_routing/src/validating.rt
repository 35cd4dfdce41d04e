//! What a validation asks of the mappings.
ghost use Rattle.std.specs.Prelude.{◌≡◌, IfOk, filter_map};
ghost use Rattle.std.specs.List.{list_any};
ghost use Rattle.lost_civicdex.specs.Keys.{key_of};
ghost use Rattle.lost_query.specs.Reference.{is_naming_by, is_referring_by};
ghost use Rattle.lost_routing.specs.Naming.{AreAmong};

use crate::store::Store;
use lost_civic::Element;
use lost_civicdex::RequiredElements;
use lost_query::Reference;
use lost_regions::Regions;
use std::alloc::AllocError;

/// So many candidates are tested at once; where there are more, it is asked whether another index gives fewer.
const FEW: usize = 64;

impl Store {
    /// Whether some mapping has this reference. Without elements, the mappings of the service are tested. If an element
    /// does not stand in the address, none has.
    #[tactic(auto, using(crate::proofs::NamedLemmas::none_where_missing, crate::proofs::NamedLemmas::none_where_none))]
    pub(crate) fn is_agreed(&self, reference: &Reference<'_>) -> Result<bool, AllocError>
        ensures { IfOk result (λ agreed. agreed ≡ list_any (is_referring_by reference.now) self.now.mappings) }
    {
        let elements = reference.elements;
        if elements.is_empty() {
            return Ok(self.is_agreed_in_service(reference));
        }
        let Some(required) = RequiredElements::of_address(self.alloc, reference.address, elements)?
        else {
            return Ok(false);
        };
        if required.keys().len() < elements.len() {
            return Ok(false);
        }
        self.is_agreed_near(reference, &required)
    }

    /// Does the same for elements that stand in the address with these texts, by the index of references.
    fn is_agreed_near(
        &self,
        reference: &Reference<'_>,
        required: &RequiredElements,
    ) -> Result<bool, AllocError>
        requires { required.now ≡ filter_map (key_of reference.now.address.now) reference.now.elements.now }
        ensures { IfOk result (λ agreed. agreed ≡ list_any (is_referring_by reference.now) self.now.mappings) }
    {
        let candidates = self.regions.near_required(required)?;
        let agreed = self.has_any(candidates.as_slice(), |mapping| reference.is_in(mapping));
        Ok(agreed)
    }

    /// Does the same by a walk over the mappings of the service. It takes no memory.
    fn is_agreed_in_service(&self, reference: &Reference<'_>) -> bool
        ensures { result ≡ list_any (is_referring_by reference.now) self.now.mappings }
    {
        let candidates = self.tables.of_service(reference.service.text());
        self.has_any(candidates, |mapping| reference.is_in(mapping))
    }

    /// Whether some mapping has this reference in a pattern that names another element too. If an element does not stand
    /// in the address, none has.
    #[tactic(auto, using(crate::proofs::NamedLemmas::none_named_where_missing, crate::proofs::NamedLemmas::none_named_where_none))]
    pub(crate) fn is_named(
        &self,
        reference: &Reference<'_>,
        named: Element,
    ) -> Result<bool, AllocError>
        ensures { IfOk result (λ found. found ≡ list_any (is_naming_by reference.now named) self.now.mappings) }
    {
        let elements = reference.elements;
        if elements.is_empty() {
            return self.is_named_at_all(reference, named);
        }
        let Some(required) = RequiredElements::of_address(self.alloc, reference.address, elements)?
        else {
            return Ok(false);
        };
        if elements.len() > required.keys().len() {
            return Ok(false);
        }
        self.is_named_near(reference, &required, named)
    }

    /// Does the same for elements that stand in the address with these texts. If the index of references gives many
    /// candidates, it takes those of the index of elements where these are fewer.
    fn is_named_near(
        &self,
        reference: &Reference<'_>,
        required: &RequiredElements,
        named: Element,
    ) -> Result<bool, AllocError>
        requires { required.now ≡ filter_map (key_of reference.now.address.now) reference.now.elements.now }
        ensures { IfOk result (λ found. found ≡ list_any (is_naming_by reference.now named) self.now.mappings) }
    {
        let candidates = fewer(&self.regions, required, named)?;
        let found = self.has_any(candidates.as_slice(), |mapping| {
            reference.is_in_naming(mapping, named)
        });
        Ok(found)
    }

    /// Does the same by the index of elements alone.
    fn is_named_at_all(&self, reference: &Reference<'_>, named: Element) -> Result<bool, AllocError>
        ensures { IfOk result (λ found. found ≡ list_any (is_naming_by reference.now named) self.now.mappings) }
    {
        let candidates = self.regions.near_element(named)?;
        let found = self.has_any(candidates.as_slice(), |mapping| {
            reference.is_in_naming(mapping, named)
        });
        Ok(found)
    }
}

/// Numbers among which is each one with a pattern that names all required elements and the other one: those that the
/// indexes give for the required elements, or, if these are over [`FEW`], for the other one where they are fewer.
fn fewer(
    regions: &Regions,
    required: &RequiredElements,
    named: Element,
) -> Result<Vec<u64>, AllocError>
    ensures { IfOk result (λ near. AreAmong required.now named regions.now near.items) }
{
    let near = regions.near_required(required)?;
    if near.len() <= FEW {
        return Ok(near);
    }
    let others = regions.near_element(named)?;
    if others.len() < near.len() {
        return Ok(others);
    }
    Ok(near)
}
