//! Which mapping of a list has an identity, and which has a key.
ghost use Rattle.std.specs.Prelude.{◌≡◌, ◌&&◌, not, position, find};
ghost use Rattle.std.specs.List.{list_any};
ghost use Rattle.std.specs.Option.{option_copied};
ghost use Rattle.lost_spec.specs.Book.{has_identity, has_key};
ghost use Rattle.lost_spec.specs.Services.{has_live_key};

use lost_mapping::{Identity, Mapping, Moment};

/// The position of the mapping with this identity.
pub(crate) fn position_of(mappings: &[Mapping], identity: &Identity) -> Option<usize>
    ensures { result ≡ position (λ m. has_identity m identity.now) mappings.now }
{
    mappings
        .iter()
        .position(|mapping| has_identity(mapping, identity))
}

/// The position of the first mapping that is live at an instant and has this key.
pub(crate) fn position_of_live_key(
    mappings: &[Mapping],
    moment: &Moment,
    key: &str,
) -> Option<usize>
    ensures { result ≡ position (has_live_key moment.now key.now) mappings.now }
{
    mappings
        .iter()
        .position(|mapping| mapping.is_live(moment) && has_key(mapping, key))
}

/// The mapping with this identity.
pub(crate) fn held<'a>(mappings: &'a [Mapping], identity: &Identity) -> Option<&'a Mapping>
    ensures { option_copied result ≡ find (λ m. has_identity m identity.now) mappings.now }
{
    mappings
        .iter()
        .find(|mapping| has_identity(mapping, identity))
}

/// Whether a mapping of another identity has this key.
pub(crate) fn is_key_of_another(mappings: &[Mapping], identity: &Identity, key: &str) -> bool
    ensures { result ≡ list_any (λ m. not (has_identity m identity.now) && has_key m key.now) mappings.now }
{
    mappings.iter().any(|mapping| !has_identity(mapping, identity) && has_key(mapping, key))
}

/// Whether the mapping has this source and sourceId.
pub fn has_identity(mapping: &Mapping, identity: &Identity) -> bool
    ensures { result ≡ has_identity mapping.now identity.now }
{
    mapping.identity() == identity
}

/// Whether the mapping has this key; a default has none.
pub fn has_key(mapping: &Mapping, key: &str) -> bool
    ensures { result ≡ has_key mapping.now key.now }
{
    match mapping.key() {
        Some(own) => own == key,
        None => false,
    }
}
