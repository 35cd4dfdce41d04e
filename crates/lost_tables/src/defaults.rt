//! What a mapping is known by.
ghost use Rattle.std.specs.Prelude.{◌≡◌};
ghost use Rattle.std.specs.Option.{option_copied};
ghost use Rattle.lost_tables.specs.Lookup.{default_text};

use lost_mapping::Mapping;

/// The text of a mapping's service, if the mapping is a default.
pub(crate) fn default_text(mapping: &Mapping) -> Option<&str>
    ensures { option_copied result ≡ default_text mapping.now }
{
    if mapping.is_default() {
        Some(mapping.service().text())
    } else {
        None
    }
}
