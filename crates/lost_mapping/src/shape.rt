//! Which fields of a mapping go together, and its greatest sizes (RFC 5222, section 5; own rules).
ghost use Rattle.std.specs.Prelude.{◌≡◌, ◌||◌, map, nat_lt, length};
ghost use Rattle.std.specs.List.{list_any};
ghost use Rattle.std.specs.Option.{option_copied};
ghost use Rattle.std.specs.Result.{result_err};
ghost use Rattle.lost_spec.specs.Mapping.{has_right_key as has_right_key_text};
ghost use Rattle.lost_mapping.specs.Faults.{shape_fault, has_right_count as has_right_number, is_oversized as is_oversized_list};

use crate::part_items::PartItems;
use lost_location::Counts;
use lost_profile::is_id;
use lost_spec::faults::MappingError;

/// The most display names that a mapping has.
pub const MAX_DISPLAY_NAMES: usize = 16;

/// The most bytes that the language or the text of a display name has.
pub const MAX_DISPLAY_NAME_BYTES: usize = 1024;

/// Refuses a default with a region and another mapping without one, then what is too large, then a key that is bad,
/// or missing, or stands at a default.
pub(crate) fn check_shape<T: PartItems>(
    is_default: bool,
    regions: usize,
    counts: Counts,
    names: &[T::DisplayName],
    key: Option<&str>,
) -> Result<(), MappingError>
    ensures { result_err result ≡ shape_fault is_default regions counts (map T.display_name_of names.now) (option_copied key.entry) }
{
    if !has_right_count(is_default, regions) {
        return Err(MappingError::RegionMissing);
    }
    if is_oversized::<T>(counts, names) {
        return Err(MappingError::TooLarge);
    }
    if !has_right_key(is_default, key) {
        return Err(MappingError::BadKey);
    }
    Ok(())
}

fn has_right_count(is_default: bool, regions: usize) -> bool
    ensures { result ≡ has_right_number is_default regions }
{
    if is_default {
        regions == 0
    } else {
        regions > 0
    }
}

#[tactic(auto, using(std::proofs::lemmas::Bool::Decides::nat_tests))]
fn is_oversized<T: PartItems>(counts: Counts, names: &[T::DisplayName]) -> bool
    ensures { result ≡ is_oversized_list counts (map T.display_name_of names.now) }
{
    counts.are_over() || names.len() > MAX_DISPLAY_NAMES || has_long_name::<T>(names)
}

fn has_long_name<T: PartItems>(names: &[T::DisplayName]) -> bool
    ensures { result ≡ list_any (λ name. nat_lt 1024 (length name.lang) || nat_lt 1024 (length name.text)) (map T.display_name_of names.now) }
{
    names.iter().any(|name| {
        T::lang(name).len() > MAX_DISPLAY_NAME_BYTES || T::text(name).len() > MAX_DISPLAY_NAME_BYTES
    })
}

fn has_right_key(is_default: bool, key: Option<&str>) -> bool
    ensures { result ≡ has_right_key_text is_default (option_copied key.entry) }
{
    match key {
        Some(key) => !is_default && is_id(key),
        None => is_default,
    }
}
