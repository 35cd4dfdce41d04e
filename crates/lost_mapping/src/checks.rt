//! The first refusal of parts other than the head, found before any memory is taken.
ghost use Rattle.std.specs.Prelude.{◌≡◌};
ghost use Rattle.std.specs.Result.{result_err};
ghost use Rattle.lost_mapping.specs.Faults.{contact_fault, areas_fault};
ghost use Rattle.lost_mapping.specs.Parts.{borrowed_parts_of};

use crate::counted::count_regions;
use crate::number::is_number;
use crate::part_items::PartItems;
use crate::parts::BorrowedParts;
use crate::shape::check_shape;
use crate::uris::are_uris;
use lost_spec::faults::MappingError;

/// Refuses bad URIs, and then a bad number.
pub(crate) fn check_contact<T: PartItems>(
    parts: &BorrowedParts<'_, T::Uri, T::Region, T::DisplayName>,
) -> Result<(), MappingError>
    ensures { result_err result ≡ contact_fault (borrowed_parts_of T.uri_of T.region_of T.display_name_of parts.now) }
{
    if !are_uris::<T>(parts.uris) {
        return Err(MappingError::BadUri);
    }
    if !is_number(parts.number) {
        return Err(MappingError::BadNumber);
    }
    Ok(())
}

/// Refuses bad regions, then a bad combination, sizes over a limit, and a bad key.
pub(crate) fn check_areas<T: PartItems>(
    parts: &BorrowedParts<'_, T::Uri, T::Region, T::DisplayName>,
) -> Result<(), MappingError>
    ensures { result_err result ≡ areas_fault (borrowed_parts_of T.uri_of T.region_of T.display_name_of parts.now) }
{
    let Some(counts) = count_regions::<T>(parts.regions) else {
        return Err(MappingError::BadRegion);
    };
    check_shape::<T>(
        parts.is_default,
        parts.regions.len(),
        counts,
        parts.display_names,
        parts.key,
    )
}
