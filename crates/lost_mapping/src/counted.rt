//! How many regions of each kind the parts of a mapping have.
ghost use Rattle.std.specs.Prelude.{◌≡◌, map};
ghost use Rattle.lost_location.specs.Counted.{region_counts};

use crate::part_items::PartItems;
use lost_location::Counts;

/// How many regions there are of each kind; `None` where one cannot be read or is refused. It takes no memory.
pub(crate) fn count_regions<T: PartItems>(regions: &[T::Region]) -> Option<Counts>
    ensures { result ≡ region_counts (map T.region_of regions.now) }
{
    let mut counts = Counts::none();
    let mut rest = regions;
    while let Some((region, others)) = rest.split_first() {
        counts.add(T::region_kind(region)?);
        rest = others;
    }
    Some(counts)
}
