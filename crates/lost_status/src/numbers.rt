//! Lists of counts.
ghost use Rattle.std.specs.Prelude.{◌≡◌, ◌<◌, ℕ, length, slice_index};
ghost use Rattle.lost_status.specs.Figures.{counted_at, plus};

/// Adds one to the count at a place.
pub(crate) fn count_at(counts: &mut [u64], place: usize)
    requires { place < length counts.old }
    ensures { counts.new ≡ counted_at counts.old place }
{
    counts[place] = counts[place].wrapping_add(1);
}

/// Adds to each count the one at its place among others, which are as many.
pub(crate) fn add_each(counts: &mut [u64], more: &[u64])
    requires { length counts.old ≡ length more.now }
    ensures { (place : ℕ) → place < length counts.old
        → slice_index counts.new place ≡ plus (slice_index counts.old place) (slice_index more.now place) }
{
    for place in 0..counts.len() {
        counts[place] = counts[place].wrapping_add(more[place]);
    }
}
