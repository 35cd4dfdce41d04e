//! Changes of the entry of one number, in the chunks of the held numbers.
ghost use Rattle.std.specs.Prelude.{◌≡◌, ◌≤◌, ◌++◌, OnOk, OnErr};
ghost use Rattle.std.specs.List.{slice_range};
ghost use Rattle.lost_index.specs.Chunks.{HasRow, AreChunks, rows_of};
ghost use Rattle.lost_index.specs.Entries.{IsHeld, HasRegions, with_number};

use crate::chunks::{chunk_of, place_in};
use crate::entry::Entry;
use lost_profile::Profile;
use std::alloc::AllocError;

/// Adds regions to a held number. If memory is refused, nothing changes.
pub(crate) fn append<P: Profile>(
    chunks: &mut Vec<Vec<(u64, Entry<P>)>>,
    number: u64,
    more: &mut Entry<P>,
) -> Result<(), AllocError>
    requires chunks { AreChunks chunks.old.items }
    requires held { IsHeld number (rows_of chunks.old.items) }
    ensures chunks { AreChunks chunks.new.items }
    ensures appended { OnOk result (rows_of chunks.new.items ≡ with_number number (λ regions. regions ++ more.old) (rows_of chunks.old.items)) }
    ensures refused { OnErr result (rows_of chunks.new.items ≡ rows_of chunks.old.items) }
    ensures given_back { OnErr result (more.new ≡ more.old) }
{
    let position = chunk_of(chunks, number);
    append_in(&mut chunks[position], number, more)
}

/// The same in the chunk that has the number.
fn append_in<P: Profile>(
    chunk: &mut Vec<(u64, Entry<P>)>,
    number: u64,
    more: &mut Entry<P>,
) -> Result<(), AllocError>
    requires { HasRow number chunk.old.items }
    ensures appended { OnOk result (chunk.new.items ≡ with_number number (λ regions. regions ++ more.old) chunk.old.items) }
    ensures refused { OnErr result (chunk.new.items ≡ chunk.old.items) }
    ensures given_back { OnErr result (more.new ≡ more.old) }
{
    let place = place_in(chunk, number);
    chunk[place].1.append(more)
}

/// Keeps only the regions of a number at the positions from `from` up to before `to`. It takes no memory.
pub(crate) fn cut<P: Profile>(
    chunks: &mut Vec<Vec<(u64, Entry<P>)>>,
    number: u64,
    from: usize,
    to: usize,
)
    requires chunks { AreChunks chunks.old.items }
    requires held { IsHeld number (rows_of chunks.old.items) }
    requires in_order { from ≤ to }
    requires within { HasRegions to number (rows_of chunks.old.items) }
    ensures chunks { AreChunks chunks.new.items }
    ensures cut { rows_of chunks.new.items ≡ with_number number (λ regions. slice_range regions from to) (rows_of chunks.old.items) }
{
    let position = chunk_of(chunks, number);
    cut_in(&mut chunks[position], number, from, to);
}

/// The same in the chunk that has the number.
fn cut_in<P: Profile>(chunk: &mut Vec<(u64, Entry<P>)>, number: u64, from: usize, to: usize)
    requires row { HasRow number chunk.old.items }
    requires in_order { from ≤ to }
    requires within { HasRegions to number chunk.old.items }
    ensures { chunk.new.items ≡ with_number number (λ regions. slice_range regions from to) chunk.old.items }
{
    let place = place_in(chunk, number);
    chunk[place].1.cut(from, to);
}
