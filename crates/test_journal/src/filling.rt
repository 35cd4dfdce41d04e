//! A disk that is given a content and opened as a journal.
ghost use Rattle.std.specs.Prelude.{◌≡◌, []};
ghost use Rattle.lost_worker.specs.Desking.{lists_of};
ghost use Rattle.lost_keeping.specs.Kept.{all_published};

use lost_desk::Desk;
use lost_keeping::{Keeper, Recovered, Stopped, recover};
use sqlite_disk::Disk;
use std::alloc::Global;
use std::io;
use std::sync::Wait;

/// How many calls give a disk its content: a write and a flush.
pub(crate) const FILLING: u64 = 2;

/// What keeps a desk's edits and what was read of a journal, or why that was not opened.
pub(crate) type Opened<D> = Result<(Keeper<D>, Recovered), Stopped>;

/// Gives an empty disk a content, and opens that as a journal by a desk with no edits.
pub(crate) fn open_filled<R: Wait, D: Disk + Drop>(
    rt: &R,
    alloc: Global,
    mut disk: D,
    content: &[u8],
    desk: &mut Desk,
) -> io::Result<Opened<D>>
    requires nothing { lists_of desk.old ≡ all_published [] }
{
    if !disk.may_be_used() {
        return Err(io::Error::other("the disk is spent"));
    }
    disk.write_at(0, content)?;
    disk.sync()?;
    Ok(recover(rt, alloc, disk, desk))
}
