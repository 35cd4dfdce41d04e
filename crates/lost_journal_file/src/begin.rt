//! Beginning a journal.
ghost use Rattle.std.specs.Prelude.{◌≡◌, IsTrue, IfOk};
ghost use Rattle.sqlite_disk.specs.Disk.{Only};

use crate::JournalDisk;
use crate::fault::OpenFault;
use crate::locked::{make_locked, open_locked};
use crate::names::begun_name;
use crate::settled::settled;
use sqlite_disk::Disk;
use std::fs::{self, File, Files};

/// Begins a journal that will stand at a path: the file of that path and `.new`, which only its owner may read and
/// write, locked, with these first bytes, which are on the disk. One that an earlier run began there is removed.
/// [`place_journal`](crate::place_journal) puts it into its place.
///
/// # Errors
///
/// [`OpenFault`]: `Busy` if another begins one, and `NotRegular` if a folder, a link or a device has the name. What was
/// begun is then still there, and the next call removes it.
pub fn begin_journal<R: Files<File = File> + AllocGlobal>(
    rt: &R,
    path: &str,
    first: &[u8],
) -> Result<JournalDisk, OpenFault>
    ensures usable { IfOk result (λ disk. IsTrue (⟦<JournalDisk as Disk>⟧.is_usable disk)) }
    ensures clean { IfOk result (λ disk. IsTrue (⟦<JournalDisk as Disk>⟧.is_clean disk)) }
    ensures first { IfOk result (λ disk. ⟦<JournalDisk as Disk>⟧.seen disk ≡ first.now) }
    ensures crash { IfOk result (λ disk. Only (⟦<JournalDisk as Disk>⟧.seen disk) (⟦<JournalDisk as Disk>⟧.may_leave disk)) }
{
    let name = begun_name(rt.alloc(), path)?;
    remove_begun(rt, name.as_str())?;
    let file = make_locked(rt, name.as_str())?;
    let mut disk = settled(rt, file, path)?;
    disk.write_at(0, first)?;
    disk.sync()?;
    Ok(disk)
}

/// Removes what an earlier run began, under its lock. Its bytes stay where it has another name.
fn remove_begun<R: Files<File = File>>(rt: &R, name: &str) -> Result<(), OpenFault> {
    let Some(_held) = open_locked(rt, name)? else {
        return Ok(());
    };
    fs::remove_file(rt, name)?;
    Ok(())
}
