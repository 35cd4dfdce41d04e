//! Opening a journal that is there.
ghost use Rattle.std.specs.Prelude.{IsTrue, IfOk, IfSome};
ghost use Rattle.sqlite_disk.specs.Disk.{Only};

use crate::JournalDisk;
use crate::fault::OpenFault;
use crate::locked::{open_locked, open_unlocked};
use crate::settled::settled;
use sqlite_disk::Disk;
use std::fs::{File, Files};

/// Opens the journal at a path, and locks it. None if no file is there, or an empty one. The file is flushed with its
/// folder first, so a crash leaves what is read.
///
/// # Errors
///
/// [`OpenFault`]: `Busy` if another open of the file holds the lock, and `NotRegular` if a folder, a link or a device
/// has the name.
pub fn open_journal<R: Files<File = File>>(
    rt: &R,
    path: &str,
) -> Result<Option<JournalDisk>, OpenFault>
    ensures usable { IfOk result (λ found. IfSome found (λ disk. IsTrue (⟦<JournalDisk as Disk>⟧.is_usable disk))) }
    ensures crash { IfOk result (λ found. IfSome found (λ disk. Only (⟦<JournalDisk as Disk>⟧.seen disk) (⟦<JournalDisk as Disk>⟧.may_leave disk))) }
{
    let Some(file) = open_locked(rt, path)? else {
        return Ok(None);
    };
    if file.metadata()?.len() == 0 {
        return Ok(None);
    }
    let disk = settled(rt, file, path)?;
    Ok(Some(disk))
}

/// Opens the journal at a path to be read alone: it is not locked, so a server may use it meanwhile. None if no file is
/// there, or an empty one. The file is flushed with its folder first, so a crash leaves what is read.
///
/// # Errors
///
/// [`OpenFault`]: `NotRegular` if the path leads to a folder or a device.
pub fn look_at_journal<R: Files<File = File>>(
    rt: &R,
    path: &str,
) -> Result<Option<JournalDisk>, OpenFault>
    ensures usable { IfOk result (λ found. IfSome found (λ disk. IsTrue (⟦<JournalDisk as Disk>⟧.is_usable disk))) }
    ensures crash { IfOk result (λ found. IfSome found (λ disk. Only (⟦<JournalDisk as Disk>⟧.seen disk) (⟦<JournalDisk as Disk>⟧.may_leave disk))) }
{
    let Some(file) = open_unlocked(rt, path)? else {
        return Ok(None);
    };
    if file.metadata()?.len() == 0 {
        return Ok(None);
    }
    let disk = settled(rt, file, path)?;
    Ok(Some(disk))
}
