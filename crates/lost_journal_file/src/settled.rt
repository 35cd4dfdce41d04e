//! A journal's file as a disk.
ghost use Rattle.std.specs.Prelude.{◌≡◌, [], IsTrue, IfOk};
ghost use Rattle.sqlite_disk.specs.Disk.{Only};

use crate::JournalDisk;
use crate::file_calls::{FileCalls, KEY};
use crate::names::folder_of;
use sqlite_disk::{Disk, Modelled};
use std::fs::{File, Files};
use std::io;

/// The file that stands at a path, flushed with its folder: a crash leaves what is read. Of what it holds nothing is
/// known but by reading, or because it was made just now.
pub(crate) fn settled<R: Files<File = File>>(
    rt: &R,
    file: File,
    path: &str,
) -> io::Result<JournalDisk>
    ensures usable { IfOk result (λ disk. IsTrue (⟦<JournalDisk as Disk>⟧.is_usable disk)) }
    ensures clean { IfOk result (λ disk. IsTrue (⟦<JournalDisk as Disk>⟧.is_clean disk)) }
    ensures empty { IfOk result (λ disk. ⟦<JournalDisk as Disk>⟧.seen disk ≡ []) }
    ensures crash { IfOk result (λ disk. Only (⟦<JournalDisk as Disk>⟧.seen disk) (⟦<JournalDisk as Disk>⟧.may_leave disk)) }
{
    let folder = File::open(rt, folder_of(path))?;
    let calls = FileCalls::settle(file, &folder)?;
    Ok(Modelled::new(calls, false, KEY))
}
