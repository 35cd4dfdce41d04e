//! The journal of a server that starts.
ghost use Rattle.std.specs.Prelude.{◌≡◌, [], IfOk, OnOk, IsTrue};
ghost use Rattle.sqlite_disk.specs.Disk.{Only};
ghost use Rattle.lost_worker.specs.Desking.{IsSameDesk, lists_of};
ghost use Rattle.lost_keeping.specs.Kept.{all_published};
ghost use Rattle.lost_keeping.specs.Keepers.{IsCleanKeeper, IsKept};

use crate::map::say;
use crate::server_fault::JournalFault;
use lost_desk::Desk;
use lost_journal_file::{JournalDisk, begin_journal, open_journal, place_journal};
use lost_keeping::{Keeper, first_line, recover};
use sqlite_disk::Disk;
use std::fs::{File, Files};
use std::io::Eprint;
use std::sync::Wait;
use std::time::Clock;

/// Where the file of a journal stands.
#[derive(Clone, Copy, PartialEq, Eq, Debug)]
pub(crate) enum Stands {
    /// In its place.
    There,
    /// Beside its place, where it was begun.
    Begun,
}

/// A journal whose edits are published, and what keeps further ones.
#[derive(Drop)]
pub(crate) struct Opened {
    pub(crate) keeper: Keeper<JournalDisk>,
    pub(crate) stands: Stands,
}

/// Opens the journal at a path, or begins one if there is none, and publishes its edits on a desk that has none. What a
/// crash left behind its last commit is dropped, and that is said on standard error.
///
/// # Errors
///
/// [`JournalFault`].
pub(crate) fn open<R: Wait + Clock + Eprint + Files<File = File> + AllocGlobal>(
    rt: &R,
    path: &str,
    desk: &mut Desk,
) -> Result<Opened, JournalFault>
    requires nothing { lists_of desk.old ≡ all_published [] }
    ensures kept { IfOk result (λ opened. IsCleanKeeper opened.keeper → IsKept opened.keeper desk.new) }
    ensures nothing_pending { OnOk result (desk.new.pending ≡ []) }
    ensures same { IsSameDesk desk.old desk.new }
{
    if path.is_empty() {
        return Err(JournalFault::NoPath);
    }
    match open_journal(rt, path) {
        Ok(Some(disk)) => recovered(rt, disk, Stands::There, desk),
        Ok(None) => begin(rt, path, desk),
        Err(fault) => Err(JournalFault::Unopened(fault)),
    }
}

/// Begins a journal beside its place.
fn begin<R: Wait + Clock + Eprint + Files<File = File> + AllocGlobal>(
    rt: &R,
    path: &str,
    desk: &mut Desk,
) -> Result<Opened, JournalFault>
    requires nothing { lists_of desk.old ≡ all_published [] }
    ensures kept { IfOk result (λ opened. IsCleanKeeper opened.keeper → IsKept opened.keeper desk.new) }
    ensures nothing_pending { OnOk result (desk.new.pending ≡ []) }
    ensures same { IsSameDesk desk.old desk.new }
{
    let line = first_line(rt.alloc(), rt.since_1970().ok())?;
    match begin_journal(rt, path, line.as_bytes()) {
        Ok(disk) => recovered(rt, disk, Stands::Begun, desk),
        Err(fault) => Err(JournalFault::Unopened(fault)),
    }
}

/// Publishes the edits of a journal.
fn recovered<R: Wait + Eprint + AllocGlobal>(
    rt: &R,
    disk: JournalDisk,
    stands: Stands,
    desk: &mut Desk,
) -> Result<Opened, JournalFault>
    requires usable { IsTrue (⟦<JournalDisk as Disk>⟧.is_usable disk) }
    requires settled { Only (⟦<JournalDisk as Disk>⟧.seen disk) (⟦<JournalDisk as Disk>⟧.may_leave disk) }
    requires nothing { lists_of desk.old ≡ all_published [] }
    ensures kept { IfOk result (λ opened. IsCleanKeeper opened.keeper → IsKept opened.keeper desk.new) }
    ensures nothing_pending { OnOk result (desk.new.pending ≡ []) }
    ensures same { IsSameDesk desk.old desk.new }
{
    match recover(rt, rt.alloc(), disk, desk) {
        Ok((keeper, found)) => {
            say_dropped(rt, found.dropped_bytes, found.dropped_lines);
            Ok(Opened { keeper, stands })
        }
        Err(stopped) => Err(JournalFault::NotRecovered(stopped)),
    }
}

/// Says how many bytes and whole lines behind the last commit were dropped, if any were.
fn say_dropped<R: Eprint + AllocGlobal>(rt: &R, bytes: u64, lines: u64) {
    if bytes > 0 {
        say(
            rt,
            format!(in rt.alloc();
                "lostd: --journal: dropped what stood behind the last commit: bytes {bytes}, whole lines {lines}\n"
            ),
        );
    }
}

/// Puts a journal into its place, if it was begun.
///
/// # Errors
///
/// [`JournalFault::Unopened`].
pub(crate) fn place<R: Files<File = File> + AllocGlobal>(
    rt: &R,
    path: &str,
    stands: Stands,
) -> Result<(), JournalFault> {
    if stands == Stands::There {
        return Ok(());
    }
    match place_journal(rt, path) {
        Ok(()) => Ok(()),
        Err(fault) => Err(JournalFault::Unopened(fault)),
    }
}
