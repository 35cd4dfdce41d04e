//! Reads a server's map and its journal from where its order says.
ghost use Rattle.std.specs.Prelude.{◌≡◌, [], IfOk};
ghost use Rattle.lost_worker.specs.Desking.{IsSameDesk, lists_of};
ghost use Rattle.lost_keeping.specs.Kept.{all_published};
ghost use Rattle.lost_keeping.specs.Keepers.{is_clean_keeper, IsCleanKeeper, IsKept};

use crate::journal::{open, place};
use crate::map::{MapFound, load_map};
use crate::map_kept::load_map_kept;
use crate::order::ServerOrder;
use crate::server_fault::{JournalFault, MapFault, ServerFault};
use lost_desk::Desk;
use lost_journal_file::JournalDisk;
use lost_keeping::Keeper;
use sqlite_disk::Disk;
use std::fs;
use std::fs::{File, Files};
use std::io::{Eprint, ErrorKind, Input};
use std::sync::Wait;
use std::time::Clock;

/// The file name that means standard input.
const STANDARD_INPUT: &str = "-";

/// Reads the map from a file, or from standard input.
pub(crate) fn load_from<R: Wait + Eprint + Input + Files + AllocGlobal>(
    rt: &R,
    path: &str,
    order: &ServerOrder<'_>,
    desk: &mut Desk,
) -> Result<(), ServerFault>
    ensures { IsSameDesk desk.old desk.new }
{
    let loaded = if path == STANDARD_INPUT {
        load_map(
            rt,
            rt.alloc(),
            rt.reader(),
            desk,
            order.on_refusal,
            order.progress,
        )
    } else {
        load_file(rt, path, order, desk)
    };
    match loaded {
        Ok(_) => Ok(()),
        Err(fault) => Err(ServerFault::Map(fault)),
    }
}

/// Reads the map from a file.
fn load_file<R: Wait + Eprint + Files + AllocGlobal>(
    rt: &R,
    path: &str,
    order: &ServerOrder<'_>,
    desk: &mut Desk,
) -> Result<MapFound, MapFault>
    ensures { IsSameDesk desk.old desk.new }
{
    if is_folder(rt, path) {
        return Err(MapFault::Unopened(ErrorKind::IsADirectory));
    }
    match fs::open(rt, path) {
        Ok(file) => load_map(rt, rt.alloc(), file, desk, order.on_refusal, order.progress),
        Err(error) => Err(MapFault::Unopened(error.kind())),
    }
}

/// Publishes the edits of the journal at a path, or begins one, with the map, if there is one. A map beside a journal
/// that keeps edits is not read. Gives what keeps further edits.
pub(crate) fn load_kept<R: Wait + Clock + Eprint + Input + Files<File = File> + AllocGlobal>(
    rt: &R,
    path: &str,
    order: &ServerOrder<'_>,
    desk: &mut Desk,
) -> Result<Keeper<JournalDisk>, ServerFault>
    requires nothing { lists_of desk.old ≡ all_published [] }
    ensures kept { IfOk result (λ keeper. IsCleanKeeper keeper → IsKept keeper desk.new) }
    ensures same { IsSameDesk desk.old desk.new }
{
    let mut opened = open(rt, path, desk)?;
    if let Some(map) = order.map {
        if desk.edition() > 0 {
            return Err(ServerFault::Journal(JournalFault::Holds(desk.edition())));
        }
        keep_from(rt, map, order, desk, &mut opened.keeper)?;
    }
    place(rt, path, opened.stands)?;
    Ok(opened.keeper)
}

/// Reads the map from a file, or from standard input, and keeps its edits.
fn keep_from<R: Wait + Clock + Eprint + Input + Files + AllocGlobal, D: Disk>(
    rt: &R,
    path: &str,
    order: &ServerOrder<'_>,
    desk: &mut Desk,
    keeper: &mut Keeper<D>,
) -> Result<(), ServerFault>
    ensures kept { IsCleanKeeper keeper.old → IsKept keeper.old desk.old → IsKept keeper.new desk.new }
    ensures clean { is_clean_keeper keeper.new ≡ is_clean_keeper keeper.old }
    ensures same { IsSameDesk desk.old desk.new }
{
    if path == STANDARD_INPUT {
        return load_map_kept(rt, rt.reader(), order, desk, keeper);
    }
    if is_folder(rt, path) {
        return Err(ServerFault::Map(MapFault::Unopened(ErrorKind::IsADirectory)));
    }
    match fs::open(rt, path) {
        Ok(file) => load_map_kept(rt, file, order, desk, keeper),
        Err(error) => Err(ServerFault::Map(MapFault::Unopened(error.kind()))),
    }
}

/// Whether a path leads to a folder.
fn is_folder<R: Files>(rt: &R, path: &str) -> bool {
    match fs::metadata(rt, path) {
        Ok(metadata) => metadata.is_dir(),
        Err(_) => false,
    }
}
