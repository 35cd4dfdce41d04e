//! The map that begins a journal.
ghost use Rattle.std.specs.Prelude.{◌≡◌, [], OnOk};
ghost use Rattle.lost_worker.specs.Desking.{IsSameDesk};
ghost use Rattle.lost_keeping.specs.Keepers.{is_clean_keeper, IsCleanKeeper, IsKept};

use crate::map::{MapFound, MapReading, TURNS, say};
use crate::order::{OnRefusal, ServerOrder};
use crate::server_fault::{JournalFault, MapFault, ServerFault};
use lost_desk::Desk;
use lost_keeping::{Keeper, serve_desk_kept};
use lost_lines::Watched;
use sqlite_disk::Disk;
use std::alloc::{AllocError, Global};
use std::io;
use std::io::{Eprint, Read};
use std::sync::Wait;
use std::time::Clock;

/// Answers the desk lines of a map as [`crate::load_map`] does, with the same reports, and keeps its edits: those that
/// it publishes are on the disk.
///
/// # Errors
///
/// [`ServerFault::Journal`] if an edit or a commit could not be kept, and else [`ServerFault::Map`] as
/// [`crate::load_map`] says.
pub(crate) fn load_map_kept<T: Wait + Clock + Eprint + AllocGlobal, I: Read + Drop, D: Disk>(
    rt: &T,
    input: I,
    order: &ServerOrder<'_>,
    desk: &mut Desk,
    keeper: &mut Keeper<D>,
) -> Result<(), ServerFault>
    ensures kept { IsCleanKeeper keeper.old → IsKept keeper.old desk.old → IsKept keeper.new desk.new }
    ensures clean { is_clean_keeper keeper.new ≡ is_clean_keeper keeper.old }
    ensures nothing_pending { OnOk result (desk.new.pending ≡ []) }
    ensures same { IsSameDesk desk.old desk.new }
{
    let read = read_map(rt, rt.alloc(), input, order, desk, keeper);
    if let Some(fault) = keeper.take_fault() {
        return Err(ServerFault::Journal(JournalFault::NotKept(fault)));
    }
    let found = read?;
    let pending = desk.pending();
    if order.on_refusal == OnRefusal::Stop && (found.refused > 0 || pending > 0) {
        return Err(ServerFault::Map(MapFault::Refused {
            refused: found.refused,
            pending,
        }));
    }
    if pending > 0 {
        say(
            rt,
            format!(in rt.alloc();
                "lostd: --map: {pending} edits after the last commit were left out\n"
            ),
        );
    }
    match keeper.drop_pending(desk) {
        Ok(()) => Ok(()),
        Err(AllocError) => Err(ServerFault::Map(MapFault::Memory)),
    }
}

/// Answers the desk lines of a map, keeps its edits, and gives the counts.
fn read_map<T: Wait + Clock + Eprint, I: Read + Drop, D: Disk>(
    rt: &T,
    alloc: Global,
    input: I,
    order: &ServerOrder<'_>,
    desk: &mut Desk,
    keeper: &mut Keeper<D>,
) -> Result<MapFound, ServerFault>
    ensures kept { IsCleanKeeper keeper.old → IsKept keeper.old desk.old → IsKept keeper.new desk.new }
    ensures clean { is_clean_keeper keeper.new ≡ is_clean_keeper keeper.old }
    ensures same { IsSameDesk desk.old desk.new }
{
    let mut input = Watched::new(input);
    let mut output = Watched::new(io::sink());
    let mut reading = MapReading {
        rt,
        alloc,
        found: MapFound {
            lines: 0,
            refused: 0,
        },
        progress: order.progress,
    };
    match serve_desk_kept(
        rt,
        alloc,
        &mut input,
        &mut output,
        desk,
        keeper,
        &mut reading,
        TURNS,
    ) {
        Ok(_) => Ok(reading.found),
        Err(_) => Err(ServerFault::Map(MapFault::Unread)),
    }
}
