//! Answers the lines of a desk's connection, and keeps its edits.
ghost use Rattle.std.specs.Prelude.{◌≡◌, ◌≢◌, Err};
ghost use Rattle.lost_lines.specs.Calls.{AreFresh, StreamFaults};
ghost use Rattle.lost_worker.specs.Desking.{IsSameDesk};
ghost use Rattle.lost_keeping.specs.Keepers.{is_clean_keeper, IsCleanKeeper, IsKept};

use crate::answering::Keeping;
use crate::keeper::Keeper;
use lost_desk::Desk;
use lost_lines::{Counts, NoGate, ServeError, Turns, Watched, run_lines};
use lost_tape::Scratch;
use lost_worker::DeskWitness;
use sqlite_disk::Disk;
use std::alloc::Global;
use std::io::{Read, Write};
use std::sync::Wait;
use std::time::Clock;

/// Answers the desk lines of `input` as [`lost_worker::serve_desk_with`] does, and keeps each edit before it is staged
/// and each commit before it is published. What cannot be kept is code 23, and changes nothing.
///
/// # Errors
///
/// Those of [`lost_worker::serve_desk`].
pub fn serve_desk_kept<T: Wait + Clock, R: Read, W: Write, D: Disk, V: DeskWitness>(
    rt: &T,
    alloc: Global,
    input: &mut Watched<R>,
    output: &mut Watched<W>,
    desk: &mut Desk,
    keeper: &mut Keeper<D>,
    witness: &mut V,
    turns: Turns,
) -> Result<Counts, ServeError>
    requires fresh { AreFresh input.old output.old }
    // Whatever the lines and the disk did, all that was published is kept.
    ensures kept { IsCleanKeeper keeper.old → IsKept keeper.old desk.old → IsKept keeper.new desk.new }
    ensures clean { is_clean_keeper keeper.new ≡ is_clean_keeper keeper.old }
    ensures same { IsSameDesk desk.old desk.new }
    ensures faults { StreamFaults R.remaining turns input.new output.old output.new result }
    ensures memory { result ≢ Err ServeError.Memory }
{
    let mut scratch = Scratch::new(alloc);
    let mut keeping = Keeping {
        rt,
        desk,
        keeper,
        scratch: &mut scratch,
        witness,
    };
    run_lines(alloc, input, output, &mut keeping, &NoGate, turns)
}
