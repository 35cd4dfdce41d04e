//! Reads a journal at a path.
ghost use Rattle.std.specs.Prelude.{◌≡◌, [], OnOk};
ghost use Rattle.lost_worker.specs.Desking.{IsSameDesk, lists_of};
ghost use Rattle.lost_keeping.specs.Kept.{all_published};

use crate::fault::JournalFault;
use lost_desk::Desk;
use lost_journal_file::{JournalLength, look_at_journal};
use lost_keeping::{Damage, Recovered, RecoveryFault, Stopped, examine};
use std::fs::{File, Files};
use std::sync::Wait;

/// Publishes what the journal at a path keeps on a desk that has no edits. The file stays as it is. Of one that a server
/// goes on to write it is what was kept when its reading began, or some commits less.
///
/// # Errors
///
/// [`JournalFault`].
pub(crate) fn read_journal<R: Wait + Files<File = File> + AllocGlobal>(
    rt: &R,
    path: &str,
    desk: &mut Desk,
) -> Result<Recovered, JournalFault>
    requires nothing { lists_of desk.old ≡ all_published [] }
    ensures nothing_pending { OnOk result (desk.new.pending ≡ []) }
    ensures same { IsSameDesk desk.old desk.new }
{
    let length = JournalLength::of(rt, path);
    let disk = match look_at_journal(rt, path) {
        Ok(Some(disk)) => disk,
        Ok(None) => return Err(JournalFault::Missing),
        Err(fault) => return Err(JournalFault::Unopened(fault)),
    };
    match examine(rt, rt.alloc(), disk, desk) {
        Ok((_reading, recovered)) => Ok(recovered),
        Err(stopped) if length.has_grown(rt) => read_so_far(stopped, desk),
        Err(stopped) => Err(JournalFault::NotRead(stopped)),
    }
}

/// What was read of a journal that a server went on to write: its last gate was opened before it was read, or that of a
/// commit behind it. Each commit that was read stands.
fn read_so_far(stopped: Stopped, desk: &mut Desk) -> Result<Recovered, JournalFault>
    ensures nothing_pending { OnOk result (desk.new.pending ≡ []) }
    ensures same { IsSameDesk desk.old desk.new }
{
    let RecoveryFault::Damaged(Damage::NoEnd | Damage::CommitBehind) = stopped.fault else {
        return Err(JournalFault::NotRead(stopped));
    };
    desk.drop_pending()?;
    Ok(Recovered {
        lines: stopped.line.saturating_sub(1),
        bytes: stopped.offset,
        dropped_lines: 0,
        dropped_bytes: 0,
    })
}
