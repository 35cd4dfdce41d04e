//! What a crash leaves of a journal, and what a server publishes of it.
ghost use Rattle.std.specs.Prelude.{List, ℕ};
ghost use Rattle.lost_desk.specs.Seen.{DeskSeen};
ghost use Rattle.lost_keeping.specs.Keepers.{IsCleanKeeper, IsKept};
ghost use Rattle.lost_durability.specs.Survival.{Survives};

use lost_desk::Desk;
use lost_keeping::Keeper;
use sqlite_disk::Disk;

/// Whatever a crash at this moment leaves of the journal: where it can be opened again, what is published then begins
/// with all that was published before, and so with every list that a reader saw, unless the crash tore the byte of the
/// last gate. It does nothing.
pub fn published_survives<D: Disk>(_keeper: &Keeper<D>, _desk: &Desk)
    ensures { IsCleanKeeper _keeper.now → IsKept _keeper.now _desk.now → (after : DeskSeen) → Survives _keeper.now _desk.now after }
{}
