//! Answers a desk's lines, and keeps its edits.
ghost use Rattle.std.specs.Prelude.{◌≡◌, ◌⊎◌};
ghost use Rattle.lost_reading.specs.Desk.{desk_line};
ghost use Rattle.lost_reading.specs.DeskLines.{GivesLine};
ghost use Rattle.lost_writing.specs.DeskReplies.{IsInTable};
ghost use Rattle.lost_worker.specs.Desking.{AnswersRead, IsSameDesk, desk_terms, lists_of, said};
ghost use Rattle.lost_keeping.specs.Keepers.{is_clean_keeper, IsCleanKeeper, IsKept};

use crate::keeper::Keeper;
use crate::orders::read_order;
use lost_desk::Desk;
use lost_json::{DeskFault, DeskLine, DeskReply, desk_answer};
use lost_lines::{Answer, Answerer};
use lost_spec::Coded;
use lost_tape::Scratch;
use lost_worker::DeskWitness;
use sqlite_disk::Disk;
use std::alloc::Global;
use std::sync::Wait;
use std::time::Clock;

/// Answers the lines of a desk's connection: its desk, what keeps its edits, and the witness.
#[derive(Drop)]
pub(crate) struct Keeping<'r, 'd, 'k, 's, 'w, T, D: Disk, V> {
    pub(crate) rt: &'r T,
    pub(crate) desk: &'d mut Desk,
    pub(crate) keeper: &'k mut Keeper<D>,
    pub(crate) scratch: &'s mut Scratch,
    pub(crate) witness: &'w mut V,
}

impl<T: Wait + Clock, D: Disk, V: DeskWitness> Answerer for Keeping<'_, '_, '_, '_, '_, T, D, V> {
    ghost use Rattle.lost_keeping.specs.Serving.{Keeps};

    ghost step = { Keeps V.step };

    fn answer(&mut self, alloc: Global, line: &[u8]) -> Answer {
        let read = read_order(alloc, line, self.scratch);
        let reply = judge(self.rt, self.desk, self.keeper, self.scratch, line, read);
        self.witness.saw(Some(line), reply, self.desk);
        desk_answer(reply)
    }

    fn answer_long(&mut self) -> Answer {
        let reply = DeskReply::Refused(1);
        self.witness.saw(None, reply, self.desk);
        desk_answer(reply)
    }

    fn answer_unread(&mut self) -> Answer {
        let reply = DeskReply::Refused(20);
        self.witness.saw(None, reply, self.desk);
        desk_answer(reply)
    }
}

/// The reply to a line, given what was read of it. A line that is no desk line is code 1.
fn judge<T: Wait + Clock, D: Disk>(
    rt: &T,
    desk: &mut Desk,
    keeper: &mut Keeper<D>,
    scratch: &mut Scratch,
    line: &[u8],
    read: Result<Option<DeskLine>, DeskFault>,
) -> DeskReply
    requires read { GivesLine read (desk_line line.now) }
    ensures clean { is_clean_keeper keeper.new ≡ is_clean_keeper keeper.old }
    ensures kept { IsCleanKeeper keeper.old → IsKept keeper.old desk.old → IsKept keeper.new desk.new }
    ensures answered { AnswersRead read (desk_terms desk.old.limits) (lists_of desk.old) line.now (said result) (lists_of desk.new)
        ⊎ ((result ≡ DeskReply.Refused 23) × (desk.new ≡ desk.old)) }
    ensures same { IsSameDesk desk.old desk.new }
    ensures in_table { IsInTable result }
{
    match read {
        Ok(Some(DeskLine::Edit(edit))) => keeper.keep(desk, line, edit),
        Ok(Some(DeskLine::Commit)) => keeper.commit(rt, desk, scratch),
        Ok(None) => DeskReply::Refused(1),
        Err(fault) => DeskReply::Refused(fault.code()),
    }
}
