//! Answers the lines of a desk's connection.
ghost use Rattle.std.specs.Prelude.{◌≡◌, [], length, Some, Ok};
ghost use Rattle.lost_spec.specs.Text.{Text as Bytes};
ghost use Rattle.lost_mapping.specs.Edit.{edit_of};
ghost use Rattle.lost_reading.specs.Desk.{Stage, Commit, desk_line};
ghost use Rattle.lost_reading.specs.DeskLines.{GivesLine};
ghost use Rattle.lost_writing.specs.DeskReplies.{IsInTable};
ghost use Rattle.lost_worker.specs.Desking.{AnswersRead, IsJudged, IsSameDesk, desk_terms, lists_of, said};

use crate::witness::DeskWitness;
use lost_book::Edit;
use lost_desk::Desk;
use lost_json::{DeskFault, DeskLine, DeskReply, desk_answer};
use lost_lines::{Answer, Answerer};
use lost_reading::Line;
use lost_spec::Coded;
use lost_tape::{Scratch, read_line};
use std::alloc::Global;
use std::sync::Wait;

/// Answers the lines of a desk's connection: its desk, the runtime by which a commit waits, and the witness. The
/// scratch is the parser's working memory, and holds nothing of the lines.
#[derive(Drop)]
pub(crate) struct Desking<'r, 'd, 's, 'w, T: Wait, V: DeskWitness> {
    pub(crate) rt: &'r T,
    pub(crate) desk: &'d mut Desk,
    pub(crate) scratch: &'s mut Scratch,
    pub(crate) witness: &'w mut V,
}

impl<T: Wait, V: DeskWitness> Answerer for Desking<'_, '_, '_, '_, T, V> {
    ghost use Rattle.lost_worker.specs.Desking.{Desks};

    ghost step = { Desks V.step };

    fn answer(&mut self, alloc: Global, line: &[u8]) -> Answer {
        let read = read_desk_by_tape(alloc, line, self.scratch);
        let reply = judge(self.rt, self.desk, read);
        self.witness.saw(Some(line), reply, self.desk);
        desk_answer(reply)
    }

    fn answer_long(&mut self) -> Answer {
        let reply = DeskReply::Refused(1);
        self.witness.saw(None, reply, self.desk);
        desk_answer(reply)
    }

    fn answer_unread(&mut self) -> Answer {
        let reply = DeskReply::Refused(20);
        self.witness.saw(None, reply, self.desk);
        desk_answer(reply)
    }
}

/// Reads a desk line by its tokens; `None` if the line is no desk line but, for example, a request.
fn read_desk_by_tape(
    alloc: Global,
    line: &[u8],
    scratch: &mut Scratch,
) -> Result<Option<DeskLine>, DeskFault>
    ensures { GivesLine result (desk_line line.now) }
{
    match read_line(alloc, line, scratch)? {
        Line::Desk(order) => Ok(Some(order)),
        Line::Request(_) | Line::Neither => Ok(None),
    }
}

/// The reply to a line, given what was read of the line. A line that is no desk line is code 1. Code 20 says that
/// memory was refused for reading the line, for a commit, or for staging an edit that nothing else refuses.
fn judge<T: Wait>(rt: &T, desk: &mut Desk, read: Result<Option<DeskLine>, DeskFault>) -> DeskReply
    ensures answered { (line : Bytes) → AnswersRead read (desk_terms desk.old.limits) (lists_of desk.old) line
        (said result) (lists_of desk.new) }
    ensures same { IsSameDesk desk.old desk.new }
    ensures in_table { IsInTable result }
{
    match read {
        Ok(Some(DeskLine::Edit(edit))) => stage(desk, edit),
        Ok(Some(DeskLine::Commit)) => commit(rt, desk),
        Ok(None) => DeskReply::Refused(1),
        Err(fault) => DeskReply::Refused(fault.code()),
    }
}

/// Stages an edit: its refusal, or the number of pending edits. If memory is refused, the reply is code 20.
fn stage(desk: &mut Desk, edit: Edit) -> DeskReply
    ensures judged { (line : Bytes) → IsJudged (desk_terms desk.old.limits) (lists_of desk.old) line
        (Some (Ok (Stage (edit_of edit)))) (said result) (lists_of desk.new) }
    ensures same { IsSameDesk desk.old desk.new }
    ensures in_table { IsInTable result }
{
    match desk.stage(edit) {
        Ok(pending) => DeskReply::Staged(pending),
        Err(error) => DeskReply::Refused(error.code()),
    }
}

/// Publishes all that is staged. If memory is refused, the reply is code 20. With nothing pending it takes no memory.
fn commit<T: Wait>(rt: &T, desk: &mut Desk) -> DeskReply
    ensures judged { (line : Bytes) → IsJudged (desk_terms desk.old.limits) (lists_of desk.old) line
        (Some (Ok Commit)) (said result) (lists_of desk.new) }
    ensures nothing_pending { desk.old.pending ≡ [] → result ≡ DeskReply.Committed (length desk.old.published) }
    ensures same { IsSameDesk desk.old desk.new }
    ensures in_table { IsInTable result }
{
    match desk.commit(rt) {
        Ok(edition) => DeskReply::Committed(edition),
        Err(_) => DeskReply::Refused(20),
    }
}
