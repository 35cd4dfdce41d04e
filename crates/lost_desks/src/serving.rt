//! Serves the connections of desks.
ghost use Rattle.std.specs.Prelude.{◌≡◌, [], IsFalse};
ghost use Rattle.lost_lines.specs.Calls.{AreFresh};
ghost use Rattle.lost_worker.specs.Desking.{IsSameDesk};
ghost use Rattle.lost_desk.specs.Seen.{DeskSeen};
ghost use Rattle.lost_desks.specs.Kept.{StaysKept};

use crate::counting::{DeskCounting, tell_book};
use crate::desk_input::DeskInput;
use crate::desk_output::DeskOutput;
use crate::desk_queue::DeskQueue;
use crate::desk_turn::DeskTurn;
use crate::map_reply::answer;
use crate::map_request::{MapAsked, read_request};
use crate::turn_end::TurnEnd;
use lost_desk::Desk;
use lost_keeping::{Keeper, serve_desk_kept};
use lost_lines::{Counts, ServeError, Turns, Watched};
use lost_log::ConnectionLog;
use lost_sockets::{Listener, Peer, Stream, accept};
use lost_status::{DeskCounter, DeskEvent};
use lost_worker::serve_desk_with;
use sqlite_disk::Disk;
use std::alloc::Global;
use std::io::{Eprint, Read, Write};
use std::sync::Wait;
use std::sync::atomic::AtomicBool;
use std::time::{Clock, Duration};

/// What serves desks.
#[derive(Drop)]
pub struct DeskService<'s, R> {
    pub rt: &'s R,
    pub alloc: Global,
    pub log: &'s ConnectionLog<'s, R>,
    /// How long a read or a write may wait; `None` for ever.
    pub idle: Option<Duration>,
    /// Whether the server is over, so that no further desk is taken.
    pub is_over: &'s AtomicBool,
}

/// What a desk leaves when its turn is over.
#[derive(Clone, Copy, PartialEq, Eq, Debug)]
pub enum Left {
    /// Nothing is pending.
    Nothing,
    /// Edits are pending that could not be dropped: memory was refused. That is reported.
    Pending,
}

/// Serves one connection of a desk, and says whether one came. Counts its lines, and what the desk holds after each.
/// `keeper` keeps its edits, if there is one. Afterwards nothing is pending, unless memory is refused.
pub fn serve_one_desk<R: Wait + Clock + Eprint, D: Disk>(
    service: &DeskService<'_, R>,
    listener: &Listener,
    desk: &mut Desk,
    keeper: &mut Option<Keeper<D>>,
    counter: &mut DeskCounter<'_>,
) -> bool
    ensures kept { StaysKept keeper.old desk.old keeper.new desk.new }
    ensures same { IsSameDesk desk.old desk.new }
{
    let Some((stream, peer)) = accept(service.rt, listener) else {
        service.log.report_listener();
        return false;
    };
    let _left = service.serve(None, &stream, &peer, desk, keeper, counter);
    true
}

/// Serves the connections of desks in turn, until the server is over. Counts their lines, and what the desk holds after
/// each. `keeper` keeps their edits, if there is one. The listener must not wait. The edits that a desk left pending are
/// dropped before the next one is served.
pub fn serve_desks<R: Wait + Clock + Eprint, D: Disk>(
    service: &DeskService<'_, R>,
    listener: &Listener,
    desk: &mut Desk,
    keeper: &mut Option<Keeper<D>>,
    counter: &mut DeskCounter<'_>,
)
    ensures kept { StaysKept keeper.old desk.old keeper.new desk.new }
    ensures same { IsSameDesk desk.old desk.new }
{
    let queue = DeskQueue::new(listener);
    for _turn in service.rt.forever() {
        let Some((stream, peer)) = queue.next(service.rt, service.is_over) else {
            return;
        };
        let _left = service.serve(Some(&queue), &stream, &peer, desk, keeper, counter);
    }
}

impl<R: Wait + Clock + Eprint> DeskService<'_, R> {
    /// Serves a desk's connection during its turn, and drops the edits that it leaves pending. Reports a fault, and if
    /// edits could not be kept or dropped.
    fn serve<D: Disk>(
        &self,
        queue: Option<&DeskQueue<'_>>,
        stream: &Stream,
        peer: &Peer,
        desk: &mut Desk,
        keeper: &mut Option<Keeper<D>>,
        counter: &mut DeskCounter<'_>,
    ) -> Left
        ensures nothing_pending { result ≡ Left.Nothing → desk.new.pending ≡ [] }
        ensures kept { StaysKept keeper.old desk.old keeper.new desk.new }
        ensures same { IsSameDesk desk.old desk.new }
        ensures left { IsFalse counter.new.is_open }
    {
        counter.count(DeskEvent::Connected);
        if let Some(cause) = self.serve_turn(queue, stream, peer, desk, keeper, counter) {
            self.log.report_desk(peer, cause);
        }
        self.tell_of_keeper(keeper, counter);
        counter.count(DeskEvent::Left);
        let left = drop_pending(desk, keeper);
        if left == Left::Pending {
            self.log.report_pending();
        }
        tell_book(counter, desk);
        left
    }

    /// Answers the lines of a desk's connection during its turn. Gives the cause if it ended in a fault.
    fn serve_turn<D: Disk>(
        &self,
        queue: Option<&DeskQueue<'_>>,
        stream: &Stream,
        peer: &Peer,
        desk: &mut Desk,
        keeper: &mut Option<Keeper<D>>,
        counter: &mut DeskCounter<'_>,
    ) -> Option<&'static str>
        ensures kept { StaysKept keeper.old desk.old keeper.new desk.new }
        ensures same { IsSameDesk desk.old desk.new }
    {
        let turn = DeskTurn {
            rt: self.rt,
            queue,
            stream,
            idle: self.idle,
        };
        if !turn.begin() {
            return Some("it could not be read");
        }
        let mut input = Watched::new(DeskInput::new(self.alloc, &turn));
        let mut output = Watched::new(DeskOutput::new(&turn));
        let answered = self.answer_lines(&mut input, &mut output, peer, desk, keeper, counter);
        let Err(fault) = answered else {
            return None;
        };
        if input.inner().end() == Some(TurnEnd::SpeaksHttp) {
            return self.answer_request(input.into_inner(), output.into_inner(), desk);
        }
        match input.inner().end().or(output.inner().end()) {
            Some(end) => Some(end.text()),
            None => Some(fault_text(fault)),
        }
    }

    /// Answers a request of HTTP in place of a desk's lines. Gives the cause if it got nothing or not all.
    fn answer_request(
        &self,
        mut input: DeskInput<'_, '_, R>,
        mut output: DeskOutput<'_, '_, R>,
        desk: &Desk,
    ) -> Option<&'static str> {
        let begun = input.take_request();
        let answered = match read_request(&mut input, begun) {
            Ok(Some(request)) => answer(self.alloc, &mut output, request, desk).map(
                |()| request.asked,
            ),
            Ok(None) => return Some(TurnEnd::SpeaksHttp.text()),
            Err(error) => Err(error),
        };
        match answered {
            Ok(MapAsked::Map | MapAsked::MapWithTraces) => None,
            Ok(_) => Some("it asked over HTTP for something else than GET /map"),
            Err(_) => match input.end().or(output.end()) {
                Some(end) => Some(end.text()),
                None => Some("it took no whole answer over HTTP"),
            },
        }
    }

    /// Answers a desk's lines, keeps its edits, and counts their outcomes.
    fn answer_lines<I: Read, O: Write, D: Disk>(
        &self,
        input: &mut Watched<I>,
        output: &mut Watched<O>,
        peer: &Peer,
        desk: &mut Desk,
        keeper: &mut Option<Keeper<D>>,
        counter: &mut DeskCounter<'_>,
    ) -> Result<Counts, ServeError>
        requires fresh { AreFresh input.old output.old }
        ensures kept { StaysKept keeper.old desk.old keeper.new desk.new }
        ensures same { IsSameDesk desk.old desk.new }
    {
        let mut counting = DeskCounting {
            rt: self.rt,
            alloc: self.alloc,
            log: self.log,
            peer,
            edition: desk.edition(),
            counter,
        };
        match keeper {
            Some(keeper) => serve_desk_kept(
                self.rt,
                self.alloc,
                input,
                output,
                desk,
                keeper,
                &mut counting,
                Turns::USUAL,
            ),
            None => serve_desk_with(
                self.rt,
                self.alloc,
                input,
                output,
                desk,
                &mut counting,
                Turns::USUAL,
            ),
        }
    }

    /// Reports why edits were not kept, if any were not, and counts if nothing more can be.
    fn tell_of_keeper<D: Disk>(&self, keeper: &mut Option<Keeper<D>>, counter: &mut DeskCounter<'_>)
        ensures { (desk : DeskSeen) → StaysKept keeper.old desk keeper.new desk }
    {
        let Some(keeper) = keeper else {
            return;
        };
        if let Some(fault) = keeper.take_fault() {
            self.log.report_journal(&fault);
        }
        if keeper.is_spent() {
            counter.count(DeskEvent::JournalFailed);
        }
    }
}

/// Drops what a desk left pending, unless memory is refused.
fn drop_pending<D: Disk>(desk: &mut Desk, keeper: &mut Option<Keeper<D>>) -> Left
    ensures dropped { result ≡ Left.Nothing → desk.new.pending ≡ [] }
    ensures published { desk.new.published ≡ desk.old.published }
    ensures kept { StaysKept keeper.old desk.old keeper.new desk.new }
    ensures same { IsSameDesk desk.old desk.new }
{
    let dropped = match keeper {
        Some(keeper) => keeper.drop_pending(desk),
        None => desk.drop_pending(),
    };
    match dropped {
        Ok(()) => Left::Nothing,
        Err(_) => Left::Pending,
    }
}

/// The report of a desk's connection that ended in a fault of a stream.
fn fault_text(fault: ServeError) -> &'static str {
    match fault {
        ServeError::Read => "it could not be read",
        ServeError::Write => "it could not be written",
        ServeError::TurnsSpent => "it sent more than 1,000,000 lines",
        ServeError::Memory => "memory ran out",
    }
}
