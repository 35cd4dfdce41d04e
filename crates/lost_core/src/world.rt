//! The machine that runs the steps of a world.
ghost use Rattle.std.specs.Prelude.{◌≡◌, ◌-◌, if◌then◌else◌, map, length, max, nat_lt, slice_index, Some, None, IfOk, OnOk};
ghost use Rattle.lost_mapping.specs.Edit.{edit_of};
ghost use Rattle.lost_core.specs.World.{Replying, Stage, Publish, Enter, Tell, Answer, events};
ghost use Rattle.lost_core.specs.State.{start, meet, state_after, state_event};
ghost use Rattle.lost_core.specs.Values.{step_of, event_of, replies_of, world_of};

use crate::books::{book_of, book_of_first};
use crate::event::Event;
use crate::step::Step;
use lost_book::{Edit, Limits};
use lost_json::reply_line;
use lost_mapping::{Moment, Source};
use std::alloc::{AllocError, Global};
use std::marker::Model;

/// The state of a run: the accepted edits, how many of them are published, and how many each worker has met. Contracts
/// see it as the record `State`.
#[derive(Drop)]
pub struct World {
    limits: Limits,
    accepted: Vec<Edit>,
    published: u64,
    met: Vec<u64>,
}

impl Model for World {
    ghost use Rattle.std.specs.Prelude.{map};
    ghost use Rattle.lost_mapping.specs.Edit.{edit_of};
    ghost use Rattle.lost_core.specs.State as spec;

    ghost Value = { spec.State };

    ghost view = { λ w. record { limits = w.limits; accepted = map edit_of w.accepted.items; published = w.published; met = w.met.items } };
}

impl World {
    /// Runs steps in order and gives one event for each. The world has books within these limits and this many workers;
    /// the server of this name answers their lines. If memory is refused, the run ends and gives no event.
    ///
    /// An edit is staged unless the book of those accepted before refuses it. A publish publishes all accepted edits. A
    /// worker that enters has seen all that is published. One that is told of a number of edits has seen at least
    /// these, if they are published. A line is answered over the book of the edits that its worker has seen.
    pub fn run(
        alloc: Global,
        limits: Limits,
        workers: u8,
        name: &Source,
        steps: Vec<Step>,
    ) -> Result<Vec<Event>, AllocError>
        ensures { IfOk result (λ given. map event_of given.items ≡ events (world_of limits workers name.now steps.items)) }
    {
        let mut world = World::new(alloc, limits, workers)?;
        let mut events = Vec::with_capacity(alloc, steps.len())?;
        for step in steps {
            let event = world.take(name, step)?;
            events.push(event)?;
        }
        Ok(events)
    }

    /// A world without accepted edits, whose workers have met none.
    fn new(alloc: Global, limits: Limits, workers: u8) -> Result<World, AllocError>
        ensures { IfOk result (λ world. world ≡ start limits workers) }
    {
        Ok(World {
            limits,
            accepted: Vec::new(alloc),
            published: 0,
            met: vec![in alloc; 0; usize::from(workers)]?,
        })
    }

    /// Takes one step.
    fn take(&mut self, name: &Source, step: Step) -> Result<Event, AllocError>
        ensures event { IfOk result (λ given. event_of given ≡ state_event (replies_of name.now) self.old (step_of step)) }
        ensures after { OnOk result (self.new ≡ state_after self.old (step_of step)) }
    {
        match step {
            Step::Stage(edit) => self.stage(edit),
            Step::Publish => Ok(self.publish()),
            Step::Enter(worker) => Ok(self.enter(worker)),
            Step::Tell(worker, told) => Ok(self.tell(worker, told)),
            Step::Answer(worker, moment, line) => self.answer(name, worker, &moment, &line),
        }
    }

    /// Accepts an edit, unless the book of those accepted before refuses it.
    fn stage(&mut self, edit: Edit) -> Result<Event, AllocError>
        ensures event { (reply : Replying) → IfOk result (λ given. event_of given ≡ state_event reply self.old (Stage (edit_of edit))) }
        ensures after { OnOk result (self.new ≡ state_after self.old (Stage (edit_of edit))) }
    {
        let book = book_of(self.alloc(), self.limits, &self.accepted)?;
        if let Err(error) = book.check(&edit) {
            return Ok(Event::Refused(error));
        }
        self.accepted.push(edit)?;
        Ok(Event::Staged(self.pending()))
    }

    /// The number of edits accepted and not published.
    fn pending(&self) -> u64
        ensures { result ≡ length self.now.accepted - self.now.published }
    {
        (self.accepted.len() as u64).saturating_sub(self.published)
    }

    /// Publishes all accepted edits.
    fn publish(&mut self) -> Event
        ensures event { (reply : Replying) → event_of result ≡ state_event reply self.old Publish }
        ensures after { self.new ≡ state_after self.old Publish }
    {
        self.published = self.accepted.len() as u64;
        Event::Published(self.published)
    }

    /// The worker has seen all published edits.
    fn enter(&mut self, worker: u8) -> Event
        ensures event { (reply : Replying) → event_of result ≡ state_event reply self.old (Enter worker) }
        ensures after { self.new ≡ state_after self.old (Enter worker) }
    {
        match self.meet(worker, self.published) {
            Some(edition) => Event::Entered(edition),
            None => Event::NoWorker,
        }
    }

    /// The worker has seen at least this many edits, if they are published.
    fn tell(&mut self, worker: u8, told: u64) -> Event
        ensures event { (reply : Replying) → event_of result ≡ state_event reply self.old (Tell worker told) }
        ensures after { self.new ≡ state_after self.old (Tell worker told) }
    {
        let count = if told <= self.published { told } else { 0 };
        match self.meet(worker, count) {
            Some(edition) => Event::Told(edition),
            None => Event::NoWorker,
        }
    }

    /// The worker has met at least this many edits. Gives how many it has then met, or `None` for no such worker.
    fn meet(&mut self, worker: u8, count: u64) -> Option<u64>
        ensures met { result ≡ (if nat_lt worker (length self.old.met) then Some (max (slice_index self.old.met worker) count) else None) }
        ensures after { self.new ≡ record self.old { met = meet self.old.met worker count } }
    {
        let most = self.most_met(worker)?.max(count);
        self.met[usize::from(worker)] = most;
        Some(most)
    }

    /// The number of edits that the worker has met, or `None` if there is no such worker.
    fn most_met(&self, worker: u8) -> Option<u64>
        ensures { result ≡ (if nat_lt worker (length self.now.met) then Some (slice_index self.now.met worker) else None) }
    {
        let index = usize::from(worker);
        if index < self.met.len() {
            Some(self.met[index])
        } else {
            None
        }
    }

    /// Answers a line over the book of the edits that the worker has seen.
    fn answer(
        &self,
        name: &Source,
        worker: u8,
        moment: &Moment,
        line: &[u8],
    ) -> Result<Event, AllocError>
        ensures { IfOk result (λ given. event_of given ≡ state_event (replies_of name.now) self.now (Answer worker moment.now line.now)) }
    {
        let Some(count) = self.most_met(worker) else {
            return Ok(Event::NoWorker);
        };
        let book = book_of_first(self.alloc(), self.limits, &self.accepted, count)?;
        Ok(Event::Replied(reply_line(self.alloc(), &book, name, moment, line)?))
    }

    /// The allocator of the world.
    fn alloc(&self) -> Global {
        *self.accepted.allocator()
    }
}
