//! Counts the replies of a worker.
ghost use Rattle.std.specs.Prelude.{◌≡◌};
ghost use Rattle.lost_server.specs.Counting.{CountsReplied};

use lost_json::internal_error;
use lost_mapping::{Moment, Source};
use lost_status::ReplyCounter;
use lost_worker::{CachedReader, Replied, Replier, SharedReplier};
use std::alloc::Global;
use std::hash::BuildHasher;

/// A reader whose replies are counted by their kinds. It replies as the reader does.
#[derive(Drop)]
pub(crate) struct Counting<'r, 's, S: BuildHasher + Drop> {
    reader: &'r mut CachedReader<S>,
    counter: ReplyCounter<'s>,
}

impl<'r, 's, S: BuildHasher + Drop> Counting<'r, 's, S> {
    /// This reader, counted here.
    pub(crate) fn of(
        reader: &'r mut CachedReader<S>,
        counter: ReplyCounter<'s>,
    ) -> Counting<'r, 's, S> {
        Counting { reader, counter }
    }
}

impl<S: BuildHasher + Drop> Replier for Counting<'_, '_, S> {
    ghost reader = { λ c. c.reader.now };

    fn reply_line(&mut self, alloc: Global, name: &Source, time: &Moment, line: &[u8]) -> Replied {
        let replied = self.reader.reply_line(alloc, name, time, line);
        count(&mut self.counter, &replied);
        self.counter.set_cache_hits(self.reader.hits());
        replied
    }

    fn edition(&self) -> u64 {
        self.reader.edition()
    }
}

impl<S: BuildHasher + Drop> SharedReplier for Counting<'_, '_, S> {
    fn turn_to(&mut self, connection: u64) {
        self.reader.turn_to(connection);
    }

    fn rest(&mut self) {
        self.reader.rest();
    }
}

/// Counts the reply to a line, once, by its kind.
fn count(counter: &mut ReplyCounter<'_>, replied: &Replied)
    ensures { CountsReplied (λ reply. reply.items) counter.old replied.now counter.new }
{
    match replied {
        Ok(reply) => counter.count_reply(reply.as_slice()),
        // The line's reply is then `internalError`.
        Err(_) => counter.count_reply(internal_error().text.bytes()),
    }
}
