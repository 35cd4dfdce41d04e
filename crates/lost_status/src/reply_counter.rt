//! One worker's counts of replies.
ghost use Rattle.std.specs.Prelude.{◌≡◌, ◌<◌, ℕ, slice_index};
ghost use Rattle.lost_spec.specs.Request.{Reply};
ghost use Rattle.lost_writing.specs.Replies.{reply_text};
ghost use Rattle.lost_status.specs.ReplyKind.{kind_of_reply};
ghost use Rattle.lost_status.specs.LineKind.{told_kind};
ghost use Rattle.lost_status.specs.Figures.{IsRepliesPlus, no_replies, replies_counted};

use crate::line_kind::kind_of;
use crate::numbers::{add_each, count_at};
use crate::reply_kind::{KINDS, ReplyKind};
use std::array;
use std::marker::Model;
use std::sync::atomic::{AtomicU64, Ordering};

/// What a worker counts of its replies.
#[derive(Clone, Copy, PartialEq, Eq, Debug)]
pub(crate) enum ReplyEvent {
    /// A reply of this kind was given.
    Given(ReplyKind),
    /// The worker's cache of places has had so many hits.
    Hits(u64),
}

/// What a worker has counted of its replies, or what several have. A count that reaches 2^64 begins at 0 again.
#[derive(Clone, Copy)]
pub(crate) struct ReplyFigures {
    /// How many replies were given, by kind, in the order of all kinds.
    pub(crate) replies: [u64; KINDS],
    /// How many hits the caches of places had.
    pub(crate) cache_hits: u64,
}

impl ReplyFigures {
    /// Nothing is counted.
    pub(crate) fn none() -> ReplyFigures
        ensures { result ≡ no_replies }
    {
        ReplyFigures {
            replies: [0; KINDS],
            cache_hits: 0,
        }
    }

    /// Counts an event.
    fn count(&mut self, event: ReplyEvent)
        ensures { self.new ≡ replies_counted self.old event }
    {
        match event {
            ReplyEvent::Given(kind) => count_at(&mut self.replies, kind.index()),
            ReplyEvent::Hits(hits) => self.cache_hits = hits,
        }
    }

    /// Adds what another worker has counted.
    pub(crate) fn add(&mut self, more: &ReplyFigures)
        ensures { IsRepliesPlus self.old more.now self.new }
    {
        add_each(&mut self.replies, &more.replies);
        self.cache_hits = self.cache_hits.wrapping_add(more.cache_hits);
    }
}

/// Counts of replies where any thread may read them. One thread writes them.
#[derive(Drop)]
pub(crate) struct ReplyBlock {
    replies: [AtomicU64; KINDS],
    cache_hits: AtomicU64,
}

impl ReplyBlock {
    /// Nothing is counted.
    pub(crate) fn new() -> ReplyBlock {
        ReplyBlock {
            replies: array::from_fn(|_| AtomicU64::new(0)),
            cache_hits: AtomicU64::new(0),
        }
    }

    /// Stores the number that an event changes. No contract can say what an atomic holds: the rows of `status.rows`
    /// compare what is shown.
    fn show(&self, event: ReplyEvent, figures: &ReplyFigures) {
        match event {
            ReplyEvent::Given(kind) => {
                let place = kind.index();
                self.replies[place].store(figures.replies[place], Ordering::SeqCst);
            }
            ReplyEvent::Hits(_) => self.cache_hits.store(figures.cache_hits, Ordering::SeqCst),
        }
    }

    /// Loads the numbers. No contract can say what an atomic holds: the rows of `status.rows` compare it.
    pub(crate) fn load(&self) -> ReplyFigures {
        ReplyFigures {
            replies: array::from_fn(|place| match self.replies.as_slice().get(place) {
                Some(count) => count.load(Ordering::SeqCst),
                None => 0,
            }),
            cache_hits: self.cache_hits.load(Ordering::SeqCst),
        }
    }
}

/// What one worker counts of its replies. Contracts see its figures. After each event it shows them to whoever asks for
/// the status.
#[derive(Drop)]
pub struct ReplyCounter<'s> {
    figures: ReplyFigures,
    block: &'s ReplyBlock,
}

impl<'s> Model for ReplyCounter<'s> {
    ghost use Rattle.lost_status.specs.declared.reply_counter.ReplyFigures.{ReplyFigures};

    ghost Value = { ReplyFigures };

    ghost view = { λ c. c.figures };
}

impl<'s> ReplyCounter<'s> {
    /// Nothing is counted. It is the only one that writes the block.
    pub(crate) fn new(block: &'s ReplyBlock) -> ReplyCounter<'s>
        ensures { result ≡ no_replies }
    {
        ReplyCounter {
            figures: ReplyFigures::none(),
            block,
        }
    }

    /// Counts a reply, once, by its kind, and shows it. `line` is its line with its byte 10.
    pub fn count_reply(&mut self, line: &[u8])
        ensures counted { self.new ≡ replies_counted self.old (ReplyEvent.Given (told_kind line.now)) }
        ensures kind { (reply : Reply) → line.now ≡ reply_text reply
            → self.new ≡ replies_counted self.old (ReplyEvent.Given (kind_of_reply reply)) }
    {
        self.count(ReplyEvent::Given(kind_of(line)));
    }

    /// Sets how many hits the worker's cache of places has had so far, and shows it.
    pub fn set_cache_hits(&mut self, hits: u64)
        ensures { self.new ≡ replies_counted self.old (ReplyEvent.Hits hits) }
    {
        self.count(ReplyEvent::Hits(hits));
    }

    /// Counts an event, once, and shows it.
    fn count(&mut self, event: ReplyEvent)
        ensures { self.new ≡ replies_counted self.old event }
    {
        self.figures.count(event);
        self.block.show(event, &self.figures);
    }
}
