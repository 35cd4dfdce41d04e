//! Sets of places in a cache of bounded size. While there is room, each place is kept. After that, a place that comes
//! for the first time only leaves a mark, and a place that comes again takes the room of the least recently used one.
//! So a location asked for once pushes out no place that comes again.
ghost use Rattle.std.specs.Prelude.{◌≡◌, [], IfOk, IfSome};
ghost use Rattle.lost_location.specs.Place.{place_of};
ghost use Rattle.lost_desk.specs.Sets.{entry};

use crate::marks::Marks;
use lost_desk::PlaceSets;
use lost_query::Place;
use lru::LruCache;
use std::alloc::{AllocError, Global};
use std::hash::BuildHasher;
use std::num::NonZeroUsize;

/// What is kept for a place: its set in the book of `edition` edits.
#[derive(Drop)]
pub(crate) struct Kept {
    pub(crate) edition: u64,
    pub(crate) place: Place,
    pub(crate) set: Vec<usize>,
}

/// A cache from places to their sets, and how often a set was found. A place is hashed once a line, and the hash is the
/// cache's key: of two places with one hash, the one kept later stands.
#[derive(Drop)]
pub(crate) struct PlaceCache<S: BuildHasher> {
    hasher: S,
    pub(crate) cache: LruCache<u64, Kept>,
    marks: Marks,
    /// The hash of the place that was looked for last, and whether a set of any edition is kept under it.
    asked: u64,
    is_held: bool,
    pub(crate) hits: u64,
}

impl<S: BuildHasher + Drop> PlaceCache<S> {
    ghost use Rattle.lost_worker.specs.Cached.{IsKeptIn};

    /// A cache with room for `capacity` places that keeps nothing yet.
    pub(crate) fn new(
        alloc: Global,
        capacity: NonZeroUsize,
        hasher: S,
    ) -> Result<PlaceCache<S>, AllocError>
        ensures { IfOk result (λ cache. cache.cache.entries ≡ []) }
    {
        Ok(PlaceCache {
            hasher,
            cache: LruCache::new(alloc, capacity)?,
            marks: Marks::new(alloc, capacity.get())?,
            asked: 0,
            is_held: false,
            hits: 0,
        })
    }

    /// The set kept for this edition and place, which was looked for last. A set of another edition does not count.
    fn set_of(&self, edition: u64, place: &Place) -> Option<&[usize]>
        ensures { IfSome result (λ set. IsKeptIn self.now.cache.entries (entry edition (place_of place.now) set.now)) }
    {
        let kept = self.cache.peek(&self.asked)?;
        if kept.edition == edition && kept.place == *place {
            Some(kept.set.as_slice())
        } else {
            None
        }
    }
}

impl<S: BuildHasher + Drop> PlaceSets for PlaceCache<S> {
    ghost use Rattle.lost_worker.specs.Cached.{IsKeptIn};

    ghost keeps = { λ c e. IsKeptIn c.cache.entries e };

    fn find(&mut self, edition: u64, place: &Place) -> Option<&[usize]> {
        self.asked = self.hasher.hash_one(place);
        self.is_held = self.cache.promote(&self.asked);
        if !self.is_held {
            return None;
        }
        if self.set_of(edition, place).is_some() {
            self.hits = self.hits.saturating_add(1);
        }
        self.set_of(edition, place)
    }

    /// Whether to keep the place that was looked for last: if its set is kept for another edition, if there is room, or
    /// if the place has its mark. If not, it leaves its mark.
    fn is_wanted(&mut self) -> bool {
        self.is_held || self.cache.len() < self.cache.cap().get() || self.marks.has_met(self.asked)
    }

    fn keep(&mut self, edition: u64, place: Place, set: Vec<usize>) {
        let kept = Kept {
            edition,
            place,
            set,
        };
        let _dropped = self.cache.put(self.asked, kept);
    }
}
