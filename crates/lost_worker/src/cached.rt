//! A reader with a cache of places.
ghost use Rattle.std.specs.Prelude.{◌≡◌, ◌≢◌, IsSome, IsNone, IfOk, IfErr, OnOk};
ghost use Rattle.lost_worker.specs.Cached.{IsCapacity};

use crate::faults::CacheError;
use crate::place_cache::PlaceCache;
use crate::replier::{Replied, Replier};
use lost_desk::Reader;
use lost_mapping::{Moment, Source};
use lru::DefaultHasher;
use std::alloc::{AllocError, Global};
use std::hash::{BuildHasher, BuildHasherDefault};
use std::marker::Model;
use std::num::NonZeroUsize;

/// The most places that a cache may have room for (own rule).
const MOST_PLACES: u32 = 65_536;

/// A reader with a cache of places' sets, each with its edition. Every place is kept while there is room; after that
/// only a place that comes again is kept, in the room of the least recently used one. Contracts see the reader alone:
/// the cache never changes a reply. A set of another edition is not used.
pub struct CachedReader<S: BuildHasher = DefaultHasher> {
    reader: Reader,
    sets: PlaceCache<S>,
}

impl<S: BuildHasher + Drop> Drop for CachedReader<S> {
    fn drop(self) {
        let CachedReader { reader: _, sets: _ } = self;
    }
}

impl<S: BuildHasher> Model for CachedReader<S> {
    ghost use Rattle.lost_desk.specs.Seen.{ReaderSeen};
    ghost use Rattle.lost_desk.specs.Sets.{AreRightFor};
    ghost use Rattle.lost_worker.specs.Cached.{IsKeptIn};

    ghost Value = { ReaderSeen };

    ghost view = { λ c. c.reader };

    ghost invariant = { λ c. AreRightFor (IsKeptIn c.sets.cache.entries) c.reader.limits c.reader.seen };
}

/// A reader that got no cache, and why. The reader is unchanged.
#[derive(Drop)]
pub struct CacheRefusal {
    pub reader: Reader,
    pub code: CacheError,
}

impl CachedReader<DefaultHasher> {
    ghost use Rattle.lost_worker.specs.Cached.{IsCapacity};

    /// This reader with an empty cache of at most `capacity` places. The cache hashes places with a fixed seed. If an
    /// attacker may choose the places, use [`CachedReader::with_hasher`].
    ///
    /// # Errors
    ///
    /// Each hands the reader back unchanged. [`CacheError::Capacity`] if the capacity is not from 1 to 65,536; after it
    /// [`CacheError::Memory`].
    pub fn new(
        alloc: Global,
        reader: Reader,
        capacity: u32,
    ) -> Result<CachedReader<DefaultHasher>, CacheRefusal>
        ensures made { IfOk result (λ cached. cached ≡ reader) }
        ensures within { OnOk result (IsCapacity capacity) }
        ensures handed_back { IfErr result (λ refusal. refusal.reader ≡ reader) }
        ensures capacity { IfErr result (λ refusal. refusal.code ≡ CacheError.Capacity → ¬ IsCapacity capacity) }
        ensures memory_last { IfErr result (λ refusal. refusal.code ≢ CacheError.Capacity → IsCapacity capacity) }
    {
        CachedReader::with_hasher(alloc, reader, capacity, BuildHasherDefault::new())
    }
}

impl<S: BuildHasher + Drop> CachedReader<S> {
    ghost use Rattle.lost_worker.specs.Cached.{IsCapacity};

    /// As [`CachedReader::new`], with a hasher for places.
    ///
    /// # Errors
    ///
    /// Those of [`CachedReader::new`].
    pub fn with_hasher(
        alloc: Global,
        reader: Reader,
        capacity: u32,
        hasher: S,
    ) -> Result<CachedReader<S>, CacheRefusal>
        ensures made { IfOk result (λ cached. cached ≡ reader) }
        ensures within { OnOk result (IsCapacity capacity) }
        ensures handed_back { IfErr result (λ refusal. refusal.reader ≡ reader) }
        ensures capacity { IfErr result (λ refusal. refusal.code ≡ CacheError.Capacity → ¬ IsCapacity capacity) }
        ensures memory_last { IfErr result (λ refusal. refusal.code ≢ CacheError.Capacity → IsCapacity capacity) }
    {
        let Some(places) = places_of(capacity) else {
            return Err(CacheRefusal {
                reader,
                code: CacheError::Capacity,
            });
        };
        match PlaceCache::new(alloc, places, hasher) {
            Ok(sets) => Ok(CachedReader { reader, sets }),
            Err(AllocError) => Err(CacheRefusal {
                reader,
                code: CacheError::Memory,
            }),
        }
    }

    /// How often a set was found, up to the greatest `u64`. No contract says what it counts: a test shows it.
    pub fn hits(&self) -> u64 {
        self.sets.hits
    }
}

impl<S: BuildHasher + Drop> Replier for CachedReader<S> {
    ghost reader = { λ c. c };

    /// Answers a line as [`Reader::reply_line`] does. If the request is answered at a place, and the place's set is
    /// kept for the edition that the reader then sees, the index is not asked.
    ///
    /// # Errors
    ///
    /// If memory is refused or the desk is closed. The reader may then have entered once and seen a longer list.
    fn reply_line(&mut self, alloc: Global, name: &Source, time: &Moment, line: &[u8]) -> Replied {
        self.reader
            .reply_line_over(alloc, &mut self.sets, name, time, line)
    }

    fn edition(&self) -> u64 {
        self.reader.edition()
    }
}

/// `capacity` as a number of places, if it is from 1 to 65,536.
fn places_of(capacity: u32) -> Option<NonZeroUsize>
    ensures none { IsNone result → ¬ IsCapacity capacity }
    ensures some { IsSome result → IsCapacity capacity }
{
    if capacity > MOST_PLACES {
        return None;
    }
    NonZeroUsize::new(capacity as usize)
}
