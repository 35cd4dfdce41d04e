//! The desk, which stages edits and publishes them.
ghost use Rattle.std.specs.Prelude.{◌≡◌, ◌≢◌, [], None, Some, length, IfOk, IfErr, IsOk, OnOk, OnErr};
ghost use Rattle.lost_spec.specs.Book.{refusal, empty_book};
ghost use Rattle.lost_mapping.specs.Edit.{edit_of};
ghost use Rattle.lost_history.specs.History.{beginning};
ghost use Rattle.lost_desk.specs.Seen.{TellsBeginning, new_desk, published_book, staged_book, with_staged, with_committed, with_none_pending};
ghost use Rattle.lost_desk.specs.Copies.{first_version};
ghost use Rattle.lost_digest.specs.Digest.{map_digest};

use crate::announce::announce;
use crate::copies::Copies;
use crate::digested::Digested;
use crate::faults::CommitError;
use crate::queue::publish_all;
use crate::reader::Reader;
use crate::told::Told;
use lost_book::{Edit, EditError};
use lost_digest::MapDigest;
use lost_history::{Front, Head};
use lost_routing::Routing;
use std::alloc::AllocError;
use std::collections::VecDeque;
use std::marker::{Brand, Model};
use std::sync::Wait;

/// The one publisher. Contracts see its opening and limits, the list of published edits, and the pending edits. The
/// type is not `Drop`: end it by `close`.
pub struct Desk {
    copies: Copies,
    /// Edits that the copies do not have yet, in order.
    queue: VecDeque<Edit>,
    /// The book of all edits, published and pending.
    ahead: Digested,
    /// The digest of what is published.
    digest: MapDigest,
    /// How far the history goes.
    front: Front,
    head: Head,
}

impl Model for Desk {
    ghost use Rattle.lost_desk.specs.Seen.{DeskSeen};
    ghost use Rattle.lost_desk.specs.States.{desk_seen, IsDesk};

    ghost Value = { DeskSeen };

    ghost view = { λ d. desk_seen d.copies d.queue.items };

    ghost invariant = { λ d. IsDesk d.copies d.queue.items d.ahead d.front d.head d.digest };
}

impl Desk {
    #[tactic(auto, using(crate::proofs::DeskLemmas::staged_is))]
    /// Stages an edit behind the other pending ones, and gives the number of pending edits. The edit is checked against
    /// the book of all edits, published and pending.
    ///
    /// # Errors
    ///
    /// That book's refusal and, after it, [`EditError::Memory`]. The desk is then unchanged.
    pub fn stage(&mut self, edit: Edit) -> Result<u64, EditError>
        ensures accepted { OnOk result (refusal (staged_book self.old) (edit_of edit) ≡ None) }
        ensures staged { OnOk result (self.new ≡ with_staged self.old (edit_of edit)) }
        ensures pending { IfOk result (λ pending. pending ≡ length self.new.pending) }
        ensures refused { IfErr result (λ e. e ≢ EditError.Memory →
            refusal (staged_book self.old) (edit_of edit) ≡ Some e) }
        ensures memory_last { result ≡ Err EditError.Memory → refusal (staged_book self.old) (edit_of edit) ≡ None }
        ensures unchanged { OnErr result (self.new ≡ self.old) }
    {
        self.ahead.check(&edit)?;
        let Ok(copy) = edit.clone() else {
            return Err(EditError::Memory);
        };
        if self.queue.reserve(1).is_err() {
            return Err(EditError::Memory);
        }
        self.ahead.apply(copy)?;
        self.queue.push_back_reserved(edit);
        Ok(self.ahead.edition() - self.copies.shown().front.len())
    }

    /// Publishes all pending edits at once, and gives the edition: the number of published edits. With nothing
    /// pending it takes no memory. It waits for readers that still read the copy before the last.
    ///
    /// # Errors
    ///
    /// [`CommitError::Memory`]: nothing is published, and all edits stay pending.
    pub fn commit<R: Wait>(&mut self, rt: &R) -> Result<u64, CommitError>
        ensures committed { OnOk result (self.new ≡ with_committed self.old) }
        ensures edition { IfOk result (λ edition. edition ≡ length self.new.published) }
        ensures unchanged { OnErr result (self.new ≡ self.old) }
        ensures nothing_pending { self.old.pending ≡ [] → IsOk result }
    {
        let edition = self.ahead.edition();
        if edition == self.copies.shown().front.len() {
            return Ok(edition);
        }
        if !announce::<Brand>(
            &mut self.front,
            &self.head,
            &self.copies,
            &self.queue,
            edition,
        ) {
            return Err(CommitError::Memory);
        }
        let Ok(()) = publish_all(rt, &mut self.copies, &mut self.queue, &self.front) else {
            return Err(CommitError::Memory);
        };
        self.digest = self.ahead.digest();
        Ok(edition)
    }

    /// Drops the pending edits, as when a desk's connection has ended. Published edits stay. If nothing is pending, it
    /// takes no memory.
    ///
    /// # Errors
    ///
    /// If memory is refused, nothing is dropped. After a refused commit this fails until a commit succeeds, since
    /// readers may have been promised these edits.
    pub fn drop_pending(&mut self) -> Result<(), AllocError>
        ensures dropped { OnOk result (self.new ≡ with_none_pending self.old) }
        ensures unchanged { OnErr result (self.new ≡ self.old) }
        ensures nothing_pending { self.old.pending ≡ [] → IsOk result }
    {
        let published = self.copies.shown().front.len();
        let pending = self.ahead.edition() - published;
        if pending == 0 {
            return Ok(());
        }
        if self.front.len() != published || self.queue.len() as u64 != pending {
            return Err(AllocError);
        }
        let copy = self.copies.shown().book.clone()?;
        put(&mut self.ahead, Digested::of(copy, self.digest));
        let alloc = *self.queue.allocator();
        put(&mut self.queue, VecDeque::new(alloc));
        Ok(())
    }

    /// The number of published edits.
    pub fn edition(&self) -> u64
        ensures { result ≡ length self.now.published }
    {
        self.copies.shown().front.len()
    }

    /// The number of pending edits.
    pub fn pending(&self) -> u64
        ensures { result ≡ length self.now.pending }
    {
        self.ahead.edition() - self.copies.shown().front.len()
    }

    /// The book of the published edits.
    pub fn published(&self) -> &Routing
        ensures { result.now ≡ published_book self.now }
    {
        &self.copies.shown().book
    }

    /// The book of all edits, published and pending.
    pub fn staged(&self) -> &Routing
        ensures { result.now ≡ staged_book self.now }
    {
        self.ahead.book()
    }

    /// The digest of the mappings that are published.
    pub fn digest(&self) -> MapDigest
        ensures { result ≡ map_digest (published_book self.now).mappings }
    {
        self.digest
    }

    /// The digest of the mappings of all edits, published and pending.
    pub fn staged_digest(&self) -> MapDigest
        ensures { result ≡ map_digest (staged_book self.now).mappings }
    {
        self.ahead.digest()
    }

    /// Tells the published list, for one reader to learn.
    pub fn tell(&mut self) -> Told
        ensures told { result ≡ beginning self.old.opening self.old.published }
        ensures same { self.new ≡ self.old }
    {
        Told {
            front: self.copies.shown().front.again(),
        }
    }

    /// Whether the told list is published in full, as every list that this desk told is. The told list is then the
    /// beginning of the published one. Both are of one opening.
    pub fn has_published(&self, told: &Told) -> bool
        requires { told.now.opening ≡ self.now.opening }
        ensures begins { TellsBeginning result self.now.published told.now.list }
    {
        self.copies.shown().front.has(&told.front)
    }

    /// Whether all that a reader has seen is published, as for each reader of this desk. The seen list is then the
    /// beginning of the published one. Both are of one opening.
    pub fn has_seen(&self, reader: &Reader) -> bool
        requires { reader.now.opening ≡ self.now.opening }
        ensures begins { TellsBeginning result self.now.published reader.now.seen }
    {
        self.copies.shown().front.has(&reader.latest)
    }

    /// Ends the desk, and drops the pending edits. From then on readers answer [`AllocError`]. It waits for readers
    /// that still read.
    pub fn close<R: Wait>(self, rt: &R) {
        let Desk {
            copies,
            queue: _queue,
            ahead: _ahead,
            digest: _,
            front: _front,
            head: _head,
        } = self;
        copies.close(rt);
    }

    /// A desk with no edits.
    pub(crate) fn of(
        copies: Copies,
        queue: VecDeque<Edit>,
        ahead: Routing,
        front: Front,
        head: Head,
    ) -> Desk
        requires shown { copies.shown ≡ first_version front.opening ahead.limits }
        requires nothing { (copies.waiting ≡ []) × (queue.items ≡ []) }
        requires ahead { ahead ≡ empty_book ahead.limits }
        requires front { front.list ≡ [] }
        requires head { head ≡ front.opening }
        ensures { result ≡ new_desk front.opening ahead.limits }
    {
        Desk {
            copies,
            queue,
            ahead: Digested::of(ahead, MapDigest::empty()),
            digest: MapDigest::empty(),
            front,
            head,
        }
    }
}

/// Puts a value into a place, and drops what was there.
fn put<T: Drop>(place: &mut T, value: T)
    ensures { place.new ≡ value }
{
    *place = value;
}
