//! Two books, of which one is published and one takes edits.
ghost use Rattle.std.specs.Prelude.{◌≡◌, ◌≢◌, ◌+◌, ◌-◌, ◌<◌, ◌++◌, ◌∷◌, [], None, Some, Err, IfOk, IfErr, OnOk, OnErr, map, length};
ghost use Rattle.std.specs.Result.{result_err};
ghost use Rattle.lost_spec.specs.Book.{empty_book, refusal, after, after_all};
ghost use Rattle.lost_mapping.specs.Edit.{edit_of};
ghost use Rattle.lost_replay.specs.Pair.{with_staged, with_committed};

use lost_book::{Edit, EditError, Limits};
use lost_routing::Routing;
use std::alloc::{AllocError, Global};
use std::collections::VecDeque;
use std::marker::Model;
use std::mem::swap;

/// The book that requests are answered from, and a book in which edits are staged. A commit swaps the two, so it takes
/// neither memory nor time that grows with them. The edits that the other book then lacks are applied to it before the
/// next one is staged. Contracts see the published book, and the book with the staged edits too.
#[derive(Drop)]
pub(crate) struct Pair {
    published: Routing,
    other: Routing,
    /// The edits by which the two books differ, in order.
    edits: VecDeque<Edit>,
    /// Whether the other book lacks them. If not, the published one does.
    is_behind: bool,
}

impl Model for Pair {
    ghost use Rattle.std.specs.Prelude.{map};
    ghost use Rattle.lost_mapping.specs.Edit.{edit_of};
    ghost use Rattle.lost_replay.specs.Pair.{IsPair, pair_seen};
    ghost use Rattle.lost_replay.specs.Books.{Books};

    ghost Value = { Books };

    ghost view = { λ p. pair_seen p.published p.other p.is_behind };

    ghost invariant = { λ p. IsPair p.published p.other (map edit_of p.edits.items) p.is_behind };
}

impl Pair {
    /// Two empty books within these limits.
    pub(crate) fn new(alloc: Global, limits: Limits) -> Result<Pair, AllocError>
        ensures { IfOk result (λ pair. pair ≡ record { published = empty_book limits; staged = empty_book limits }) }
    {
        Ok(Pair {
            published: Routing::new(alloc, limits)?,
            other: Routing::new(alloc, limits)?,
            edits: VecDeque::new(alloc),
            is_behind: false,
        })
    }

    /// The published book.
    pub(crate) fn published(&self) -> &Routing
        ensures { result.now ≡ self.now.published }
    {
        &self.published
    }

    /// The book with the staged edits too.
    pub(crate) fn staged(&self) -> &Routing
        ensures { result.now ≡ self.now.staged }
    {
        if self.is_behind {
            &self.published
        } else {
            &self.other
        }
    }

    /// The number of edits staged and not published.
    pub(crate) fn pending(&self) -> u64
        ensures { result ≡ self.now.staged.edits - self.now.published.edits }
    {
        self.staged()
            .edition()
            .saturating_sub(self.published.edition())
    }

    /// Checks whether the book with the staged edits refuses an edit.
    fn check(&self, edit: &Edit) -> Result<(), EditError>
        ensures { result_err result ≡ refusal self.now.staged (edit_of edit.now) }
    {
        self.staged().check(edit)
    }

    /// Stages an edit.
    ///
    /// # Errors
    ///
    /// The refusal of the book with the staged edits, and after it [`EditError::Memory`]. Nothing is then changed.
    pub(crate) fn stage(&mut self, edit: Edit) -> Result<(), EditError>
        ensures accepted { OnOk result (refusal self.old.staged (edit_of edit) ≡ None) }
        ensures staged { OnOk result (self.new ≡ with_staged self.old (edit_of edit)) }
        ensures refused { IfErr result (λ e. e ≢ EditError.Memory → refusal self.old.staged (edit_of edit) ≡ Some e) }
        ensures memory_last { result ≡ Err EditError.Memory → refusal self.old.staged (edit_of edit) ≡ None }
        ensures unchanged { OnErr result (self.new ≡ self.old) }
    {
        self.check(&edit)?;
        if self.is_behind {
            if apply_all(&mut self.other, &mut self.edits).is_err() {
                return Err(EditError::Memory);
            }
            self.is_behind = false;
        }
        match take_in(&mut self.other, &mut self.edits, edit) {
            Ok(()) => Ok(()),
            Err(_) => Err(EditError::Memory),
        }
    }

    /// Publishes all staged edits. It takes no memory.
    pub(crate) fn commit(&mut self)
        ensures { self.new ≡ with_committed self.old }
    {
        if !self.is_behind {
            swap(&mut self.published, &mut self.other);
            self.is_behind = true;
        }
    }
}

/// Applies an edit that is not refused to a book, and queues it for another. If memory is refused, nothing changes.
fn take_in(book: &mut Routing, edits: &mut VecDeque<Edit>, edit: Edit) -> Result<(), AllocError>
    requires { refusal book.old (edit_of edit) ≡ None }
    ensures applied { OnOk result (book.new ≡ after book.old (edit_of edit)) }
    ensures queued { OnOk result (map edit_of edits.new.items ≡ map edit_of edits.old.items ++ edit_of edit ∷ []) }
    ensures unchanged { OnErr result (book.new ≡ book.old) }
    ensures unqueued { OnErr result (edits.new.items ≡ edits.old.items) }
{
    let copy = edit.clone()?;
    edits.reserve(1)?;
    if book.apply(edit).is_err() {
        return Err(AllocError);
    }
    edits.push_back_reserved(copy);
    Ok(())
}

/// Applies the edits of a queue to a book. If memory is refused, the rest stay queued.
fn apply_all(book: &mut Routing, edits: &mut VecDeque<Edit>) -> Result<(), AllocError>
    ensures same { after_all book.new (map edit_of edits.new.items) ≡ after_all book.old (map edit_of edits.old.items) }
    ensures all { OnOk result (edits.new.items ≡ []) }
{
    while !edits.is_empty() {
        apply_first(book, edits)?;
    }
    Ok(())
}

/// Applies the first edit of a queue to a book. If memory is refused, nothing changes.
fn apply_first(book: &mut Routing, edits: &mut VecDeque<Edit>) -> Result<(), AllocError>
    ensures same { after_all book.new (map edit_of edits.new.items) ≡ after_all book.old (map edit_of edits.old.items) }
    ensures one { OnOk result (0 < length edits.old.items → length edits.old.items ≡ length edits.new.items + 1) }
{
    let Some(edit) = edits.front() else {
        return Ok(());
    };
    book.absorb(edit)?;
    let _applied = edits.pop_front();
    Ok(())
}
