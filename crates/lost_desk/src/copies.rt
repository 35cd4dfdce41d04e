//! The desk's two copies of the book.
ghost use Rattle.std.specs.Prelude.{◌≡◌, drop, MatchResult};
ghost use Rattle.lost_desk.specs.declared.version.Operation.TheVariants.{Mark};
ghost use Rattle.lost_desk.specs.States.{MayFollow, next_of, with_published, with_waiting};

use crate::rule::{OneList, Showing};
use crate::taking::{put_back, take_out};
use crate::version::{Operation, Version};
use crate::view::View;
use left_right::writer::Writer;
use lost_history::Front;
use std::alloc::AllocError;
use std::marker::Model;
use std::sync::Wait;

/// The writer that publishes.
pub(crate) type CopyWriter = Writer<Version, Operation, View, OneList>;

/// The two copies. Contracts see the published copy, and the operations that it lacks. The type is not `Drop`: end it
/// by `close`.
pub struct Copies {
    writer: Option<CopyWriter>,
}

impl Model for Copies {
    ghost use Rattle.std.specs.Prelude.{drop};
    ghost use Rattle.lost_desk.specs.States.{CopiesSeen, copies_seen, IsThere};

    ghost Value = { CopiesSeen };

    ghost view = { λ c. copies_seen (λ w. w.desk.shown.value) (λ w. drop w.behind w.log.items) c.writer };

    ghost invariant = { λ c. IsThere c.writer };
}

impl Copies {
    /// The copies of a writer.
    pub(crate) fn of(writer: CopyWriter) -> Copies
        ensures shown { result.shown ≡ writer.desk.shown.value }
        ensures waiting { result.waiting ≡ drop writer.behind writer.log.items }
    {
        Copies {
            writer: Some(writer),
        }
    }

    /// The published copy.
    pub(crate) fn shown(&self) -> &Version
        ensures { result.now ≡ self.now.shown }
    {
        match &self.writer {
            Some(writer) => writer.published(),
            None => unreachable!(),
        }
    }

    /// Has the copies take in one more operation at the next publication. If memory is refused, it is given back.
    pub(crate) fn append(&mut self, operation: Operation) -> Result<(), Operation>
        ensures { MatchResult result
            (λ _. self.new ≡ with_waiting self.old operation)
            (λ back. (back ≡ operation) × (self.new ≡ self.old)) }
    {
        match &mut self.writer {
            Some(writer) => writer.append(operation),
            None => unreachable!(),
        }
    }

    /// Ends a publication with the list of all its edits. If memory is refused, nothing changes.
    pub(crate) fn mark(&mut self, front: Front) -> Result<(), AllocError>
        ensures { MatchResult result (λ _. self.new ≡ with_waiting self.old (Mark front)) (λ _. self.new ≡ self.old) }
    {
        match self.append(Operation::Mark(front)) {
            Ok(()) => Ok(()),
            Err(_) => Err(AllocError),
        }
    }

    /// Publishes all that waits. If memory is refused, nothing changes. It waits for readers of the other copy.
    pub(crate) fn publish<R: Wait>(&mut self, rt: &R) -> Result<(), AllocError>
        requires { MayFollow self.old.shown (next_of self.old) }
        ensures { MatchResult result (λ _. self.new ≡ with_published self.old) (λ _. self.new ≡ self.old) }
    {
        let writer = take_out(&mut self.writer);
        let (writer, result) = writer.publish_as::<Showing, R>(rt);
        put_back(&mut self.writer, writer);
        result
    }

    /// Ends the copies. Operations that wait are dropped.
    pub(crate) fn close<R: Wait>(self, rt: &R) {
        let Copies { writer } = self;
        match writer {
            Some(writer) => {
                let _shown = writer.take(rt);
            }
            None => unreachable!(),
        }
    }
}
