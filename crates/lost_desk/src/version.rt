//! A copy of the book, and how it takes in what is published.

use left_right::Absorb;
use lost_book::Edit;
use lost_history::{Front, Seal};
use lost_routing::Routing;
use std::alloc::AllocError;

/// One of the two copies: the book that readers ask, and the list of edits whose book it is. It holds one of the two
/// seals of the list's opening, so there are no copies of this opening but the two.
pub struct Version {
    pub(crate) book: Routing,
    pub(crate) front: Front,
    pub(crate) seal: Seal,
}

impl Drop for Version {
    fn drop(self) {
        let Version {
            book: _,
            front: _,
            seal: _,
        } = self;
    }
}

/// An operation, which both copies take in, in turn.
#[derive(Drop)]
pub enum Operation {
    /// An edit.
    Change(Edit),
    /// The list of all edits so far. It ends each publication.
    Mark(Front),
}

impl Absorb<Operation> for Version {
    ghost use Rattle.lost_desk.specs.Copies.{taken};

    type State = Version;

    ghost state = { λ v. v };

    ghost applied = { taken };

    fn absorb_first(&mut self, operation: &Operation, _other: &Version) -> Result<(), AllocError> {
        match operation {
            Operation::Change(edit) => self.book.absorb(edit),
            Operation::Mark(front) => {
                self.front = front.again();
                Ok(())
            }
        }
    }
}
