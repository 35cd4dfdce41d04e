//! The entries of the history.
use lost_book::Edit;
use std::marker::Model;

/// An entry of the history: an edit, seen as the definition's. No such value is made.
pub struct Change {
    edit: Edit,
}

impl Drop for Change {
    fn drop(self) {
        let Change { edit: _ } = self;
    }
}

impl Model for Change {
    ghost use Rattle.lost_spec.specs.Book as spec;
    ghost use Rattle.lost_mapping.specs.Edit.{edit_of};

    ghost Value = { spec.Edit };

    ghost view = { λ c. edit_of c.edit };
}
