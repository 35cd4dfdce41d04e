//! How edits change a book.
ghost use Rattle.std.specs.Prelude.{◌≡◌, ◌≢◌, false, None, Some, IfErr, OnOk, OnErr};
ghost use Rattle.lost_spec.specs.Book.{Publish, Replace, Withdraw, refusal, after};
ghost use Rattle.lost_book.specs.Applied.{IsApplied, is_replacement};
ghost use Rattle.lost_mapping.specs.Edit.{edit_of};

use crate::book::Book;
use crate::changes;
use crate::register::{check_publish, check_replace, check_withdraw};
use lost_mapping::{Edit, Identity, Mapping, Stamp};
use lost_spec::faults::EditError;

impl Book {
    /// Applies an edit. A publish appends, and forgets the withdrawal of its identity. A replacement keeps the place
    /// and takes no memory. A withdrawal removes the mapping and is remembered. The edition rises by one.
    ///
    /// # Errors
    ///
    /// The refusal of [`Book::check`]; [`EditError::Memory`] only after that. The book is then unchanged.
    pub fn apply(&mut self, edit: Edit) -> Result<(), EditError>
        ensures accepted { OnOk result (refusal self.old (edit_of edit) ≡ None) }
        ensures changed { OnOk result (self.new ≡ after self.old (edit_of edit)) }
        ensures refused { IfErr result (λ e. e ≢ EditError.Memory → refusal self.old (edit_of edit) ≡ Some e) }
        ensures memory_last { result ≡ Err EditError.Memory → refusal self.old (edit_of edit) ≡ None }
        ensures memory_of_others { result ≡ Err EditError.Memory → is_replacement (edit_of edit) ≡ false }
        ensures unchanged { OnErr result (self.new ≡ self.old) }
    {
        match edit {
            Edit::Publish(mapping) => self.publish(mapping),
            Edit::Replace(mapping) => self.replace(mapping),
            Edit::Withdraw(identity, stamp) => self.withdraw(&identity, &stamp),
        }
    }

    fn publish(&mut self, mapping: Mapping) -> Result<(), EditError>
        ensures { IsApplied self.old (Publish mapping) result self.new }
    {
        check_publish(self, &mapping)?;
        let position = self.mappings.len();
        if self.mappings.push(mapping).is_err() {
            return Err(EditError::Memory);
        }
        self.traces.forget(self.mappings[position].identity());
        self.edits += 1;
        Ok(())
    }

    fn replace(&mut self, mapping: Mapping) -> Result<(), EditError>
        ensures { IsApplied self.old (Replace mapping) result self.new }
    {
        check_replace(self, &mapping)?;
        changes::replace(&mut self.mappings, mapping);
        self.edits += 1;
        Ok(())
    }

    fn withdraw(&mut self, identity: &Identity, stamp: &Stamp) -> Result<(), EditError>
        ensures { IsApplied self.old (Withdraw identity.now stamp.now) result self.new }
    {
        check_withdraw(self, identity, stamp)?;
        if self.traces.remember(identity, stamp).is_err() {
            return Err(EditError::Memory);
        }
        changes::withdraw(&mut self.mappings, identity);
        self.edits += 1;
        Ok(())
    }
}
