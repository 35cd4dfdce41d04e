//! Applies edits to the routing.
ghost use Rattle.std.specs.Prelude.{◌≡◌, ◌≢◌, None, Some, Err, IfErr, OnOk, OnErr};
ghost use Rattle.lost_spec.specs.Book.{Publish, Replace, Withdraw, refusal, after};
ghost use Rattle.lost_mapping.specs.Edit.{edit_of};
ghost use Rattle.lost_routing.specs.Applied.{IsApplied};
ghost use Rattle.lost_routing.specs.Invariants.{IsOfEdit};

use crate::classes::class_of;
use crate::routing::Routing;
use lost_book::{Edit, EditError, check_publish, check_replace, check_withdraw};
use lost_mapping::{Identity, Mapping, Stamp};
use std::alloc::AllocError;

impl Routing {
    /// Applies an edit: a publish appends and forgets the withdrawal of its identity, a replacement keeps the place, a
    /// withdrawal closes up and is remembered, and the edition rises by one. A withdrawal takes memory only to be
    /// remembered.
    ///
    /// # Errors
    ///
    /// The refusal of [`Routing::check`], and after it [`EditError::Memory`]. The book is then unchanged.
    pub fn apply(&mut self, edit: Edit) -> Result<(), EditError>
        ensures accepted { OnOk result (refusal self.old (edit_of edit) ≡ None) }
        ensures changed { OnOk result (self.new ≡ after self.old (edit_of edit)) }
        ensures refused { IfErr result (λ e. e ≢ EditError.Memory → refusal self.old (edit_of edit) ≡ Some e) }
        ensures memory_last { result ≡ Err EditError.Memory → refusal self.old (edit_of edit) ≡ None }
        ensures unchanged { OnErr result (self.new ≡ self.old) }
    {
        match edit {
            Edit::Publish(mapping) => self.publish(mapping),
            Edit::Replace(mapping) => self.replace(mapping),
            Edit::Withdraw(identity, stamp) => self.withdraw(&identity, &stamp),
        }
    }

    /// Applies a copy of an edit. An edit that the book refuses changes nothing.
    ///
    /// # Errors
    ///
    /// If memory is refused, the book is unchanged.
    pub fn absorb(&mut self, edit: &Edit) -> Result<(), AllocError>
        ensures changed { OnOk result (self.new ≡ after self.old (edit_of edit.now)) }
        ensures unchanged { OnErr result (self.new ≡ self.old) }
    {
        let applied = match edit {
            Edit::Publish(mapping) => self.publish(mapping.clone()?),
            Edit::Replace(mapping) => self.replace(mapping.clone()?),
            Edit::Withdraw(identity, stamp) => self.withdraw(identity, stamp),
        };
        match applied {
            Err(EditError::Memory) => Err(AllocError),
            _ => Ok(()),
        }
    }

    fn publish(&mut self, mapping: Mapping) -> Result<(), EditError>
        ensures { IsApplied self.old (Publish mapping) result self.new }
    {
        check_publish(self, &mapping)?;
        let position = self.store.len();
        let number = self.next_number(&mapping);
        if self.store.put(number, mapping).is_err() {
            return Err(EditError::Memory);
        }
        self.traces.forget(self.store.mapping(position).identity());
        self.edits += 1;
        Ok(())
    }

    /// The number of the mapping that is published next: its last six bits tell the class of the service.
    fn next_number(&self, mapping: &Mapping) -> u64
        ensures { IsOfEdit result self.now.edits }
    {
        self.edits * 64 + class_of(mapping.service().text()) as u64
    }

    fn replace(&mut self, mapping: Mapping) -> Result<(), EditError>
        ensures { IsApplied self.old (Replace mapping) result self.new }
    {
        check_replace(self, &mapping)?;
        if self.store.replace(mapping).is_err() {
            return Err(EditError::Memory);
        }
        self.edits += 1;
        Ok(())
    }

    fn withdraw(&mut self, identity: &Identity, stamp: &Stamp) -> Result<(), EditError>
        ensures { IsApplied self.old (Withdraw identity.now stamp.now) result self.new }
    {
        check_withdraw(self, identity, stamp)?;
        if self.traces.remember(identity, stamp).is_err() {
            return Err(EditError::Memory);
        }
        self.store.withdraw(identity);
        self.edits += 1;
        Ok(())
    }
}
