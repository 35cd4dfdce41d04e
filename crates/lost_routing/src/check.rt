//! Which edits the routing refuses, by the first check that applies (own order).
ghost use Rattle.std.specs.Prelude.{◌≡◌};
ghost use Rattle.std.specs.Result.{result_err};
ghost use Rattle.lost_spec.specs.Book.{refusal};
ghost use Rattle.lost_mapping.specs.Edit.{edit_of};

use crate::routing::Routing;
use lost_book::{Edit, EditError, Limits, Register, check_edit};
use lost_mapping::{Identity, Mapping, Stamp};

impl Routing {
    /// Checks whether the routing refuses an edit, without changing anything. It takes no memory.
    ///
    /// # Errors
    ///
    /// As [`Book::check`](lost_book::Book::check): the first refusal that applies, and never [`EditError::Memory`].
    pub fn check(&self, edit: &Edit) -> Result<(), EditError>
        ensures { result_err result ≡ refusal self.now (edit_of edit.now) }
    {
        check_edit(self, edit)
    }
}

impl Register for Routing {
    ghost book = { λ b. b };

    fn edits(&self) -> u64 {
        self.edits
    }

    fn count(&self) -> usize {
        self.store.len()
    }

    fn limits(&self) -> Limits {
        self.limits
    }

    fn trace_count(&self) -> usize {
        self.traces.len()
    }

    fn withdrawn(&self, identity: &Identity) -> Option<&Stamp> {
        self.traces.stamp(identity)
    }

    fn is_held(&self, identity: &Identity) -> bool {
        self.store.is_held(identity)
    }

    fn held(&self, identity: &Identity) -> Option<&Mapping> {
        self.store.with_identity(identity)
    }

    fn is_key_of_another(&self, identity: &Identity, key: &str) -> bool {
        self.store.is_key_of_another(identity, key)
    }
}
