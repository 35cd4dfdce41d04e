//! Which edits a book refuses, by the first check that applies (own order).
ghost use Rattle.std.specs.Prelude.{◌≡◌};
ghost use Rattle.std.specs.Result.{result_err};
ghost use Rattle.lost_spec.specs.Book.{refusal};
ghost use Rattle.lost_mapping.specs.Edit.{edit_of};

use crate::book::Book;
use crate::held;
use crate::limits::Limits;
use crate::register::{Register, check_edit};
use lost_mapping::{Edit, Identity, Mapping, Stamp};
use lost_spec::faults::EditError;

impl Book {
    /// Says whether the book refuses an edit, without changing anything.
    ///
    /// # Errors
    ///
    /// The first that applies, in this order: [`EditError::EditsSpent`] where as many edits as the limit were accepted;
    /// [`EditError::IdentityHeld`] for a publish of an identity that is held; [`EditError::Withdrawn`] for a publish of
    /// one that was withdrawn, where the stamp's instant is not after that of the withdrawal;
    /// [`EditError::IdentityUnknown`] for another edit of one that is not held; [`EditError::NotNewer`] where the
    /// stamp's instant is not after that of the mapping held; [`EditError::TracesFull`] for a withdrawal where as many
    /// withdrawn identities as the limit are remembered; [`EditError::Full`] for a publish where as many mappings as
    /// the limit are held; [`EditError::KeyHeld`] where another mapping has the key; [`EditError::KeyUnchanged`] for a
    /// replacement with other regions and the same key (RFC 5222, section 5.6). A mapping that is held counts whether
    /// it is live or not.
    pub fn check(&self, edit: &Edit) -> Result<(), EditError>
        ensures { result_err result ≡ refusal self.now (edit_of edit.now) }
    {
        check_edit(self, edit)
    }
}

impl Register for Book {
    ghost book = { λ b. b };

    fn limits(&self) -> Limits {
        self.limits
    }

    fn edits(&self) -> u64 {
        self.edits
    }

    fn count(&self) -> usize {
        self.mappings.len()
    }

    fn trace_count(&self) -> usize {
        self.traces.len()
    }

    fn withdrawn(&self, identity: &Identity) -> Option<&Stamp> {
        self.traces.stamp(identity)
    }

    fn is_held(&self, identity: &Identity) -> bool {
        self.mappings()
            .iter()
            .any(|mapping| held::has_identity(mapping, identity))
    }

    fn held(&self, identity: &Identity) -> Option<&Mapping> {
        held::held(self.mappings(), identity)
    }

    fn is_key_of_another(&self, identity: &Identity, key: &str) -> bool {
        held::is_key_of_another(self.mappings(), identity, key)
    }
}
