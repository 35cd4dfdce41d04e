//! A book with the digest of what it holds.
ghost use Rattle.std.specs.Prelude.{◌≡◌, ◌≢◌, None, Some, IfErr, OnOk, OnErr};
ghost use Rattle.std.specs.Result.{result_err};
ghost use Rattle.lost_spec.specs.Book.{refusal, after};
ghost use Rattle.lost_mapping.specs.Edit.{edit_of};
ghost use Rattle.lost_digest.specs.Digest.{map_digest};

use lost_book::{Edit, EditError};
use lost_digest::MapDigest;
use lost_routing::Routing;
use std::marker::Model;

/// A book, beside the digest of what it holds. Contracts see it as the book.
#[derive(Drop)]
pub(crate) struct Digested {
    book: Routing,
    digest: MapDigest,
}

impl Model for Digested {
    ghost use Rattle.std.specs.Prelude.{◌≡◌};
    ghost use Rattle.lost_spec.specs.Book as spec;
    ghost use Rattle.lost_digest.specs.Digest.{map_digest};

    ghost Value = { spec.Book };

    ghost view = { λ d. d.book };

    ghost invariant = { λ d. d.digest ≡ map_digest d.book.mappings };
}

impl Digested {
    /// A book whose digest is known.
    pub(crate) fn of(book: Routing, digest: MapDigest) -> Digested
        requires { digest ≡ map_digest book.mappings }
        ensures { result ≡ book }
    {
        Digested { book, digest }
    }

    /// The book.
    pub(crate) fn book(&self) -> &Routing
        ensures { result.now ≡ self.now }
    {
        &self.book
    }

    /// The digest of what it holds.
    pub(crate) fn digest(&self) -> MapDigest
        ensures { result ≡ map_digest self.now.mappings }
    {
        self.digest
    }

    /// The number of accepted edits.
    pub(crate) fn edition(&self) -> u64
        ensures { result ≡ self.now.edits }
    {
        self.book.edition()
    }

    /// Checks an edit, as [`Routing::check`] does.
    ///
    /// # Errors
    ///
    /// The first refusal that applies.
    pub(crate) fn check(&self, edit: &Edit) -> Result<(), EditError>
        ensures { result_err result ≡ refusal self.now (edit_of edit.now) }
    {
        self.book.check(edit)
    }

    /// Applies an edit, as [`Routing::apply`] does.
    ///
    /// # Errors
    ///
    /// As [`Routing::apply`]. The book is then unchanged.
    pub(crate) fn apply(&mut self, edit: Edit) -> Result<(), EditError>
        ensures accepted { OnOk result (refusal self.old (edit_of edit) ≡ None) }
        ensures changed { OnOk result (self.new ≡ after self.old (edit_of edit)) }
        ensures refused { IfErr result (λ e. e ≢ EditError.Memory → refusal self.old (edit_of edit) ≡ Some e) }
        ensures memory_last { result ≡ Err EditError.Memory → refusal self.old (edit_of edit) ≡ None }
        ensures unchanged { OnErr result (self.new ≡ self.old) }
    {
        let mut digest = self.digest;
        digest.follow(&self.book, &edit);
        self.book.apply(edit)?;
        self.digest = digest;
        Ok(())
    }
}
