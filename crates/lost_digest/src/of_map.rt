//! The digest of all that is held.
ghost use Rattle.std.specs.Prelude.{◌≡◌, [], IfOk, string_bytes};
ghost use Rattle.lost_spec.specs.Book.{mappings_after};
ghost use Rattle.lost_mapping.specs.Edit.{edit_of};
ghost use Rattle.lost_digest.specs.Digest.{map_digest, with_mapping, without_mapping, digest_text};

use crate::of_mapping::mapping_digest;
use lost_book::Register;
use lost_mapping::{Edit, Mapping};
use lost_query::Holdings;
use std::alloc::{AllocError, Global};
use std::marker::Model;

/// The digest of the mappings that are held, in whatever order: the sum of their digests modulo 2^128 (own rule).
/// Contracts see it as this number.
#[derive(Clone, Copy, PartialEq, Eq, Debug)]
pub struct MapDigest {
    number: u128,
}

impl Model for MapDigest {
    ghost use Rattle.std.specs.Prelude.{ℕ};

    ghost Value = { ℕ };

    ghost view = { λ d. d.number };

    ghost inverse = { λ n. record { number = n } };
}

impl MapDigest {
    /// The digest of no mappings.
    pub fn empty() -> MapDigest
        ensures { result ≡ map_digest [] }
    {
        MapDigest { number: 0 }
    }

    /// Adds a mapping.
    pub fn add(&mut self, mapping: &Mapping)
        ensures { self.new ≡ with_mapping self.old mapping.now }
    {
        self.number = self.number.wrapping_add(mapping_digest(mapping));
    }

    /// Takes a mapping away.
    pub fn remove(&mut self, mapping: &Mapping)
        ensures { self.new ≡ without_mapping self.old mapping.now }
    {
        self.number = self.number.wrapping_sub(mapping_digest(mapping));
    }

    /// The digest of a book becomes that of the book after an edit. It takes no memory.
    pub fn follow<R: Register>(&mut self, book: &R, edit: &Edit)
        requires { self.old ≡ map_digest (R.book book.now).mappings }
        ensures { self.new ≡ map_digest (mappings_after (R.book book.now).mappings (edit_of edit.now)) }
    {
        match edit {
            Edit::Publish(mapping) => self.add(mapping),
            Edit::Replace(mapping) => {
                if let Some(old) = book.held(mapping.identity()) {
                    self.remove(old);
                    self.add(mapping);
                }
            }
            Edit::Withdraw(identity, _) => {
                if let Some(old) = book.held(identity) {
                    self.remove(old);
                }
            }
        }
    }

    /// The digest that this number is.
    pub fn of_number(number: u128) -> MapDigest
        ensures { result ≡ number }
    {
        MapDigest { number }
    }

    /// The number.
    pub fn number(self) -> u128
        ensures { result ≡ self }
    {
        self.number
    }

    /// The digest as 32 hexadecimal digits in lower case.
    ///
    /// # Errors
    ///
    /// If memory is refused.
    pub fn text(self, alloc: Global) -> Result<String, AllocError>
        ensures { IfOk result (λ text. string_bytes text ≡ digest_text self) }
    {
        hex::encode(alloc, &self.number.to_be_bytes())
    }
}

/// The digest of what a book holds.
pub fn book_digest<H: Holdings>(book: &H) -> MapDigest
    ensures { result ≡ map_digest (H.book book.now).mappings }
{
    let mut digest = MapDigest::empty();
    for position in 0..book.len() {
        digest.add(book.mapping(position));
    }
    digest
}
