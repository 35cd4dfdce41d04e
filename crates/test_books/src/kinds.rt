//! The two kinds of books.
use lost_book::{Book, Edit, EditError, Limits};
use lost_query::Holdings;
use lost_routing::Routing;
use std::alloc::{AllocError, Global};

/// A book of one of the two kinds.
pub(crate) trait Kind: Holdings + Drop {
    /// Its name in the output.
    const NAME: &'static str;

    /// A book without mappings.
    fn empty(alloc: Global, limits: Limits) -> Result<Self, AllocError>;

    /// Whether the book would refuse an edit, and why.
    fn check(&self, edit: &Edit) -> Result<(), EditError>;

    /// Applies an edit. A refusal leaves the book as it was.
    fn apply(&mut self, edit: Edit) -> Result<(), EditError>;
}

impl Kind for Book {
    const NAME: &'static str = "book";

    fn empty(alloc: Global, limits: Limits) -> Result<Book, AllocError> {
        Book::new(alloc, limits)
    }

    fn check(&self, edit: &Edit) -> Result<(), EditError> {
        Book::check(self, edit)
    }

    fn apply(&mut self, edit: Edit) -> Result<(), EditError> {
        Book::apply(self, edit)
    }
}

impl Kind for Routing {
    const NAME: &'static str = "routing";

    fn empty(alloc: Global, limits: Limits) -> Result<Routing, AllocError> {
        Routing::new(alloc, limits)
    }

    fn check(&self, edit: &Edit) -> Result<(), EditError> {
        Routing::check(self, edit)
    }

    fn apply(&mut self, edit: Edit) -> Result<(), EditError> {
        Routing::apply(self, edit)
    }
}
