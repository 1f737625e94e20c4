//! The book of a shown world, for proofs only.

ghost use Rattle.std.specs.Prelude.{◌≡◌};
ghost use Rattle.mh_core.specs.Books.{BookState, coded_book};
ghost use base.Fml.{ftrue};

use mh_core::Book;
use std::marker::Model;

/// The book as it was when its world was shown. It takes no memory.
#[derive(Drop)]
pub(crate) struct Past {
    pub(crate) ghost book: { BookState } by { coded_book },
}

impl Model for Past {
    ghost also_owns = { λ _. ftrue };
}

impl Past {
    // Returns the book as it is.
    pub(crate) fn of(_book: &Book) -> Past
        ensures { result.book ≡ _book.now }
    {
        Past {}
    }
}
