//! Worlds that never change.

ghost use Rattle.std.specs.Prelude.{◌≡◌, IfOk};
ghost use Rattle.mh_core.specs.Books.{IsBook};

use crate::past::Past;
use mh_core::{Book, NoMemory};
use mh_site::{Definition, World};
use std::marker::Model;

/// A world that never changes, with its definition. A contract sees the book as it was when the
/// world was shown.
#[derive(Drop)]
pub(crate) struct Shown {
    pub(crate) definition: Definition,
    pub(crate) world: World,
    past: Past,
}

impl Model for Shown {
    ghost use Rattle.std.specs.Prelude.{◌≡◌};
    ghost use Rattle.mh_core.specs.Books.{BookState, IsBook, coded_book};

    ghost Value = { BookState };

    ghost coded = { coded_book };

    ghost view = { λ s. s.past.book };

    ghost invariant = { λ s. IsBook s.past.book × (s.definition ≡ s.past.book.definition)
        × (s.world ≡ s.past.book.world) };
}

impl Shown {
    // Returns the world of a book. Fails only if an allocation or a reference count is refused.
    pub(crate) fn of(book: &Book) -> Result<Shown, NoMemory>
        ensures value { IfOk result (λ s. s ≡ book.now) }
    {
        let definition = book.definition().share()?;
        let world = book.world().share()?;
        Ok(Shown {
            definition,
            world,
            past: Past::of(book),
        })
    }

    // Returns the definition.
    pub(crate) fn definition(&self) -> &Definition
        ensures value { result.now ≡ self.now.definition }
        ensures book { IsBook self.now }
    {
        &self.definition
    }

    // Returns the world.
    pub(crate) fn world(&self) -> &World
        ensures value { result.now ≡ self.now.world }
        ensures book { IsBook self.now }
    {
        &self.world
    }
}
