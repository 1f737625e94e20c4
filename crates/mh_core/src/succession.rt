//! The beginning of another book that continues from the state of a book.

ghost use Rattle.std.specs.Prelude.{IfErr, IfOk, OnOk};
ghost use Rattle.mh_base.specs.Tests.{Refuses};
ghost use Rattle.mh_core.specs.Renewals.{AreKnown, Succeeds, again_tests};

use crate::book::Book;
use crate::refusal::Refusal;
use mh_base::{NoMemory, are_below};
use mh_site::{Definition, Listing};

/// The definition and the invalid points with which another book can continue from the state of a
/// book.
#[derive(Debug, Drop)]
pub struct Succession {
    /// The definition, as `Book::renewed` returns it.
    pub definition: Definition,
    /// The points that are to be invalidated first, ascending.
    pub invalid: Listing<u32>,
}

impl Book {
    /// Returns the definition and the points from which another book can continue: each site's
    /// calls mean there what they mean here, once its first record invalidates these points. Points
    /// that are to be valid again are valid there; each that is invalid is replaced by its fallback
    /// in the base trees. Points, sites and links keep their numbers. Hits are not transferred.
    /// Takes the time of `renewed`.
    ///
    /// Fails with `NoPoint` if a point that is to be valid again does not exist, and otherwise only
    /// with `NoMemory`.
    pub fn succession(&self, again: &[u32]) -> Result<Succession, Refusal>
        ensures known { OnOk result (AreKnown self.now.definition again.now) }
        ensures succeeds { IfOk result (Succeeds again.now self.now) }
        ensures refused { IfErr result (λ told. Refuses
            (again_tests self.now.definition again.now) told) }
    {
        if !are_below(again, self.definition.points().len()) {
            return Err(Refusal::NoPoint);
        }
        self.succession_of_known(again)
            .map_err(|_| Refusal::NoMemory)
    }

    // Returns the succession, given that all these points exist.
    fn succession_of_known(&self, again: &[u32]) -> Result<Succession, NoMemory>
        requires known { AreKnown self.now.definition again.now }
        ensures succeeds { IfOk result (Succeeds again.now self.now) }
    {
        let definition = self.renewed(again)?;
        let invalid = self.fallen(again)?;
        Ok(Succession {
            definition,
            invalid,
        })
    }
}
