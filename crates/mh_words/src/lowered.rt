//! Prepared handles with code over words.

ghost use Rattle.std.specs.Prelude.{◌≡◌, IfOk, IfSome};
ghost use Rattle.mh_words.specs.Means.{Means};

use crate::handles::lower;
use crate::word_code::WordCode;
use mh_base::NoMemory;
use mh_code::Prepared;
use std::alloc::Global;
use std::marker::Model;

/// A prepared handle, and its code over words if it was lowered.
///
/// A contract sees the handle's tree and type. The invariant says that the code over words does what
/// the tree does.
#[derive(Drop)]
pub struct Lowered {
    prepared: Prepared,
    words: Option<WordCode>,
}

impl Model for Lowered {
    ghost use Rattle.std.specs.Prelude.{IfSome};
    ghost use Rattle.mh_tree.specs.Handle.{TypedTree};
    ghost use Rattle.mh_tree.specs.TreeCode.{coded_typed_tree};
    ghost use Rattle.mh_words.specs.Means.{Means};

    ghost Value = { TypedTree };

    ghost coded = { coded_typed_tree };

    ghost view = { λ l. l.prepared };

    ghost invariant = { λ l. IfSome l.words (λ w. Means w l.prepared) };
}

impl Lowered {
    /// Lowers the code of a prepared handle. Fails only with `NoMemory`.
    pub fn new(alloc: Global, prepared: Prepared) -> Result<Lowered, NoMemory>
        ensures value { IfOk result (λ l. l ≡ prepared) }
    {
        let words = lower(alloc, &prepared)?;
        Ok(Lowered { prepared, words })
    }

    /// Returns the prepared handle.
    pub fn prepared(&self) -> &Prepared
        ensures value { result.now ≡ self.now }
    {
        &self.prepared
    }

    /// Returns the code over words, or `None` if the handle has none.
    #[inline(always)]
    pub fn words(&self) -> Option<&WordCode>
        ensures means { IfSome result (λ w. Means w.now self.now) }
    {
        match &self.words {
            Some(words) => Some(words),
            None => None,
        }
    }
}
