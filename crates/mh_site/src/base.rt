//! Base trees with their code.

ghost use Rattle.std.specs.Prelude.{◌≡◌, IfOk};
ghost use Rattle.mh_tree.specs.Handle.{IsDeclared};

use mh_base::NoMemory;
use mh_code::Prepared;
use mh_tree::Declared;
use std::marker::Model;

/// The tree of a site with its code, so that other trees can be linked over it without preparing it
/// again.
#[derive(Debug, Drop)]
pub(crate) struct BaseTree {
    declared: Declared,
    prepared: Prepared,
}

impl Model for BaseTree {
    ghost use Rattle.mh_tree.specs.Handle.{TypedTree};
    ghost use Rattle.mh_tree.specs.TreeCode.{coded_typed_tree};

    ghost Value = { TypedTree };

    ghost coded = { coded_typed_tree };

    ghost view = { λ b. b.declared };

    ghost use Rattle.std.specs.Prelude.{◌≡◌};

    ghost invariant = { λ b. b.prepared ≡ b.declared };
}

impl BaseTree {
    // Returns the tree with another owner of its code. Fails only if a reference count is refused.
    pub(crate) fn new(declared: Declared, prepared: &Prepared) -> Result<BaseTree, NoMemory>
        requires same { prepared.now ≡ declared }
        ensures value { IfOk result (λ b. b ≡ declared) }
    {
        let prepared = prepared.share()?;
        Ok(BaseTree { declared, prepared })
    }

    // Returns the tree.
    pub(crate) fn declared(&self) -> &Declared
        ensures value { result.now ≡ self.now }
    {
        &self.declared
    }

    // Returns the tree with its code.
    pub(crate) fn prepared(&self) -> &Prepared
        ensures value { result.now ≡ self.now }
        ensures declared { IsDeclared result.now }
    {
        // Names the invariant of the declared tree for the proof.
        let _handle = self.declared.handle();
        &self.prepared
    }

    // Returns another owner of the tree and of its code.
    pub(crate) fn share(&self) -> Result<BaseTree, NoMemory>
        ensures value { IfOk result (λ b. b ≡ self.now) }
    {
        let declared = self.declared.share()?;
        BaseTree::new(declared, &self.prepared)
    }
}
