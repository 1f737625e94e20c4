//! The value behind a tree's handle.

ghost use Rattle.std.specs.Prelude.{◌≡◌, Ok, IfErr, IfOk};
ghost use Rattle.mhlink_c.specs.Inputs.{IsFaultOf, tree_in};
ghost use Rattle.mhlink_c.specs.Statuses.{no_memory};

use crate::failure::Failure;
use crate::texts::read_target;
use mh_core::{Declared, NoMemory};
use mh_json::readers::Scope;
use std::alloc::Global;
use std::marker::Model;

/// A tree for C, which was read once. A contract sees the tree.
#[derive(Drop)]
pub(crate) struct HeldTree {
    tree: Declared,
}

impl Model for HeldTree {
    ghost use Rattle.mh_tree.specs.Handle.{TypedTree};
    ghost use Rattle.mh_tree.specs.TreeCode.{coded_typed_tree};

    ghost Value = { TypedTree };

    ghost coded = { coded_typed_tree };

    ghost view = { λ h. h.tree };
}

impl HeldTree {
    /// Reads a tree in JSON, over these names.
    pub(crate) fn read(alloc: Global, scope: &Scope, text: &[u8]) -> Result<Box<HeldTree>, Failure>
        ensures value { IfOk result (λ t. tree_in scope.now text.now ≡ Ok t.value) }
        ensures refused { IfErr result (IsFaultOf (tree_in scope.now text.now)) }
    {
        let tree = read_target(alloc, scope, text)?;
        Ok(Box::new(alloc, HeldTree { tree })?)
    }

    /// Returns another owner of the tree.
    pub(crate) fn share(&self) -> Result<Declared, Failure>
        ensures value { IfOk result (λ t. t ≡ self.now) }
        ensures refused { IfErr result (λ e. e ≡ no_memory) }
    {
        self.tree.share().map_err(|_| Failure::from(NoMemory))
    }
}
