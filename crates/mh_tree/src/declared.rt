//! Declared trees.

ghost use Rattle.std.specs.Prelude.{◌≡◌, ◌≤◌, Ok, IfOk, IfErr};
ghost use Rattle.mh_base.specs.Tests.{Refuses};
ghost use Rattle.mh_tree.specs.Constructors.{refusals, declared_made};
ghost use Rattle.mh_tree.specs.Limits.{depth as tree_depth, size as tree_size, greatest_declared_depth, most_declared_nodes};

use crate::fault::TreeFault;
use crate::handle::Handle;
use mh_base::NoMemory;
use std::fmt;
use std::marker::Model;

/// The greatest depth of a declared tree.
pub const DEEPEST_DECLARED: usize = 64;

/// The greatest size of a declared tree.
pub const LARGEST_DECLARED: usize = 4096;

/// A handle within the limits of declared trees: at most 64 deep, and with at most 4,096 nodes. The
/// trees that are built over it, such as inline caches, are then within the limits of any handle.
#[derive(Drop)]
pub struct Declared {
    handle: Handle,
}

impl Model for Declared {
    ghost use Rattle.mh_tree.specs.Handle.{TypedTree, IsDeclared};

    ghost Value = { TypedTree };

    ghost use Rattle.mh_tree.specs.TreeCode.{coded_typed_tree};

    ghost coded = { coded_typed_tree };

    ghost view = { λ d. d.handle };

    ghost invariant = { λ d. IsDeclared d.handle };
}

/// Writes its handle inside `Declared(..)`.
impl fmt::Debug for Declared {
    fn fmt<W: fmt::Write>(&self, f: &mut fmt::Formatter<W>) -> fmt::Result {
        write!(f, "Declared({:?})", self.handle())
    }
}

impl Declared {
    /// Returns another owner of the handle as a declared tree. Fails with `TooDeep` if it is deeper
    /// than 64, then with `TooLarge` if it has more than 4,096 nodes, and otherwise only with
    /// `NoMemory`.
    pub fn new(handle: &Handle) -> Result<Declared, TreeFault>
        ensures value { IfOk result (λ d. declared_made handle.now ≡ Ok d) }
        ensures refused { IfErr result (λ e. Refuses (refusals (declared_made handle.now)) e) }
    {
        if handle.depth() > DEEPEST_DECLARED {
            return Err(TreeFault::TooDeep);
        }
        if handle.size() > LARGEST_DECLARED {
            return Err(TreeFault::TooLarge);
        }
        let handle = handle.share()?;
        Ok(Declared { handle })
    }

    /// Returns another owner of the tree. Fails only with `NoMemory`.
    pub fn share(&self) -> Result<Declared, NoMemory>
        ensures value { IfOk result (λ d. d ≡ self.now) }
    {
        let handle = self.handle.share()?;
        Ok(Declared { handle })
    }

    /// Returns the handle.
    pub fn handle(&self) -> &Handle
        ensures value { result.now ≡ self.now }
        ensures limits { (tree_depth self.now.tree ≤ greatest_declared_depth)
            × (tree_size self.now.tree ≤ most_declared_nodes) }
    {
        &self.handle
    }
}
