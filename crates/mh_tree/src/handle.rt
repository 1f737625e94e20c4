//! Handles: shared trees, typed and within limits.

ghost use Rattle.std.specs.Prelude.{◌≡◌, ◌≤◌, IfOk, IfErr};
ghost use Rattle.std.specs.Arc.{arc_value};
ghost use Rattle.mh_tree.specs.Handle.{TypedTree, IsSound};
ghost use Rattle.mh_tree.specs.TreeOf.{tree_of};
ghost use Rattle.mh_tree.specs.Limits.{depth as tree_depth, size as tree_size, point_bound as tree_point_bound, site_bound as tree_site_bound, greatest_depth, most_nodes};

use crate::fault::TreeFault;
use crate::measures::{Measures, measure};
use crate::node::Node;
use mh_base::NoMemory;
use mh_type::MethodType;
use std::alloc::Global;
use std::fmt;
use std::marker::Model;
use std::sync::Arc;

// An owner of a tree, with the tree's type and measures.
#[derive(Drop)]
pub(crate) struct Rooted {
    pub(crate) alloc: Global,
    pub(crate) root: Arc<Node>,
    pub(crate) method_type: MethodType,
    pub(crate) depth: usize,
    pub(crate) size: usize,
    pub(crate) point_bound: usize,
    pub(crate) site_bound: usize,
}

/// A shared tree that is well typed, at most 96 deep and with at most 262,144 nodes. To copy it,
/// use `share`. No function copies a tree: the constructors take further owners of their parts.
#[derive(Drop)]
pub struct Handle {
    shared: Arc<Rooted>,
}

impl Model for Handle {
    ghost use Rattle.mh_tree.specs.Handle.{TypedTree};

    ghost Value = { TypedTree };

    ghost use Rattle.mh_tree.specs.TreeCode.{coded_typed_tree};

    ghost coded = { coded_typed_tree };

    ghost use Rattle.mh_tree.specs.Kept.{kept_tree, IsKept};

    ghost view = { kept_tree };

    ghost invariant = { IsKept };
}

/// Shows the type of the tree, and its size instead of its nodes, of which a shared tree may have
/// too many to read.
impl fmt::Debug for Handle {
    fn fmt<W: fmt::Write>(&self, f: &mut fmt::Formatter<W>) -> fmt::Result {
        write!(f, "Handle({}, {} nodes)", self.method_type(), self.size())
    }
}

impl Handle {
    // Returns the handle of a new tree, with its type and measures.
    pub(crate) fn of(
        alloc: Global,
        root: Node,
        method_type: MethodType,
        depth: usize,
        size: usize,
        point_bound: usize,
        site_bound: usize,
    ) -> Result<Handle, TreeFault>
        requires sound { IsSound (tree_of root) method_type }
        requires deep { depth ≡ tree_depth (tree_of root) }
        requires large { size ≡ tree_size (tree_of root) }
        requires bound { point_bound ≡ tree_point_bound (tree_of root) }
        requires sites { site_bound ≡ tree_site_bound (tree_of root) }
        ensures value { IfOk result (λ h. h ≡ record
            { tree = tree_of root; signature = method_type }) }
        ensures refused { IfErr result (λ e. e ≡ TreeFault.NoMemory) }
    {
        let root = Arc::new(alloc, root).map_err(|_| TreeFault::NoMemory)?;
        let measures = Measures {
            depth,
            size,
            point_bound,
            site_bound,
        };
        Ok(Handle::owning(alloc, root, method_type, measures)?)
    }

    // Returns the handle of an owned tree, with its type and measures.
    fn owning(
        alloc: Global,
        root: Arc<Node>,
        method_type: MethodType,
        measures: Measures,
    ) -> Result<Handle, NoMemory>
        requires sound { IsSound (tree_of (arc_value root)) method_type }
        requires deep { measures.depth ≡ tree_depth (tree_of (arc_value root)) }
        requires large { measures.size ≡ tree_size (tree_of (arc_value root)) }
        requires bound { measures.point_bound ≡ tree_point_bound (tree_of (arc_value root)) }
        requires sites { measures.site_bound ≡ tree_site_bound (tree_of (arc_value root)) }
        ensures value { IfOk result (λ h. h ≡ record
            { tree = tree_of (arc_value root); signature = method_type }) }
    {
        let Measures {
            depth,
            size,
            point_bound,
            site_bound,
        } = measures;
        let rooted = Rooted {
            alloc,
            root,
            method_type,
            depth,
            size,
            point_bound,
            site_bound,
        };
        let shared = Arc::new(alloc, rooted).map_err(|_| NoMemory)?;
        Ok(Handle { shared })
    }

    /// Returns a tree that was rebuilt from nodes as a handle of its type. The tree must be typed
    /// and within the limits, as `root` says of the trees of handles. It computes the tree's
    /// measures, in time linear in its size. Fails only with `NoMemory`.
    pub fn from_root(
        alloc: Global,
        root: Arc<Node>,
        method_type: &MethodType,
    ) -> Result<Handle, NoMemory>
        requires sound { IsSound (tree_of (arc_value root)) method_type.now }
        ensures value { IfOk result (λ h. h ≡ record
            { tree = tree_of (arc_value root); signature = method_type.now }) }
    {
        let measures = measure(&root);
        Handle::owning(alloc, root, method_type.copy(), measures)
    }

    /// Returns another owner of the tree. Fails only with `NoMemory`.
    pub fn share(&self) -> Result<Handle, NoMemory>
        ensures value { IfOk result (λ h. h ≡ self.now) }
    {
        let shared = Arc::try_clone(&self.shared).map_err(|_| NoMemory)?;
        Ok(Handle { shared })
    }

    // Returns the allocator of the tree's memory.
    pub(crate) fn alloc(&self) -> Global {
        let shared = &self.shared;
        shared.alloc
    }

    // Returns another owner of the root.
    pub(crate) fn root_owner(&self) -> Result<Arc<Node>, NoMemory>
        ensures value { IfOk result (λ a. tree_of (arc_value a) ≡ self.now.tree) }
    {
        let shared = &self.shared;
        Arc::try_clone(&shared.root).map_err(|_| NoMemory)
    }

    /// Returns the tree.
    pub fn root(&self) -> &Node
        ensures value { tree_of result.now ≡ self.now.tree }
        ensures sound { IsSound self.now.tree self.now.signature }
    {
        let shared = &self.shared;
        &shared.root
    }

    /// Returns the type.
    pub fn method_type(&self) -> &MethodType
        ensures value { result.now ≡ self.now.signature }
        ensures sound { IsSound self.now.tree self.now.signature }
    {
        let shared = &self.shared;
        &shared.method_type
    }

    /// Returns the depth of the tree: 1 for a leaf, otherwise one more than the depth of its
    /// deepest part.
    pub fn depth(&self) -> usize
        ensures value { result ≡ tree_depth self.now.tree }
        ensures shallow { result ≤ greatest_depth }
    {
        let shared = &self.shared;
        shared.depth
    }

    /// Returns the number of nodes. A part that occurs twice is counted twice.
    pub fn size(&self) -> usize
        ensures value { result ≡ tree_size self.now.tree }
        ensures small { result ≤ most_nodes }
    {
        let shared = &self.shared;
        shared.size
    }

    /// Returns one more than the greatest point named, or 0.
    pub fn point_bound(&self) -> usize
        ensures value { result ≡ tree_point_bound self.now.tree }
    {
        let shared = &self.shared;
        shared.point_bound
    }

    /// Returns one more than the greatest site named, or 0.
    pub fn site_bound(&self) -> usize
        ensures value { result ≡ tree_site_bound self.now.tree }
    {
        let shared = &self.shared;
        shared.site_bound
    }
}
