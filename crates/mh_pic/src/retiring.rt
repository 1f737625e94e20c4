//! Removing invalid points from declared trees.

ghost use Rattle.std.specs.Prelude.{◌≡◌, unwrap_or, IfOk};
ghost use Rattle.mh_tree.specs.Handle.{IsDeclared, IsSound};
ghost use Rattle.mh_pic.specs.Specialised.{retired_tree};

use crate::resolving::resolve;
use crate::specialising::rebuild;
use mh_base::NoMemory;
use mh_tree::{Declared, Handle};
use std::alloc::Global;

/// Returns the declared tree with each of these points replaced by its fallback, so that it no
/// longer names them. It has the tree's type, is no deeper and no larger, and invokes what the tree
/// invokes. Whether these points are later valid or not, it returns what the tree returns if all of
/// them are invalid, in at most as many steps, as the law `retired_points_keep_meaning` says. The
/// result shares the parts that do not change. It takes time linear in the size, times the number
/// of these points at each node of a point.
///
/// Fails only if an allocation or a reference count is refused.
pub fn retire(alloc: Global, tree: &Declared, points: &[u32]) -> Result<Declared, NoMemory>
    ensures value { IfOk result (λ d. d ≡ retired_tree points.now tree.now) }
    ensures sound { IsSound tree.now.tree tree.now.signature }
{
    match retire_changed(alloc, tree.handle(), points)? {
        Some(made) => declare(&made),
        None => tree.share(),
    }
}

// Returns the tree of a handle without these points, or `None` if it is the handle itself.
fn retire_changed(
    alloc: Global,
    handle: &Handle,
    points: &[u32],
) -> Result<Option<Handle>, NoMemory>
    ensures value { IfOk result (λ o. unwrap_or o handle.now
        ≡ retired_tree points.now handle.now) }
    ensures sound { IsSound handle.now.tree handle.now.signature }
{
    let made = resolve(alloc, handle.root(), points, false);
    match made? {
        Some(root) => Ok(Some(rebuild(alloc, handle, root)?)),
        None => Ok(None),
    }
}

// Returns a handle within the limits of declared trees as a declared tree.
#[tactic(auto, using(crate::proofs::RetiredTrees::declared_is))]
fn declare(handle: &Handle) -> Result<Declared, NoMemory>
    requires declared { IsDeclared handle.now }
    ensures value { IfOk result (λ d. d ≡ handle.now) }
{
    Declared::new(handle).map_err(|_| NoMemory)
}
