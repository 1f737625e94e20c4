//! The constructors that choose between two branches.

ghost use Rattle.std.specs.Prelude.{◌≡◌, Ok, Err, IfOk, IfErr, MatchResult};
ghost use Rattle.mh_base.specs.Tests.{Refuses};
ghost use Rattle.mh_tree.specs.Constructors.{refusals, guard_made, point_made};
ghost use Rattle.mh_tree.specs.Handle.{IsSound};
ghost use Rattle.mh_tree.specs.Tree.{guard as guard_tree, point as point_tree};

use crate::fault::TreeFault;
use crate::handle::Handle;
use crate::limits::within_limits;
use crate::node::Node;
use mh_type::{Kind, MethodType};
use std::alloc::Global;

impl Handle {
    /// Returns the handle that runs the target if the test returns true, and otherwise the fallback
    /// (`MethodHandles.guardWithTest`).
    ///
    /// *Type*: the common type of target and fallback. The test returns boolean, and its parameters
    /// are the first of theirs.
    ///
    /// *Pseudo-code*: `adapter(a.., b..) = if test(a..) { target(a.., b..) } else { fallback(a..,
    /// b..) }`. If the test throws, this is the outcome; only the chosen branch runs.
    ///
    /// *Example*: with the test `ieq` with `int 1` inserted, the target 100 and the fallback
    /// `ineg`, the handle is of type `(int)int`, and returns `int 100` for `int 1` and `int -2` for
    /// `int 2`.
    ///
    /// *Errors*: `NotBoolean`; `TypeMismatch` if the branches have different types or the test's
    /// parameters are not the first of theirs; `TooDeep`, `TooLarge`, and `NoMemory`.
    pub fn guard(
        alloc: Global,
        test: &Handle,
        target: &Handle,
        fallback: &Handle,
    ) -> Result<Handle, TreeFault>
        ensures value { IfOk result (λ h. guard_made test.now target.now fallback.now ≡ Ok h) }
        ensures refused { IfErr result (λ e. Refuses (refusals
            (guard_made test.now target.now fallback.now)) e) }
    {
        let method_type = guard_type(test, target, fallback)?;
        let root = Node::Guard {
            test: test.root_owner()?,
            target: target.root_owner()?,
            fallback: fallback.root_owner()?,
        };
        let depth = 1 + test.depth().max(target.depth().max(fallback.depth()));
        let size = 1 + (test.size() + (target.size() + fallback.size()));
        let bound = test
            .point_bound()
            .max(target.point_bound().max(fallback.point_bound()));
        let sites = test
            .site_bound()
            .max(target.site_bound().max(fallback.site_bound()));
        Handle::of(alloc, root, method_type, depth, size, bound, sites)
    }

    /// Returns the handle that runs the target while a point is valid, and otherwise the fallback
    /// (`SwitchPoint.guardWithTest`).
    ///
    /// *Type*: the common type of target and fallback.
    ///
    /// *Pseudo-code*: `adapter(a..) = if valid[point] { target(a..) } else { fallback(a..) }`.
    ///
    /// *Example*: with point 0, the target `iadd` and the fallback `isub`, the handle returns `int
    /// 3` for `int 2` and `int 1` while point 0 is valid, and `int 1` from its invalidation on.
    ///
    /// *Errors*: `TypeMismatch` if the branches have different types; `TooDeep`, `TooLarge`, and
    /// `NoMemory`.
    pub fn point(
        alloc: Global,
        point: u32,
        target: &Handle,
        fallback: &Handle,
    ) -> Result<Handle, TreeFault>
        ensures value { IfOk result (λ h. point_made point target.now fallback.now ≡ Ok h) }
        ensures refused { IfErr result (λ e. Refuses (refusals
            (point_made point target.now fallback.now)) e) }
    {
        let method_type = point_type(point, target, fallback)?;
        let root = Node::Point {
            point,
            target: target.root_owner()?,
            fallback: fallback.root_owner()?,
        };
        let depth = 1 + target.depth().max(fallback.depth());
        let size = 1 + (target.size() + fallback.size());
        let bound = (point as usize + 1).max(target.point_bound().max(fallback.point_bound()));
        let sites = target.site_bound().max(fallback.site_bound());
        Handle::of(alloc, root, method_type, depth, size, bound, sites)
    }
}

// Returns the type of a guard of these parts, if they agree.
fn guard_type(test: &Handle, target: &Handle, fallback: &Handle) -> Result<MethodType, TreeFault>
    ensures value { MatchResult result (λ m. guard_made test.now target.now fallback.now ≡ Ok
        (record {
          tree = guard_tree test.now.tree target.now.tree fallback.now.tree;
          signature = m;
        })) (λ e. guard_made test.now target.now fallback.now ≡ Err e) }
    ensures sound { IfOk result (λ m. IsSound (guard_tree test.now.tree target.now.tree
        fallback.now.tree) m) }
{
    if !test.method_type().ret().is(Kind::Boolean) {
        return Err(TreeFault::NotBoolean);
    }
    let method_type = target.method_type();
    if !method_type.equals(fallback.method_type()) {
        return Err(TreeFault::TypeMismatch);
    }
    if !method_type.begins_with(test.method_type().parameters()) {
        return Err(TreeFault::TypeMismatch);
    }
    let depth = 1 + test.depth().max(target.depth().max(fallback.depth()));
    let size = 1 + (test.size() + (target.size() + fallback.size()));
    within_limits(method_type.copy(), depth, size)
}

// Returns the type of a point's branches, if they agree.
fn point_type(point: u32, target: &Handle, fallback: &Handle) -> Result<MethodType, TreeFault>
    ensures value { MatchResult result (λ m. point_made point target.now fallback.now ≡ Ok
        (record { tree = point_tree point target.now.tree fallback.now.tree; signature = m }))
        (λ e. point_made point target.now fallback.now ≡ Err e) }
    ensures sound { IfOk result (λ m. IsSound (point_tree point target.now.tree fallback.now.tree)
        m) }
{
    let method_type = target.method_type();
    if !method_type.equals(fallback.method_type()) {
        return Err(TreeFault::TypeMismatch);
    }
    let depth = 1 + target.depth().max(fallback.depth());
    let size = 1 + (target.size() + fallback.size());
    within_limits(method_type.copy(), depth, size)
}
