//! The constructor that computes a target's first argument.

ghost use Rattle.std.specs.Prelude.{◌≡◌, Ok, Err, IfOk, IfErr, MatchResult};
ghost use Rattle.mh_base.specs.Tests.{Refuses};
ghost use Rattle.mh_tree.specs.Constructors.{refusals, fold_made};
ghost use Rattle.mh_tree.specs.Handle.{IsSound};
ghost use Rattle.mh_tree.specs.Tree.{fold as fold_tree};

use crate::fault::TreeFault;
use crate::handle::Handle;
use crate::limits::within_limits;
use crate::node::Node;
use mh_type::MethodType;
use std::alloc::Global;

impl Handle {
    /// Returns the target applied to the combiner's result and all arguments
    /// (`MethodHandles.foldArguments`).
    ///
    /// *Type*: that of the target, without its first parameter. The combiner returns that
    /// parameter's kind, and its parameters are the first of the rest.
    ///
    /// *Pseudo-code*: `adapter(a.., b..) = target(combiner(a..), a.., b..)`. If the combiner
    /// throws, this is the outcome, and the target does not run.
    ///
    /// *Example*: `iadd` with the combiner `ineg` is of type `(int)int`, and returns `int 0` for
    /// `int -2147483648`, whose negation wraps (JLS SE 17, 15.15.4).
    ///
    /// *Errors*: `TypeMismatch` if the target has no parameter, the combiner does not return the
    /// kind of its first, or the combiner's parameters are not the first of the rest; `TooDeep`,
    /// `TooLarge`, and `NoMemory`.
    pub fn fold(alloc: Global, target: &Handle, combiner: &Handle) -> Result<Handle, TreeFault>
        ensures value { IfOk result (λ h. fold_made target.now combiner.now ≡ Ok h) }
        ensures refused { IfErr result (λ e. Refuses (refusals
            (fold_made target.now combiner.now)) e) }
    {
        let method_type = fold_type(target, combiner)?;
        let root = Node::Fold {
            target: target.root_owner()?,
            combiner: combiner.root_owner()?,
        };
        let depth = 1 + target.depth().max(combiner.depth());
        let size = 1 + (target.size() + combiner.size());
        let bound = target.point_bound().max(combiner.point_bound());
        let sites = target.site_bound().max(combiner.site_bound());
        Handle::of(alloc, root, method_type, depth, size, bound, sites)
    }
}

// Returns the type of the target without the parameter that the combiner computes, if it may
// compute it.
fn fold_type(target: &Handle, combiner: &Handle) -> Result<MethodType, TreeFault>
    ensures value { MatchResult result (λ m. fold_made target.now combiner.now ≡ Ok
        (record { tree = fold_tree target.now.tree combiner.now.tree; signature = m }))
        (λ e. fold_made target.now combiner.now ≡ Err e) }
    ensures sound { IfOk result (λ m. IsSound (fold_tree target.now.tree combiner.now.tree) m) }
{
    let old = target.method_type();
    let first = combiner.method_type();
    if !old.begins_with(&[first.ret()]) {
        return Err(TreeFault::TypeMismatch);
    }
    let new_type = old.remove(0, 1);
    if !new_type.begins_with(first.parameters()) {
        return Err(TreeFault::TypeMismatch);
    }
    let depth = 1 + target.depth().max(combiner.depth());
    let size = 1 + (target.size() + combiner.size());
    within_limits(new_type, depth, size)
}
