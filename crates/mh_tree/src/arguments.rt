//! The constructors that change which arguments a target is passed.

ghost use Rattle.std.specs.Prelude.{◌≡◌, ◌↔◌, Ok, Err, map, length, IfOk, IfErr, IsTrue, MatchResult};
ghost use Rattle.mh_type.specs.Kinds.{kind_of};
ghost use Rattle.mh_base.specs.Tests.{Refuses};
ghost use Rattle.mh_tree.specs.Constructors.{refusals, insert_made, drop_made};
ghost use Rattle.mh_tree.specs.Handle.{IsSound};
ghost use Rattle.mh_tree.specs.Tree.{insert as insert_tree, discard};

use crate::fault::TreeFault;
use crate::handle::Handle;
use crate::limits::within_limits;
use crate::node::Node;
use mh_type::{Kind, MethodType, Value, copy_values, have_kinds};
use std::alloc::Global;

impl Handle {
    /// Returns the target with values in place of its parameters from `position` on
    /// (`MethodHandles.insertArguments`).
    ///
    /// *Type*: that of the target, without as many parameters from `position` on as there are
    /// values.
    ///
    /// *Pseudo-code*: `adapter(a.., b..) = target(a.., values.., b..)`, with `position` arguments
    /// `a`.
    ///
    /// *Example*: `iadd` with `int 1` at position 1 is of type `(int)int` and returns `int 3` for
    /// `int 2`. The list of values may be empty: the handle is then the target in one more node.
    ///
    /// *Errors*: `BadPosition` if `position + values.len()`, as an unbounded number, exceeds the
    /// target's number of parameters; `TypeMismatch` if a value is not of its parameter's kind;
    /// `TooDeep`, `TooLarge`, and `NoMemory`.
    pub fn insert(
        alloc: Global,
        target: &Handle,
        position: usize,
        values: &[Value],
    ) -> Result<Handle, TreeFault>
        ensures value { IfOk result (λ h. insert_made target.now position values.now ≡ Ok h) }
        ensures refused { IfErr result (λ e. Refuses (refusals
            (insert_made target.now position values.now)) e) }
    {
        let method_type = insert_type(target, position, values)?;
        let root = Node::Insert {
            target: target.root_owner()?,
            position,
            values: copy_values(alloc, values).map_err(|_| TreeFault::NoMemory)?,
        };
        let (depth, size) = (1 + target.depth(), 1 + target.size());
        Handle::of(
            alloc,
            root,
            method_type,
            depth,
            size,
            target.point_bound(),
            target.site_bound(),
        )
    }

    /// Returns the target with additional parameters, whose arguments are discarded
    /// (`MethodHandles.dropArguments`).
    ///
    /// *Type*: that of the target, with parameters of these kinds inserted at `position`.
    ///
    /// *Pseudo-code*: `adapter(a.., discarded.., b..) = target(a.., b..)`, with `position`
    /// arguments `a`.
    ///
    /// *Example*: the constant `int 7` with a discarded `int` is of type `(int)int` and returns
    /// `int 7` for `int 0`. The list of kinds may be empty: the handle is then the target in one
    /// more node.
    ///
    /// *Errors*: `BadPosition` if `position` exceeds the target's number of parameters;
    /// `TooManyParameters` if there would be more than 16; `TooDeep`, `TooLarge`, and `NoMemory`.
    pub fn drop(
        alloc: Global,
        target: &Handle,
        position: usize,
        kinds: &[Kind],
    ) -> Result<Handle, TreeFault>
        ensures value { IfOk result (λ h. drop_made target.now position kinds.now ≡ Ok h) }
        ensures refused { IfErr result (λ e. Refuses (refusals
            (drop_made target.now position kinds.now)) e) }
    {
        let method_type = drop_type(target, position, kinds)?;
        let root = Node::Drop {
            target: target.root_owner()?,
            position,
            kinds: kinds.to_vec(alloc).map_err(|_| TreeFault::NoMemory)?,
        };
        let (depth, size) = (1 + target.depth(), 1 + target.size());
        Handle::of(
            alloc,
            root,
            method_type,
            depth,
            size,
            target.point_bound(),
            target.site_bound(),
        )
    }
}

// Returns the type of the target with these values inserted, if they may be.
fn insert_type(target: &Handle, position: usize, values: &[Value]) -> Result<MethodType, TreeFault>
    ensures value { MatchResult result (λ m. insert_made target.now position values.now ≡ Ok
        (record { tree = insert_tree target.now.tree position values.now; signature = m }))
        (λ e. insert_made target.now position values.now ≡ Err e) }
    ensures sound { IfOk result (λ m. IsSound (insert_tree target.now.tree position values.now) m) }
{
    let old = target.method_type();
    let parameters = old.parameters();
    if values.len() > parameters.len() || position > parameters.len() - values.len() {
        return Err(TreeFault::BadPosition);
    }
    if !have_kinds(values, &parameters[position..position + values.len()]) {
        return Err(TreeFault::TypeMismatch);
    }
    let new_type = old.remove(position, values.len());
    within_limits(new_type, 1 + target.depth(), 1 + target.size())
}

// Returns the type of the target with parameters of these kinds inserted, if they may be.
fn drop_type(target: &Handle, position: usize, kinds: &[Kind]) -> Result<MethodType, TreeFault>
    ensures value { MatchResult result (λ m. drop_made target.now position kinds.now ≡ Ok
        (record { tree = discard target.now.tree position kinds.now; signature = m }))
        (λ e. drop_made target.now position kinds.now ≡ Err e) }
    ensures sound { IfOk result (λ m. IsSound (discard target.now.tree position kinds.now) m) }
{
    let old = target.method_type();
    if position > old.count() {
        return Err(TreeFault::BadPosition);
    }
    let Ok(new_type) = old.insert(position, kinds) else {
        return Err(TreeFault::TooManyParameters);
    };
    within_limits(new_type, 1 + target.depth(), 1 + target.size())
}
