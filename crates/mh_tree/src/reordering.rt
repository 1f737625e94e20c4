//! The constructor that reorders arguments.

ghost use Rattle.std.specs.Prelude.{◌≡◌, ◌<◌, ◌↔◌, Ok, Err, length, map, nat_lt, IfOk, IfErr, IsTrue, MatchResult};
ghost use Rattle.std.specs.List.{All, list_all};
ghost use Rattle.mh_base.specs.Tests.{Refuses};
ghost use Rattle.mh_tree.specs.Constructors.{refusals, permute_made};
ghost use Rattle.mh_tree.specs.Handle.{IsSound};
ghost use Rattle.mh_tree.specs.Tree.{permute as permute_tree};
ghost use Rattle.mh_tree.specs.Typing.{kind_at};

use crate::fault::TreeFault;
use crate::handle::Handle;
use crate::limits::within_limits;
use crate::node::Node;
use mh_type::{Kind, MethodType};
use std::alloc::Global;

impl Handle {
    /// Returns the target applied to reordered arguments (`MethodHandles.permuteArguments`).
    ///
    /// *Type*: the new type. It returns what the target returns, and its parameter `reorder[i]` is
    /// of the kind of the target's parameter i.
    ///
    /// *Pseudo-code*: `adapter(a..) = target(a[reorder[0]], a[reorder[1]], ..)`. An argument may be
    /// passed more than once, or not at all.
    ///
    /// *Example*: `imul` with the new type `(int)int` and the reordering 0, 0 returns `int 0` for
    /// `int 65536`, whose square wraps (JLS SE 17, 15.17.1).
    ///
    /// *Errors*: `BadReorder` if the reordering does not have exactly one entry for each parameter
    /// of the target, or names a parameter that the new type does not have; `TypeMismatch` if the
    /// return kinds differ, or the kinds of a parameter and of what is passed for it; `TooDeep`,
    /// `TooLarge`, and `NoMemory`.
    pub fn permute(
        alloc: Global,
        target: &Handle,
        new_type: &MethodType,
        reorder: &[usize],
    ) -> Result<Handle, TreeFault>
        ensures value { IfOk result (λ h. permute_made target.now new_type.now reorder.now ≡ Ok h) }
        ensures refused { IfErr result (λ e. Refuses (refusals
            (permute_made target.now new_type.now reorder.now)) e) }
    {
        let method_type = permute_type(target, new_type, reorder)?;
        let root = Node::Permute {
            target: target.root_owner()?,
            new_type: new_type.copy(),
            reorder: reorder.to_vec(alloc).map_err(|_| TreeFault::NoMemory)?,
        };
        let (depth, size) = (1 + target.depth(), 1 + target.size());
        Handle::of(
            alloc,
            root,
            method_type,
            depth,
            size,
            target.point_bound(),
            target.site_bound(),
        )
    }
}

// Returns the new type, if the target may be called on its arguments in this order.
fn permute_type(
    target: &Handle,
    new_type: &MethodType,
    reorder: &[usize],
) -> Result<MethodType, TreeFault>
    ensures value { MatchResult result (λ m. permute_made target.now new_type.now reorder.now ≡ Ok
        (record { tree = permute_tree target.now.tree new_type.now reorder.now; signature = m }))
        (λ e. permute_made target.now new_type.now reorder.now ≡ Err e) }
    ensures sound { IfOk result (λ m. IsSound (permute_tree target.now.tree new_type.now
        reorder.now) m) }
{
    let old = target.method_type();
    if reorder.len() != old.count() {
        return Err(TreeFault::BadReorder);
    }
    if !are_below(reorder, new_type.count()) {
        return Err(TreeFault::BadReorder);
    }
    if !old.ret().is(new_type.ret()) {
        return Err(TreeFault::TypeMismatch);
    }
    if !gives_kinds(new_type.parameters(), reorder, old.parameters()) {
        return Err(TreeFault::TypeMismatch);
    }
    within_limits(new_type.copy(), 1 + target.depth(), 1 + target.size())
}

// Returns whether each of the positions is below a count.
fn are_below(places: &[usize], count: usize) -> bool
    ensures value { result ≡ list_all (λ i. nat_lt i count) places.now }
{
    places.iter().all(|place| *place < count)
}

// Returns whether the kinds at these positions are the wanted ones, in order.
fn gives_kinds(kinds: &[Kind], places: &[usize], wanted: &[Kind]) -> bool
    requires as_many { length places.now ≡ length wanted.now }
    requires inside { All (λ i. i < length kinds.now) places.now }
    ensures same { IsTrue result ↔ (wanted.now ≡ map (λ i. kind_at kinds.now i) places.now) }
{
    for (index, place) in places.iter().enumerate() {
        if kinds[*place] != wanted[index] {
            return false;
        }
    }
    true
}
