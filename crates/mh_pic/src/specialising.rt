//! Specialising trees for needs and a key.

ghost use Rattle.std.specs.Prelude.{◌≡◌, ◌<◌, List, length, nat_lt, take, unwrap_or, IfOk};
ghost use Rattle.std.specs.List.{list_any};
ghost use Rattle.std.specs.Arc.{arc_value};
ghost use Rattle.mh_tree.specs.Handle.{IsSound};
ghost use Rattle.mh_tree.specs.Tree.{guard as guard_tree};
ghost use Rattle.mh_tree.specs.TreeOf.{tree_of};
ghost use Rattle.mh_pic.specs.Specialised.{specialised, Serves};
ghost use Rattle.mh_pic.specs.Outcomes.{made_or};
ghost use Rattle.mh_type.specs.declared.kind.Kind.{Kind as KindData};
ghost use Rattle.mh_type.specs.declared.value.Value.{Value as ValueData};

use crate::keys::{decide_by_key, key_in};
use crate::rebuilding::{guard, owner, point};
use crate::stripping::strip;
use mh_base::NoMemory;
use mh_tree::{Handle, Node};
use mh_type::{Kind, Value};
use std::alloc::Global;
use std::sync::Arc;

/// Returns the tree of a site's handle specialised for the assumptions that the points in `needs`
/// are valid and that the argument at the key position equals `key`. It has the handle's type and
/// names no need. If both assumptions hold, it returns what the handle returns, in at most as many
/// steps. The result shares the parts that do not change. It takes time linear in the size, times
/// the number of needs at each point; if no need is below `Handle::point_bound`, it takes the time
/// of the guards and points through which a key is looked for.
pub fn specialise(
    alloc: Global,
    handle: &Handle,
    needs: &[u32],
    key_place: usize,
    key: &Value,
) -> Result<Handle, NoMemory>
    requires inside { key_place < length handle.now.signature.parameters }
    ensures value { IfOk result (λ h. h ≡ record {
      tree = specialised needs.now
          (take key_place handle.now.signature.parameters) key.now handle.now.tree;
      signature
          = handle.now.signature;
    }) }
    ensures serves { IfOk result (λ h. Serves needs.now key_place key.now h.tree handle.now.tree
        handle.now.signature) }
{
    match specialise_changed(alloc, handle, needs, key_place, key)? {
        Some(made) => Ok(made),
        None => handle.share(),
    }
}

// Returns the result of `specialise`, or `None` if it is the handle itself.
pub(crate) fn specialise_changed(
    alloc: Global,
    handle: &Handle,
    needs: &[u32],
    key_place: usize,
    key: &Value,
) -> Result<Option<Handle>, NoMemory>
    requires inside { key_place < length handle.now.signature.parameters }
    ensures value { IfOk result (λ o. unwrap_or o handle.now ≡ record {
      tree = specialised needs.now
          (take key_place handle.now.signature.parameters) key.now handle.now.tree;
      signature
          = handle.now.signature;
    }) }
    ensures serves { IfOk result (λ o. Serves needs.now key_place key.now
        (unwrap_or o handle.now).tree handle.now.tree handle.now.signature) }
{
    let before = &handle.method_type().parameters()[..key_place];
    let named = named(handle, needs);
    let made = specialise_node(alloc, handle.root(), named, before, key);
    match made? {
        Some(root) => Ok(Some(rebuild(alloc, handle, root)?)),
        None => Ok(None),
    }
}

// Returns the needs, or the empty list if each need is greater than all points that the handle
// names.
fn named<'a>(handle: &Handle, needs: &'a [u32]) -> &'a [u32]
    ensures value { (kinds : List KindData) → (key : ValueData)
        → specialised result.now kinds key handle.now.tree
        ≡ specialised needs.now kinds key handle.now.tree }
{
    if has_below(needs, handle.point_bound()) {
        return needs;
    }
    &[]
}

// Returns whether some point is below a bound.
fn has_below(points: &[u32], bound: usize) -> bool
    ensures value { result ≡ list_any (λ p. nat_lt p bound) points.now }
{
    points.iter().any(|point| (*point as usize) < bound)
}

// Returns the new tree as a handle of the old one's type.
pub(crate) fn rebuild(alloc: Global, old: &Handle, root: Arc<Node>) -> Result<Handle, NoMemory>
    requires sound { IsSound (tree_of (arc_value root)) old.now.signature }
    ensures value { IfOk result (λ h. h ≡ record {
      tree = tree_of (arc_value root);
      signature
          = old.now.signature;
    }) }
{
    Handle::from_root(alloc, root, old.method_type())
}

// Returns the tree specialised for needs that are valid and a key that the argument after these
// kinds equals. Returns `None` if the tree is the same, so that a caller keeps the old one. The
// result shares the parts that do not change.
#[cycle(specialises)]
fn specialise_node(
    alloc: Global,
    node: &Node,
    needs: &[u32],
    before: &[Kind],
    key: &Value,
) -> Result<Option<Arc<Node>>, NoMemory>
    ensures value { IfOk result (λ o. made_or o (tree_of node.now)
        ≡ specialised needs.now before.now key.now (tree_of node.now)) }
{
    match node {
        Node::Guard {
            test,
            target,
            fallback,
        } => specialise_guard(alloc, test, target, fallback, needs, before, key),
        Node::Point {
            point: place,
            target,
            fallback,
        } => {
            let made = specialise_node(alloc, target, needs, before, key)?;
            if needs.contains(place) {
                return Ok(Some(owner(made, target)?));
            }
            let other = specialise_node(alloc, fallback, needs, before, key)?;
            point(alloc, *place, made, target, other, fallback)
        }
        Node::Constant(_)
        | Node::Identity(_)
        | Node::Operation(_)
        | Node::Insert { .. }
        | Node::Drop { .. }
        | Node::Permute { .. }
        | Node::Filter { .. }
        | Node::FilterReturn { .. }
        | Node::Fold { .. }
        | Node::Invoke { .. } => strip(alloc, node, needs),
    }
}

// Returns the guard of these parts, specialised for the needs and the key.
#[cycle(specialises)]
fn specialise_guard(
    alloc: Global,
    test: &Arc<Node>,
    target: &Arc<Node>,
    fallback: &Arc<Node>,
    needs: &[u32],
    before: &[Kind],
    key: &Value,
) -> Result<Option<Arc<Node>>, NoMemory>
    ensures value { IfOk result (λ o. made_or o (guard_tree (tree_of (arc_value test.now))
        (tree_of (arc_value target.now)) (tree_of (arc_value fallback.now)))
        ≡ specialised needs.now before.now key.now
        (guard_tree (tree_of (arc_value test.now)) (tree_of (arc_value target.now))
        (tree_of (arc_value fallback.now)))) }
{
    match decide_by_key(key, key_in(test, before)) {
        Some(true) => {
            let made = specialise_node(alloc, target, needs, before, key)?;
            Ok(Some(owner(made, target)?))
        }
        Some(false) => {
            let other = specialise_node(alloc, fallback, needs, before, key)?;
            Ok(Some(owner(other, fallback)?))
        }
        None => {
            let asked = strip(alloc, test, needs)?;
            let made = specialise_node(alloc, target, needs, before, key)?;
            let other = specialise_node(alloc, fallback, needs, before, key)?;
            guard(alloc, asked, test, made, target, other, fallback)
        }
    }
}
