//! Trees in which some points are decided to be valid or invalid.

ghost use Rattle.std.specs.Prelude.{◌≡◌, IfOk};
ghost use Rattle.std.specs.Option.{is_some};
ghost use Rattle.std.specs.Arc.{arc_value};
ghost use Rattle.mh_tree.specs.TreeOf.{tree_of, filter_trees};
ghost use Rattle.mh_tree.specs.Tree.{filters_of, filter as filter_tree, filter_return as filter_return_tree, fold as fold_tree, guard as guard_tree, point as point_tree};
ghost use Rattle.mh_pic.specs.Specialised.{any_names, names, resolved, resolved_filters};
ghost use Rattle.mh_pic.specs.Outcomes.{made_or};

use crate::rebuilding::{
    FilterList, discard, filter, filter_return, fold, guard, insert, owner, permute, point,
};
use mh_base::NoMemory;
use mh_tree::Node;
use std::alloc::Global;
use std::sync::Arc;

// Returns the tree in which these points are taken as valid, so that each is replaced by its
// target, or as invalid, so that each is replaced by its fallback. Returns `None` if and only if
// the tree names none of them, so that a caller keeps the old part. The result shares the parts
// that do not change. It takes time linear in the size, times the number of points at each node of
// a point, and no time without points. Fails only with `NoMemory`.
#[cycle(resolves)]
pub(crate) fn resolve(
    alloc: Global,
    node: &Node,
    points: &[u32],
    valid: bool,
) -> Result<Option<Arc<Node>>, NoMemory>
    ensures value { IfOk result (λ o. made_or o (tree_of node.now) ≡ resolved valid points.now
        (tree_of node.now)) }
    ensures made { IfOk result (λ o. is_some o ≡ names points.now (tree_of node.now)) }
{
    if points.is_empty() {
        return Ok(None);
    }
    match node {
        Node::Constant(_) | Node::Identity(_) | Node::Operation(_) | Node::Invoke { .. } => Ok(
            None,
        ),
        Node::Insert {
            target,
            position,
            values,
        } => insert(
            alloc,
            resolve(alloc, target, points, valid)?,
            *position,
            values,
        ),
        Node::Drop {
            target,
            position,
            kinds,
        } => discard(
            alloc,
            resolve(alloc, target, points, valid)?,
            *position,
            kinds,
        ),
        Node::Permute {
            target,
            new_type,
            reorder,
        } => permute(
            alloc,
            resolve(alloc, target, points, valid)?,
            new_type,
            reorder,
        ),
        Node::Filter {
            target,
            position,
            filters,
        } => resolve_filter(alloc, target, *position, filters, points, valid),
        Node::FilterReturn { target, filter } => resolve_filter_return(
            alloc, target, filter, points, valid,
        ),
        Node::Fold { target, combiner } => resolve_fold(alloc, target, combiner, points, valid),
        Node::Guard {
            test,
            target,
            fallback,
        } => resolve_guard(alloc, test, target, fallback, points, valid),
        Node::Point {
            point,
            target,
            fallback,
        } => resolve_point(alloc, *point, target, fallback, points, valid),
    }
}

// Returns the filter of these parts, in which the points are decided.
#[cycle(resolves)]
fn resolve_filter(
    alloc: Global,
    target: &Arc<Node>,
    position: usize,
    filters: &[Option<Arc<Node>>],
    points: &[u32],
    valid: bool,
) -> Result<Option<Arc<Node>>, NoMemory>
    ensures value { let t = filter_tree (tree_of (arc_value target.now)) position
        (filters_of (filter_trees filters.now)) in
        IfOk result (λ o. made_or o t ≡ resolved valid points.now t) }
    ensures made { let t = filter_tree (tree_of (arc_value target.now)) position
        (filters_of (filter_trees filters.now)) in
        IfOk result (λ o. is_some o ≡ names points.now t) }
{
    let made = resolve(alloc, target, points, valid)?;
    let list = resolve_filters(alloc, filters, points, valid)?;
    filter(alloc, made, target, position, list)
}

// Returns the filter of the result of these parts, in which the points are decided.
#[cycle(resolves)]
fn resolve_filter_return(
    alloc: Global,
    target: &Arc<Node>,
    filter: &Arc<Node>,
    points: &[u32],
    valid: bool,
) -> Result<Option<Arc<Node>>, NoMemory>
    ensures value { let t = filter_return_tree
        (tree_of (arc_value target.now)) (tree_of (arc_value filter.now)) in
        IfOk result (λ o. made_or o t ≡ resolved valid points.now t) }
    ensures made { let t = filter_return_tree
        (tree_of (arc_value target.now)) (tree_of (arc_value filter.now)) in
        IfOk result (λ o. is_some o ≡ names points.now t) }
{
    let made = resolve(alloc, target, points, valid)?;
    let last = resolve(alloc, filter, points, valid)?;
    filter_return(alloc, made, target, last, filter)
}

// Returns the fold of these parts, in which the points are decided.
#[cycle(resolves)]
fn resolve_fold(
    alloc: Global,
    target: &Arc<Node>,
    combiner: &Arc<Node>,
    points: &[u32],
    valid: bool,
) -> Result<Option<Arc<Node>>, NoMemory>
    ensures value { let t = fold_tree
        (tree_of (arc_value target.now)) (tree_of (arc_value combiner.now)) in
        IfOk result (λ o. made_or o t ≡ resolved valid points.now t) }
    ensures made { let t = fold_tree
        (tree_of (arc_value target.now)) (tree_of (arc_value combiner.now)) in
        IfOk result (λ o. is_some o ≡ names points.now t) }
{
    let made = resolve(alloc, target, points, valid)?;
    let first = resolve(alloc, combiner, points, valid)?;
    fold(alloc, made, target, first, combiner)
}

// Returns the guard of these parts, in which the points are decided.
#[cycle(resolves)]
fn resolve_guard(
    alloc: Global,
    test: &Arc<Node>,
    target: &Arc<Node>,
    fallback: &Arc<Node>,
    points: &[u32],
    valid: bool,
) -> Result<Option<Arc<Node>>, NoMemory>
    ensures value { let t = guard_tree (tree_of (arc_value test.now))
        (tree_of (arc_value target.now)) (tree_of (arc_value fallback.now)) in
        IfOk result (λ o. made_or o t ≡ resolved valid points.now t) }
    ensures made { let t = guard_tree (tree_of (arc_value test.now))
        (tree_of (arc_value target.now)) (tree_of (arc_value fallback.now)) in
        IfOk result (λ o. is_some o ≡ names points.now t) }
{
    let asked = resolve(alloc, test, points, valid)?;
    let made = resolve(alloc, target, points, valid)?;
    let other = resolve(alloc, fallback, points, valid)?;
    guard(alloc, asked, test, made, target, other, fallback)
}

// Returns the switch of these parts by a point, in which the points are decided: if it is one of
// them, only its target or its fallback.
#[cycle(resolves)]
fn resolve_point(
    alloc: Global,
    place: u32,
    target: &Arc<Node>,
    fallback: &Arc<Node>,
    points: &[u32],
    valid: bool,
) -> Result<Option<Arc<Node>>, NoMemory>
    ensures value { let t = point_tree place
        (tree_of (arc_value target.now)) (tree_of (arc_value fallback.now)) in
        IfOk result (λ o. made_or o t ≡ resolved valid points.now t) }
    ensures made { let t = point_tree place
        (tree_of (arc_value target.now)) (tree_of (arc_value fallback.now)) in
        IfOk result (λ o. is_some o ≡ names points.now t) }
{
    if !points.contains(&place) {
        let made = resolve(alloc, target, points, valid)?;
        let other = resolve(alloc, fallback, points, valid)?;
        return point(alloc, place, made, target, other, fallback);
    }
    if valid {
        let made = resolve(alloc, target, points, valid)?;
        return Ok(Some(owner(made, target)?));
    }
    let made = resolve(alloc, fallback, points, valid)?;
    Ok(Some(owner(made, fallback)?))
}

// Returns the filters, in each of which the points are decided.
#[cycle(resolves)]
fn resolve_filters(
    alloc: Global,
    filters: &[Option<Arc<Node>>],
    points: &[u32],
    valid: bool,
) -> Result<FilterList, NoMemory>
    ensures value { IfOk result (λ v. filters_of (filter_trees v.filters.items)
        ≡ resolved_filters valid points.now (filters_of (filter_trees filters.now))) }
    ensures made { IfOk result (λ v. v.changed ≡ any_names points.now
        (filters_of (filter_trees filters.now))) }
{
    let mut resolved = Vec::new(alloc);
    let mut changed = false;
    for filter in filters {
        let filter = match filter {
            None => None,
            Some(filter) => {
                let made = resolve(alloc, filter, points, valid)?;
                changed = changed || made.is_some();
                Some(owner(made, filter)?)
            }
        };
        resolved.push(filter).map_err(|_| NoMemory)?;
    }
    Ok(FilterList {
        filters: resolved,
        changed,
    })
}
