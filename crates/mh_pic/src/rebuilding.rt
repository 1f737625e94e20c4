//! Nodes over parts of which some are new: a part is `None` if the old one is kept.

ghost use Rattle.std.specs.Prelude.{◌≡◌, ◌||◌, true, IfOk};
ghost use Rattle.std.specs.Option.{is_some};
ghost use Rattle.std.specs.Arc.{arc_value};
ghost use Rattle.mh_tree.specs.Tree.{Tree, insert as insert_tree, discard as drop_tree, permute as permute_tree, filter as filter_tree, filters_of, filter_return as filter_return_tree, fold as fold_tree, guard as guard_tree, point as point_tree};
ghost use Rattle.mh_tree.specs.TreeOf.{tree_of, filter_trees};
ghost use Rattle.mh_pic.specs.Outcomes.{made_or};

use mh_base::NoMemory;
use mh_tree::Node;
use mh_type::{Kind, MethodType, Value, copy_values};
use std::alloc::Global;
use std::sync::Arc;

// Returns the new part, or another owner of the old one.
pub(crate) fn owner(made: Option<Arc<Node>>, old: &Arc<Node>) -> Result<Arc<Node>, NoMemory>
    ensures value { IfOk result (λ a. tree_of (arc_value a) ≡ made_or made
        (tree_of (arc_value old.now))) }
{
    match made {
        Some(node) => Ok(node),
        None => Arc::try_clone(old).map_err(|_| NoMemory),
    }
}

// Returns a new node.
pub(crate) fn root(alloc: Global, node: Node) -> Result<Option<Arc<Node>>, NoMemory>
    ensures value { IfOk result (λ o. (t : _) → made_or o t ≡ tree_of node) }
    ensures made { IfOk result (λ o. is_some o ≡ true) }
{
    let node = Arc::new(alloc, node).map_err(|_| NoMemory)?;
    Ok(Some(node))
}

// Returns `MethodHandles.insertArguments` over a target.
pub(crate) fn insert(
    alloc: Global,
    target: Option<Arc<Node>>,
    position: usize,
    values: &[Value],
) -> Result<Option<Arc<Node>>, NoMemory>
    ensures value { IfOk result (λ o. (t : Tree) → made_or o (insert_tree t position values.now)
        ≡ insert_tree (made_or target t) position values.now) }
    ensures made { IfOk result (λ o. is_some o ≡ is_some target) }
{
    let Some(target) = target else {
        return Ok(None);
    };
    let values = copy_values(alloc, values).map_err(|_| NoMemory)?;
    root(
        alloc,
        Node::Insert {
            target,
            position,
            values,
        },
    )
}

// Returns `MethodHandles.dropArguments` over a target.
pub(crate) fn discard(
    alloc: Global,
    target: Option<Arc<Node>>,
    position: usize,
    kinds: &[Kind],
) -> Result<Option<Arc<Node>>, NoMemory>
    ensures value { IfOk result (λ o. (t : Tree) → made_or o (drop_tree t position kinds.now)
        ≡ drop_tree (made_or target t) position kinds.now) }
    ensures made { IfOk result (λ o. is_some o ≡ is_some target) }
{
    let Some(target) = target else {
        return Ok(None);
    };
    let kinds = kinds.to_vec(alloc).map_err(|_| NoMemory)?;
    root(
        alloc,
        Node::Drop {
            target,
            position,
            kinds,
        },
    )
}

// Returns `MethodHandles.permuteArguments` over a target.
pub(crate) fn permute(
    alloc: Global,
    target: Option<Arc<Node>>,
    new_type: &MethodType,
    reorder: &[usize],
) -> Result<Option<Arc<Node>>, NoMemory>
    ensures value { IfOk result (λ o. (t : Tree) → made_or o
        (permute_tree t new_type.now reorder.now) ≡ permute_tree
        (made_or target t) new_type.now reorder.now) }
    ensures made { IfOk result (λ o. is_some o ≡ is_some target) }
{
    let Some(target) = target else {
        return Ok(None);
    };
    let reorder = reorder.to_vec(alloc).map_err(|_| NoMemory)?;
    let new_type = new_type.copy();
    root(
        alloc,
        Node::Permute {
            target,
            new_type,
            reorder,
        },
    )
}

/// Filters that were visited one by one, and whether one of them was replaced.
#[derive(Drop)]
pub(crate) struct FilterList {
    pub(crate) filters: Vec<Option<Arc<Node>>>,
    pub(crate) changed: bool,
}

// Returns `MethodHandles.filterArguments` over a target and filters that were visited one by one.
pub(crate) fn filter(
    alloc: Global,
    made: Option<Arc<Node>>,
    target: &Arc<Node>,
    position: usize,
    list: FilterList,
) -> Result<Option<Arc<Node>>, NoMemory>
    ensures value { IfOk result (λ o. is_some o ≡ true → (t : Tree) → made_or o t ≡ filter_tree
        (made_or made (tree_of (arc_value target.now))) position
        (filters_of (filter_trees list.filters.items))) }
    ensures made { IfOk result (λ o. is_some o ≡ (is_some made || list.changed)) }
{
    if made.is_none() && !list.changed {
        return Ok(None);
    }
    let target = owner(made, target)?;
    root(
        alloc,
        Node::Filter {
            target,
            position,
            filters: list.filters,
        },
    )
}

// Returns `MethodHandles.filterReturnValue` over a target and a filter.
pub(crate) fn filter_return(
    alloc: Global,
    made: Option<Arc<Node>>,
    target: &Arc<Node>,
    other: Option<Arc<Node>>,
    filter: &Arc<Node>,
) -> Result<Option<Arc<Node>>, NoMemory>
    ensures value { IfOk result (λ o. made_or o (filter_return_tree (tree_of (arc_value target.now))
        (tree_of (arc_value filter.now))) ≡ filter_return_tree
        (made_or made (tree_of (arc_value target.now)))
        (made_or other (tree_of (arc_value filter.now)))) }
    ensures made { IfOk result (λ o. is_some o ≡ (is_some made || is_some other)) }
{
    match (made, other) {
        (None, None) => Ok(None),
        (made, other) => {
            let target = owner(made, target)?;
            let filter = owner(other, filter)?;
            root(alloc, Node::FilterReturn { target, filter })
        }
    }
}

// Returns `MethodHandles.foldArguments` over a target and a combiner.
pub(crate) fn fold(
    alloc: Global,
    made: Option<Arc<Node>>,
    target: &Arc<Node>,
    other: Option<Arc<Node>>,
    combiner: &Arc<Node>,
) -> Result<Option<Arc<Node>>, NoMemory>
    ensures value { IfOk result (λ o. made_or o (fold_tree (tree_of (arc_value target.now))
        (tree_of (arc_value combiner.now))) ≡ fold_tree
        (made_or made (tree_of (arc_value target.now)))
        (made_or other (tree_of (arc_value combiner.now)))) }
    ensures made { IfOk result (λ o. is_some o ≡ (is_some made || is_some other)) }
{
    match (made, other) {
        (None, None) => Ok(None),
        (made, other) => {
            let target = owner(made, target)?;
            let combiner = owner(other, combiner)?;
            root(alloc, Node::Fold { target, combiner })
        }
    }
}

// Returns `SwitchPoint.guardWithTest` over a target and a fallback.
pub(crate) fn point(
    alloc: Global,
    point: u32,
    made: Option<Arc<Node>>,
    target: &Arc<Node>,
    other: Option<Arc<Node>>,
    fallback: &Arc<Node>,
) -> Result<Option<Arc<Node>>, NoMemory>
    ensures value { IfOk result (λ o. made_or o (point_tree point (tree_of (arc_value target.now))
        (tree_of (arc_value fallback.now))) ≡ point_tree point
        (made_or made (tree_of (arc_value target.now)))
        (made_or other (tree_of (arc_value fallback.now)))) }
    ensures made { IfOk result (λ o. is_some o ≡ (is_some made || is_some other)) }
{
    match (made, other) {
        (None, None) => Ok(None),
        (made, other) => {
            let target = owner(made, target)?;
            let fallback = owner(other, fallback)?;
            root(
                alloc,
                Node::Point {
                    point,
                    target,
                    fallback,
                },
            )
        }
    }
}

// Returns `MethodHandles.guardWithTest` over a test, a target and a fallback.
pub(crate) fn guard(
    alloc: Global,
    asked: Option<Arc<Node>>,
    test: &Arc<Node>,
    made: Option<Arc<Node>>,
    target: &Arc<Node>,
    other: Option<Arc<Node>>,
    fallback: &Arc<Node>,
) -> Result<Option<Arc<Node>>, NoMemory>
    ensures value { IfOk result (λ o. made_or o (guard_tree (tree_of (arc_value test.now))
        (tree_of (arc_value target.now)) (tree_of (arc_value fallback.now))) ≡ guard_tree
        (made_or asked (tree_of (arc_value test.now)))
        (made_or made (tree_of (arc_value target.now)))
        (made_or other (tree_of (arc_value fallback.now)))) }
    ensures made { IfOk result (λ o. is_some o ≡ (is_some asked || (is_some made || is_some other))) }
{
    match (asked, made, other) {
        (None, None, None) => Ok(None),
        (asked, made, other) => {
            let test = owner(asked, test)?;
            let target = owner(made, target)?;
            let fallback = owner(other, fallback)?;
            root(
                alloc,
                Node::Guard {
                    test,
                    target,
                    fallback,
                },
            )
        }
    }
}
