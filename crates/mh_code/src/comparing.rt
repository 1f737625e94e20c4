//! Comparing two handles by the nodes of their trees.

ghost use Rattle.std.specs.Prelude.{◌≡◌, IsTrue};
ghost use Rattle.mh_tree.specs.TreeOf.{tree_of, filter_trees};

use mh_tree::{Handle, Node};
use mh_type::{Value, same_kinds, same_value};
use std::sync::Arc;

// Returns whether two handles have equal trees and types. Linear in the size of the tree.
pub(crate) fn same_handle(one: &Handle, other: &Handle) -> bool
    ensures same { IsTrue result → one.now ≡ other.now }
{
    one.method_type().equals(other.method_type()) && same_tree(one.root(), other.root())
}

// Returns whether two nodes have equal trees. Linear in the size of the tree.
#[cycle(same)]
fn same_tree(one: &Node, other: &Node) -> bool
    ensures same { IsTrue result → tree_of one.now ≡ tree_of other.now }
{
    match one {
        Node::Constant(_) | Node::Identity(_) | Node::Operation(_) | Node::Invoke { .. } =>
            same_leaf(one, other),
        Node::Insert { .. } | Node::Drop { .. } | Node::Permute { .. } => same_moved(one, other),
        Node::Filter { .. } | Node::FilterReturn { .. } | Node::Fold { .. } => {
            same_composed(one, other)
        }
        Node::Guard { .. } | Node::Point { .. } => same_chosen(one, other),
    }
}

// Returns whether two nodes have equal trees, given that the first is a leaf.
fn same_leaf(one: &Node, other: &Node) -> bool
    ensures same { IsTrue result → tree_of one.now ≡ tree_of other.now }
{
    match (one, other) {
        (Node::Constant(value), Node::Constant(another)) => same_value(value, another),
        (Node::Identity(kind), Node::Identity(another)) => kind.is(*another),
        (Node::Operation(op), Node::Operation(another)) => *op == *another,
        (
            Node::Invoke { site, method_type },
            Node::Invoke {
                site: another,
                method_type: other_type,
            },
        ) => *site == *another && method_type.equals(other_type),
        _ => false,
    }
}

// Returns whether two nodes have equal trees, given that the first is a combinator that moves
// arguments.
#[cycle(same)]
fn same_moved(one: &Node, other: &Node) -> bool
    ensures same { IsTrue result → tree_of one.now ≡ tree_of other.now }
{
    match (one, other) {
        (
            Node::Insert {
                target,
                position,
                values,
            },
            Node::Insert {
                target: inner,
                position: place,
                values: others,
            },
        ) => *position == *place && same_values(values, others) && same_tree(target, inner),
        (
            Node::Drop {
                target,
                position,
                kinds,
            },
            Node::Drop {
                target: inner,
                position: place,
                kinds: others,
            },
        ) => *position == *place && same_kinds(kinds, others) && same_tree(target, inner),
        (
            Node::Permute {
                target,
                new_type,
                reorder,
            },
            Node::Permute {
                target: inner,
                new_type: other_type,
                reorder: others,
            },
        ) => {
            new_type.equals(other_type) && same_places(reorder, others) && same_tree(target, inner)
        }
        _ => false,
    }
}

// Returns whether two nodes have equal trees, given that the first is a combinator that joins
// trees.
#[cycle(same)]
fn same_composed(one: &Node, other: &Node) -> bool
    ensures same { IsTrue result → tree_of one.now ≡ tree_of other.now }
{
    match (one, other) {
        (
            Node::Filter {
                target,
                position,
                filters,
            },
            Node::Filter {
                target: inner,
                position: place,
                filters: others,
            },
        ) => *position == *place && same_filters(filters, others) && same_tree(target, inner),
        (
            Node::FilterReturn { target, filter },
            Node::FilterReturn {
                target: inner,
                filter: last,
            },
        ) => same_tree(target, inner) && same_tree(filter, last),
        (
            Node::Fold { target, combiner },
            Node::Fold {
                target: inner,
                combiner: first,
            },
        ) => same_tree(target, inner) && same_tree(combiner, first),
        _ => false,
    }
}

// Returns whether two nodes have equal trees, given that the first is a combinator that chooses a
// tree.
#[cycle(same)]
fn same_chosen(one: &Node, other: &Node) -> bool
    ensures same { IsTrue result → tree_of one.now ≡ tree_of other.now }
{
    match (one, other) {
        (
            Node::Guard {
                test,
                target,
                fallback,
            },
            Node::Guard {
                test: condition,
                target: inner,
                fallback: last,
            },
        ) => { same_tree(test, condition) && same_tree(target, inner) && same_tree(fallback, last) }
        (
            Node::Point {
                point,
                target,
                fallback,
            },
            Node::Point {
                point: number,
                target: inner,
                fallback: last,
            },
        ) => *point == *number && same_tree(target, inner) && same_tree(fallback, last),
        _ => false,
    }
}

// Returns whether two lists of filters have equal trees in the same places.
#[cycle(same)]
fn same_filters(some: &[Option<Arc<Node>>], others: &[Option<Arc<Node>>]) -> bool
    ensures same { IsTrue result → filter_trees some.now ≡ filter_trees others.now }
{
    let Some((filter, rest)) = some.split_first() else {
        return others.is_empty();
    };
    let Some((other, left)) = others.split_first() else {
        return false;
    };
    match (filter, other) {
        (Some(filter), Some(other)) => same_tree(filter, other) && same_filters(rest, left),
        (None, None) => same_filters(rest, left),
        _ => false,
    }
}

// Returns whether two lists of values are equal.
fn same_values(some: &[Value], others: &[Value]) -> bool
    ensures same { IsTrue result → some.now ≡ others.now }
{
    if some.len() != others.len() {
        return false;
    }
    for (index, value) in some.iter().enumerate() {
        if !same_value(value, &others[index]) {
            return false;
        }
    }
    true
}

// Returns whether two lists of places are equal.
fn same_places(some: &[usize], others: &[usize]) -> bool
    ensures same { IsTrue result → some.now ≡ others.now }
{
    some == others
}
