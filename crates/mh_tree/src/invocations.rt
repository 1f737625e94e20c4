//! Tests of the invocations of a tree.

ghost use Rattle.std.specs.Prelude.{◌≡◌, ℕ, Bool};
ghost use Rattle.mh_type.specs.Signature.{Signature};
ghost use Rattle.mh_tree.specs.Invocations.{each_invoke, each_invokes};
ghost use Rattle.mh_tree.specs.Tree.{filters_of};
ghost use Rattle.mh_tree.specs.TreeOf.{tree_of, filter_trees};

use crate::node::Node;
use mh_type::MethodType;
use std::sync::Arc;

/// A test of invocations.
pub trait InvocationTest {
    ghost holds: { Self → ℕ → Signature → Bool };

    /// Returns whether this site may be invoked with this type.
    fn passes(&self, site: u32, method_type: &MethodType) -> bool
        ensures value { result ≡ holds self.now site method_type.now };
}

/// Returns whether each invocation in the tree passes a test. Linear in the size of the tree,
/// besides the tests.
#[cycle(invocations)]
pub fn each_invocation<T: InvocationTest>(test: &T, node: &Node) -> bool
    ensures value { result ≡ each_invoke (T.holds test.now)
        (tree_of node.now) }
{
    match node {
        Node::Constant(_) | Node::Identity(_) | Node::Operation(_) => true,
        Node::Insert { target, .. } | Node::Drop { target, .. } | Node::Permute { target, .. } => {
            each_invocation(test, target)
        }
        Node::Filter {
            target,
            filters,
            ..
        } => {
            let here = each_invocation(test, target);
            let there = each_of_filters(test, filters);
            here && there
        }
        Node::FilterReturn { target, filter } => {
            let here = each_invocation(test, target);
            let there = each_invocation(test, filter);
            here && there
        }
        Node::Fold { target, combiner } => {
            let here = each_invocation(test, target);
            let there = each_invocation(test, combiner);
            here && there
        }
        Node::Guard {
            test: condition,
            target,
            fallback,
        } => {
            let asked = each_invocation(test, condition);
            let here = each_invocation(test, target);
            let there = each_invocation(test, fallback);
            asked && (here && there)
        }
        Node::Point {
            target,
            fallback,
            ..
        } => {
            let here = each_invocation(test, target);
            let there = each_invocation(test, fallback);
            here && there
        }
        Node::Invoke { site, method_type } => test.passes(*site, method_type),
    }
}

// Returns whether each invocation in the filters passes a test.
#[cycle(invocations)]
fn each_of_filters<T: InvocationTest>(test: &T, filters: &[Option<Arc<Node>>]) -> bool
    ensures value { result ≡ each_invokes (T.holds test.now)
        (filters_of (filter_trees filters.now)) }
{
    let Some((filter, rest)) = filters.split_first() else {
        return true;
    };
    let Some(filter) = filter else {
        return each_of_filters(test, rest);
    };
    let here = each_invocation(test, filter);
    let there = each_of_filters(test, rest);
    here && there
}
