//! Parts that follow a first one, and parts that only negate its value.

ghost use Rattle.std.specs.Prelude.{◌≡◌, ℕ};
ghost use Rattle.std.specs.Arc.{arc_value};
ghost use Rattle.std.specs.Option.{option_map};
ghost use Rattle.mh_code.specs.inner.Negations.{are_absent as no_filters, is_not_tree};
ghost use Rattle.mh_code.specs.inner.PurposeOf.{purpose_of};
ghost use Rattle.mh_code.specs.RoutineOf.{is_local as first_is_local, negates as negates_local, purpose_before as purpose_before_code};
ghost use Rattle.mh_tree.specs.Prepared.{operand_at, prepared, prepared_filters};
ghost use Rattle.mh_tree.specs.Tree.{filters_of};
ghost use Rattle.mh_tree.specs.TreeOf.{tree_of, filter_trees};

use crate::purpose::Purpose;
use mh_tree::{Node, Operand};
use mh_type::Op;
use std::sync::Arc;

/// The remaining filters, which begin at an index of the operands.
#[derive(Clone, Copy)]
pub(crate) struct Filters<'a> {
    pub(crate) position: usize,
    pub(crate) filters: &'a [Option<Arc<Node>>],
}

/// The parts that remain to run below one more local: filters, and then the target.
#[derive(Clone, Copy)]
pub(crate) struct Rest<'a> {
    pub(crate) filters: Filters<'a>,
    pub(crate) target: &'a Arc<Node>,
    pub(crate) operands: &'a [Operand],
}

// Returns the purpose of a first part's value, if the remaining parts only use the `not` of it to
// choose.
pub(crate) fn purpose_before<'a>(
    rest: &Rest<'_>,
    local: u32,
    purpose: &Purpose<'a>,
) -> Option<Purpose<'a>>
    ensures value { (d : ℕ) → option_map purpose_of result ≡ purpose_before_code local
        (prepared_filters (filters_of (filter_trees rest.now.filters.filters.now))
        rest.now.filters.position rest.now.operands.now d 0
        (prepared (tree_of (arc_value rest.now.target.now)))) (purpose_of purpose.now) }
{
    match purpose {
        Purpose::Truth { target, fallback } if negates(rest, local) => Some(Purpose::Untruth {
            target: *target,
            fallback: *fallback,
        }),
        _ => None,
    }
}

// Returns whether the remaining parts are the operation `not` on a local.
#[tactic(auto, using(crate::proofs::NegatedLocals::negates_filters))]
fn negates(rest: &Rest<'_>, local: u32) -> bool
    ensures value { (d : ℕ) → result ≡ negates_local local (prepared_filters
        (filters_of (filter_trees rest.now.filters.filters.now)) rest.now.filters.position
        rest.now.operands.now d 0 (prepared (tree_of (arc_value rest.now.target.now)))) }
{
    are_absent(rest.filters.filters) && is_not(rest.target) && is_local(rest.operands, local)
}

// Returns whether all filters are absent.
fn are_absent(filters: &[Option<Arc<Node>>]) -> bool
    ensures value { result ≡ no_filters (filters_of (filter_trees filters.now)) }
{
    let mut left = filters;
    while let Some((filter, rest)) = left.split_first() {
        if filter.is_some() {
            return false;
        }
        left = rest;
    }
    true
}

// Returns whether a tree is the operation `not`.
fn is_not(node: &Node) -> bool
    ensures value { result ≡ is_not_tree (tree_of node.now) }
{
    let Node::Operation(op) = node else {
        return false;
    };
    matches!(op, Op::Not)
}

// Returns whether the first operand is a local.
fn is_local(operands: &[Operand], local: u32) -> bool
    ensures value { result ≡ first_is_local local (operand_at operands.now 0) }
{
    match operands.first() {
        Some(Operand::Local(place)) => *place == local,
        _ => false,
    }
}
