//! Making the code of trees.

ghost use Rattle.std.specs.Prelude.{◌≡◌, ◌+◌, ◌≤◌, ◌∷◌, ℕ, List, [], take, length, IfOk};
ghost use Rattle.std.specs.Arc.{arc_value};
ghost use Rattle.mh_code.specs.PieceOf.{routine_of};
ghost use Rattle.mh_code.specs.inner.PurposeOf.{purpose_of};
ghost use Rattle.mh_code.specs.RoutineOf.{routine, used};
ghost use Rattle.mh_tree.specs.Limits.{size, total_size, most_nodes};
ghost use Rattle.mh_tree.specs.Tree.{Filters as FiltersData, filters_of};
ghost use Rattle.mh_tree.specs.TreeOf.{tree_of, filter_trees};
ghost use Rattle.mh_tree.specs.Code.{Code as CodeData, bind as bind_code, branch as branch_code, point as point_code};
ghost use Rattle.mh_code.specs.Routine.{operand as operand_source, operation as operation_source};
ghost use Rattle.mh_type.specs.Operations.{op_signature};
ghost use Rattle.mh_tree.specs.Prepared.{operand_at, prepared, prepared_filters};
ghost use Rattle.mh_tree.specs.declared.operand.Operand.{Operand as OperandData};
ghost use Rattle.mh_tree.specs.declared.operand.Operand.TheVariants.{Constant, Local};

use crate::code::Piece;
use crate::made::Made;
use crate::negating::{Filters, Rest, purpose_before};
use crate::operands::{at, local_first, parts, put_in, reordered, taken_out, with_local};
use crate::purpose::{Purpose, use_invocation, use_operand, use_operation};
use mh_base::NoMemory;
use mh_tree::{Node, Operand};
use mh_type::{Op, Value};
use std::sync::Arc;

/// The operands that the parameters of a part refer to, and the number of locals.
#[derive(Clone, Copy)]
pub(crate) struct Place<'a> {
    pub(crate) operands: &'a [Operand],
    pub(crate) depth: u32,
}

/// The target and the fallback of a branch.
#[derive(Clone, Copy)]
struct Branches<'a> {
    target: &'a Arc<Node>,
    fallback: &'a Arc<Node>,
}

// Returns the code of a part of a tree, with `before` steps before it, followed by the use of its
// value.
#[cycle(prepare)]
pub(crate) fn prepare(
    made: &mut Made,
    node: &Node,
    place: &Place<'_>,
    before: u32,
    purpose: &Purpose<'_>,
) -> Result<Arc<Piece>, NoMemory>
    requires few { before + size (tree_of node.now) ≤ most_nodes }
    requires low { place.now.depth + size (tree_of node.now) ≤ most_nodes }
    ensures value { IfOk result (λ p. routine_of (arc_value p) ≡ routine
        (prepared (tree_of node.now) place.now.operands.now place.now.depth before)
        place.now.depth 0 (purpose_of purpose.now)) }
{
    let alloc = made.alloc();
    let steps = before + 1;
    match node {
        Node::Constant(value) => constant(made, value, place.depth, steps, purpose),
        Node::Identity(_) => {
            use_operand(made, at(place.operands, 0)?, place.depth, steps, purpose)
        }
        Node::Operation(op) => operation(made, *op, place, steps, purpose),
        Node::Insert {
            target,
            position,
            values,
        } => {
            let operands = put_in(alloc, place.operands, *position, values)?;
            prepare_moved(made, target, &operands, place.depth, steps, purpose)
        }
        Node::Drop {
            target,
            position,
            kinds,
        } => {
            let operands = taken_out(alloc, place.operands, *position, kinds.len())?;
            prepare_moved(made, target, &operands, place.depth, steps, purpose)
        }
        Node::Permute {
            target,
            reorder,
            ..
        } => {
            let operands = reordered(alloc, place.operands, reorder)?;
            prepare_moved(made, target, &operands, place.depth, steps, purpose)
        }
        Node::Filter {
            target,
            position,
            filters,
        } => {
            let filters = Filters {
                position: *position,
                filters,
            };
            prepare_filters(made, target, &filters, place, steps, purpose)
        }
        Node::FilterReturn { target, filter } => {
            prepare_return(made, target, filter, place, steps, purpose)
        }
        Node::Fold { target, combiner } => {
            prepare_fold(made, target, combiner, place, steps, purpose)
        }
        Node::Guard {
            test,
            target,
            fallback,
        } => {
            let branches = Branches { target, fallback };
            prepare_guard(made, test, &branches, place, steps, purpose)
        }
        Node::Point {
            point,
            target,
            fallback,
        } => {
            let branches = Branches { target, fallback };
            prepare_point(made, *point, &branches, place, steps, purpose)
        }
        Node::Invoke { site, method_type } => {
            let (read, _) = parts(place.operands, method_type.count());
            use_invocation(made, *site, read, place.depth, steps, purpose)
        }
    }
}

// Returns the code of a part below moved operands.
#[cycle(prepare)]
fn prepare_moved(
    made: &mut Made,
    target: &Node,
    operands: &[Operand],
    depth: u32,
    steps: u32,
    purpose: &Purpose<'_>,
) -> Result<Arc<Piece>, NoMemory>
    requires few { steps + size (tree_of target.now) ≤ most_nodes }
    requires low { depth + size (tree_of target.now) ≤ most_nodes }
    ensures value { IfOk result (λ p. routine_of (arc_value p) ≡ routine
        (prepared (tree_of target.now) operands.now depth steps) depth 0
        (purpose_of purpose.now)) }
{
    let place = Place { operands, depth };
    prepare(made, target, &place, steps, purpose)
}

// Returns the code of a value and its use.
fn constant(
    made: &mut Made,
    value: &Value,
    depth: u32,
    steps: u32,
    purpose: &Purpose<'_>,
) -> Result<Arc<Piece>, NoMemory>
    ensures value { IfOk result (λ p. routine_of (arc_value p)
        ≡ used depth steps (operand_source (Constant value.now)) (purpose_of purpose.now)) }
{
    let value = value.share().map_err(|_| NoMemory)?;
    use_operand(made, Operand::Constant(value), depth, steps, purpose)
}

// Returns the code of an operation on as many of the operands as it has parameters, and of the use
// of its result.
fn operation(
    made: &mut Made,
    op: Op,
    place: &Place<'_>,
    steps: u32,
    purpose: &Purpose<'_>,
) -> Result<Arc<Piece>, NoMemory>
    requires few { steps ≤ most_nodes }
    ensures value { IfOk result (λ p. routine_of (arc_value p)
        ≡ used place.now.depth steps (operation_source op
        (operand_at (take (length (op_signature op).parameters) place.now.operands.now) 0)
        (operand_at (take (length (op_signature op).parameters) place.now.operands.now) 1))
        (purpose_of purpose.now)) }
{
    let (read, _) = parts(place.operands, op.op_type().count());
    use_operation(
        made,
        op,
        at(read, 0)?,
        at(read, 1)?,
        place.depth,
        steps,
        purpose,
    )
}

// Returns the code of the filters, followed by the target.
#[cycle(prepare)]
fn prepare_filters(
    made: &mut Made,
    target: &Arc<Node>,
    left: &Filters<'_>,
    place: &Place<'_>,
    steps: u32,
    purpose: &Purpose<'_>,
) -> Result<Arc<Piece>, NoMemory>
    requires few { steps + (size (tree_of (arc_value target.now))
        + total_size (filters_of (filter_trees left.now.filters.now))) ≤ most_nodes }
    requires low { place.now.depth + (size (tree_of (arc_value target.now))
        + total_size (filters_of (filter_trees left.now.filters.now))) ≤ most_nodes }
    ensures value { IfOk result (λ p. routine_of (arc_value p) ≡ routine
        (prepared_filters (filters_of (filter_trees left.now.filters.now)) left.now.position
        place.now.operands.now place.now.depth steps (prepared (tree_of (arc_value target.now))))
        place.now.depth 0 (purpose_of purpose.now)) }
{
    let Some((filter, filters)) = left.filters.split_first() else {
        return prepare(made, target, place, steps, purpose);
    };
    let rest = Filters {
        position: after(place.operands, left.position),
        filters,
    };
    let Some(node) = filter else {
        return prepare_filters(made, target, &rest, place, steps, purpose);
    };
    let passed = with_local(made.alloc(), place.operands, left.position, place.depth)?;
    let rest = Rest {
        filters: rest,
        target,
        operands: &passed,
    };
    let argument = Place {
        operands: &[at(place.operands, left.position)?],
        depth: place.depth,
    };
    prepare_two(made, node, &argument, &rest, steps, purpose)
}

// Returns the code of a first part, and of the parts that remain below its value, the next local.
#[cycle(prepare)]
fn prepare_two(
    made: &mut Made,
    first: &Node,
    place: &Place<'_>,
    rest: &Rest<'_>,
    steps: u32,
    purpose: &Purpose<'_>,
) -> Result<Arc<Piece>, NoMemory>
    requires few { steps + size (tree_of first.now) ≤ most_nodes }
    requires low { place.now.depth + (size (tree_of first.now)
        + (size (tree_of (arc_value rest.now.target.now))
        + total_size (filters_of (filter_trees rest.now.filters.filters.now)))) ≤ most_nodes }
    ensures value { IfOk result (λ p. routine_of (arc_value p) ≡ routine (bind_code steps
        (prepared (tree_of first.now) place.now.operands.now place.now.depth 0)
        (prepared_filters (filters_of (filter_trees rest.now.filters.filters.now))
        rest.now.filters.position rest.now.operands.now (place.now.depth + 1) 0
        (prepared (tree_of (arc_value rest.now.target.now))))) place.now.depth 0
        (purpose_of purpose.now)) }
{
    let local = place.depth;
    if let Some(purpose) = purpose_before(rest, local, purpose) {
        return prepare_for(made, first, place, steps, &purpose);
    }
    let below = Place {
        operands: rest.operands,
        depth: local + 1,
    };
    let then = prepare_filters(made, rest.target, &rest.filters, &below, 0, purpose)?;
    let purpose = Purpose::Local {
        place: local,
        then: &then,
    };
    prepare_for(made, first, place, steps, &purpose)
}

// Returns the code of a part, and of the use of its value.
#[cycle(prepare)]
fn prepare_for(
    made: &mut Made,
    node: &Node,
    place: &Place<'_>,
    steps: u32,
    purpose: &Purpose<'_>,
) -> Result<Arc<Piece>, NoMemory>
    requires few { steps + size (tree_of node.now) ≤ most_nodes }
    requires low { place.now.depth + size (tree_of node.now) ≤ most_nodes }
    ensures value { IfOk result (λ p. routine_of (arc_value p) ≡ routine
        (prepared (tree_of node.now) place.now.operands.now place.now.depth 0)
        place.now.depth steps (purpose_of purpose.now)) }
{
    prepare(made, node, place, steps, purpose)
}

// Returns the next index. After the last operand all indices are alike: there is no operand at any
// of them.
fn after(operands: &[Operand], place: usize) -> usize
    ensures value { (fs : FiltersData) → (d s : ℕ) → (go : List OperandData → ℕ → ℕ → CodeData)
        → (env : List OperandData) → length env ≡ length operands.now
        → prepared_filters fs result env d s go ≡ prepared_filters fs (place + 1) env d s go }
{
    if place < operands.len() {
        return place + 1;
    }
    place
}

// Returns the code of the filter, applied to the target's result.
#[cycle(prepare)]
fn prepare_return(
    made: &mut Made,
    target: &Arc<Node>,
    last: &Arc<Node>,
    place: &Place<'_>,
    steps: u32,
    purpose: &Purpose<'_>,
) -> Result<Arc<Piece>, NoMemory>
    requires few { steps + (size (tree_of (arc_value target.now))
        + size (tree_of (arc_value last.now))) ≤ most_nodes }
    requires low { place.now.depth + (size (tree_of (arc_value target.now))
        + size (tree_of (arc_value last.now))) ≤ most_nodes }
    ensures value { IfOk result (λ p. routine_of (arc_value p) ≡ routine (bind_code steps
        (prepared (tree_of (arc_value target.now)) place.now.operands.now place.now.depth 0)
        (prepared (tree_of (arc_value last.now)) (Local place.now.depth ∷ [])
        (place.now.depth + 1) 0)) place.now.depth 0 (purpose_of purpose.now)) }
{
    let rest = Rest {
        filters: Filters {
            position: 0,
            filters: &[],
        },
        target: last,
        operands: &[Operand::Local(place.depth)],
    };
    prepare_two(made, target, place, &rest, steps, purpose)
}

// Returns the code of the target, applied to the combiner's result and the operands.
#[cycle(prepare)]
fn prepare_fold(
    made: &mut Made,
    target: &Arc<Node>,
    combiner: &Arc<Node>,
    place: &Place<'_>,
    steps: u32,
    purpose: &Purpose<'_>,
) -> Result<Arc<Piece>, NoMemory>
    requires few { steps + (size (tree_of (arc_value target.now))
        + size (tree_of (arc_value combiner.now))) ≤ most_nodes }
    requires low { place.now.depth + (size (tree_of (arc_value target.now))
        + size (tree_of (arc_value combiner.now))) ≤ most_nodes }
    ensures value { IfOk result (λ p. routine_of (arc_value p) ≡ routine (bind_code steps
        (prepared (tree_of (arc_value combiner.now)) place.now.operands.now place.now.depth 0)
        (prepared (tree_of (arc_value target.now)) (Local place.now.depth ∷ place.now.operands.now)
        (place.now.depth + 1) 0)) place.now.depth 0 (purpose_of purpose.now)) }
{
    let inner = local_first(made.alloc(), place.depth, place.operands)?;
    let rest = Rest {
        filters: Filters {
            position: 0,
            filters: &[],
        },
        target,
        operands: &inner,
    };
    prepare_two(made, combiner, place, &rest, steps, purpose)
}

// Returns the code of the branches and of their test.
#[cycle(prepare)]
fn prepare_guard(
    made: &mut Made,
    test: &Arc<Node>,
    branches: &Branches<'_>,
    place: &Place<'_>,
    steps: u32,
    purpose: &Purpose<'_>,
) -> Result<Arc<Piece>, NoMemory>
    requires few { steps + (size (tree_of (arc_value test.now))
        + (size (tree_of (arc_value branches.now.target.now))
        + size (tree_of (arc_value branches.now.fallback.now)))) ≤ most_nodes }
    requires low { place.now.depth + (size (tree_of (arc_value test.now))
        + (size (tree_of (arc_value branches.now.target.now))
        + size (tree_of (arc_value branches.now.fallback.now)))) ≤ most_nodes }
    ensures value { IfOk result (λ p. routine_of (arc_value p) ≡ routine (branch_code steps
        (prepared (tree_of (arc_value test.now)) place.now.operands.now place.now.depth 0)
        (prepared (tree_of (arc_value branches.now.target.now)) place.now.operands.now
        place.now.depth 0)
        (prepared (tree_of (arc_value branches.now.fallback.now)) place.now.operands.now
        place.now.depth 0)) place.now.depth 0 (purpose_of purpose.now)) }
{
    let target = prepare(made, branches.target, place, 0, purpose)?;
    let fallback = prepare(made, branches.fallback, place, 0, purpose)?;
    let truth = Purpose::Truth {
        target: &target,
        fallback: &fallback,
    };
    prepare(made, test, place, steps, &truth)
}

// Returns the code of the branches of a point.
#[cycle(prepare)]
fn prepare_point(
    made: &mut Made,
    point: u32,
    branches: &Branches<'_>,
    place: &Place<'_>,
    steps: u32,
    purpose: &Purpose<'_>,
) -> Result<Arc<Piece>, NoMemory>
    requires few { size (tree_of (arc_value branches.now.target.now))
        + size (tree_of (arc_value branches.now.fallback.now)) ≤ most_nodes }
    requires low { place.now.depth + (size (tree_of (arc_value branches.now.target.now))
        + size (tree_of (arc_value branches.now.fallback.now))) ≤ most_nodes }
    ensures value { IfOk result (λ p. routine_of (arc_value p) ≡ routine (point_code steps point
        (prepared (tree_of (arc_value branches.now.target.now)) place.now.operands.now
        place.now.depth 0)
        (prepared (tree_of (arc_value branches.now.fallback.now)) place.now.operands.now
        place.now.depth 0)) place.now.depth 0 (purpose_of purpose.now)) }
{
    let target = prepare(made, branches.target, place, 0, purpose)?;
    let fallback = prepare(made, branches.fallback, place, 0, purpose)?;
    made.add(Piece::Point {
        point,
        target,
        fallback,
        steps,
    })
}
