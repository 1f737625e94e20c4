//! The evaluator: a walk over a handle's nodes, with a stack. The arguments of a node are on the
//! top of the stack, from an index on.

ghost use Rattle.std.specs.Prelude.{◌≡◌, ◌+◌, ◌<◌, ◌≤◌, ◌∷◌, [], length, take, drop, slice_index_or, slice_set, vec_capacity, if◌then◌else◌, IfOk, IsOk};
ghost use Rattle.mh_eval.specs.Entered.{EntersPlain};
ghost use Rattle.mh_eval.specs.Answers.{Gives};
ghost use Rattle.mh_eval.specs.Quiet.{IsAnswered};
ghost use Rattle.mh_eval.specs.inner.Walked.{Walked, Placed, Passed, settled, is_true};
ghost use Rattle.mh_tree.specs.Limits.{all_steps, point_bound};
ghost use Rattle.mh_tree.specs.Meaning.{mean, steps};
ghost use Rattle.mh_tree.specs.Tree.{insert, discard, permute, filter, filter_return, fold, guard, point as point_tree, invoke, filters_of, present};
ghost use Rattle.mh_tree.specs.TreeOf.{tree_of, filter_trees};
ghost use Rattle.mh_tree.specs.inner.Widths.{CanRun, CanFilter};
ghost use Rattle.mh_type.specs.Fits.{Fits};
ghost use Rattle.mh_type.specs.Operations.{operate as outcome_of_operation, op_signature};
ghost use Rattle.mh_type.specs.Limits.{most_parameters};
ghost use Rattle.mh_tree.specs.Sites.{IsLawful, HavePoints, with_sites, sites, setting, most_at, greatest_steps};

use crate::answer::{Answer, outcome_of};
use crate::frames::{
    put, put_copies, put_first, put_inserted, put_reordered, put_taken_out, put_values,
};
use crate::operations::{operate, share};
use crate::stack::Stack;
use mh_base::NoMemory;
use mh_tree::{Handle, Node};
use mh_type::{Kind, MethodType, Op, Outcome, Value};
use std::alloc::Global;
use std::sync::Arc;

// The greatest number of arguments that a tree reads.
const WIDEST: usize = 16;

// The greatest depth of the invocations of a lawful tree, in trees.
pub(crate) const DEEPEST_LEVEL: u8 = 4;

// The validity of the points, and the tree of each site.
#[derive(Clone, Copy)]
struct Trees<'a> {
    valid: &'a [bool],
    targets: &'a [Handle],
}

/// Evaluates a handle's tree on arguments, and returns the outcome and the number of nodes
/// evaluated. `valid` says which points are valid, and each site has a level and a tree.
///
/// A guard's test, a fold's combiner and a site are passed as many of the leading arguments as they
/// have parameters. If a part that runs throws, this is the outcome, and nothing after it runs. The
/// arguments of each node and its result are on the stack, and no list is made. Fails only with
/// `NoMemory`, and never if no node that is evaluated, also in the trees of sites, has String in
/// its type; the stack is as before.
pub fn eval(
    stack: &mut Stack,
    valid: &[bool],
    levels: &[u8],
    targets: &[Handle],
    handle: &Handle,
    arguments: &[Value],
) -> Result<(Outcome, u128), NoMemory>
    requires fits { Fits handle.now.signature arguments.now }
    requires known { point_bound handle.now.tree ≤ length valid.now }
    requires points { HavePoints (length valid.now) targets.now }
    requires lawful { IsLawful levels.now targets.now handle.now.tree }
    ensures outcome { IfOk result (λ r. r.0
        ≡ mean (with_sites valid.now targets.now) handle.now.tree arguments.now) }
    ensures steps { IfOk result (λ r. r.1
        ≡ steps (with_sites valid.now targets.now) handle.now.tree arguments.now) }
    ensures few { IfOk result (λ r. r.1 ≤ greatest_steps) }
    ensures stack { stack.new ≡ stack.old }
    ensures memory { EntersPlain (sites valid.now targets.now) handle.now.tree arguments.now
        → IsOk result }
{
    let alloc = stack.alloc();
    let (answer, steps) = run_on_arguments(
        alloc,
        &mut stack.values,
        &Trees { valid, targets },
        DEEPEST_LEVEL,
        handle.root(),
        arguments,
    );
    outcome_of(answer, steps)
}

// Pushes arguments on the stack, and returns the answer of a tree on them, and the number of nodes
// evaluated.
fn run_on_arguments(
    alloc: Global,
    stack: &mut Vec<Value>,
    here: &Trees<'_>,
    level: u8,
    node: &Node,
    arguments: &[Value],
) -> (Answer, u128)
    requires narrow { length arguments.now ≤ most_parameters }
    requires can_run { CanRun (tree_of node.now) (length arguments.now) (setting level
        here.now.valid.now here.now.targets.now) }
    ensures walked { Walked result.0 result.1 (setting level here.now.valid.now
        here.now.targets.now)
        (tree_of node.now) arguments.now (length stack.old.items + most_parameters)
        (vec_capacity stack.old) }
    ensures stack { stack.new.items ≡ stack.old.items }
    ensures room { vec_capacity stack.old ≤ vec_capacity stack.new }
{
    let base = stack.len();
    let Ok(()) = put_values(stack, arguments) else {
        stack.truncate(base);
        return (Answer::NoMemory, 0);
    };
    run_above(alloc, stack, here, level, node, base)
}

// Returns the answer of a tree on the arguments from index `from` on, and the number of nodes
// evaluated.
#[cycle(run)]
fn run(
    alloc: Global,
    stack: &mut Vec<Value>,
    here: &Trees<'_>,
    level: u8,
    node: &Node,
    from: usize,
) -> (Answer, u128)
    requires inside { from ≤ length stack.old.items }
    requires narrow { length stack.old.items ≤ from + most_parameters }
    requires can_run { CanRun (tree_of node.now) (length (drop from stack.old.items))
        (setting level here.now.valid.now here.now.targets.now) }
    ensures walked { Walked result.0 result.1 (setting level here.now.valid.now
        here.now.targets.now) (tree_of node.now)
        (drop from stack.old.items) (length stack.old.items) (vec_capacity stack.old) }
    ensures stack { stack.new.items ≡ stack.old.items }
    ensures room { vec_capacity stack.old ≤ vec_capacity stack.new }
{
    match node {
        Node::Constant(value) => (share(value), 1),
        Node::Identity(_) => (share(&stack[from]), 1),
        Node::Operation(op) => (run_operation(alloc, *op, arguments_from(stack, from)), 1),
        Node::Insert {
            target,
            position,
            values,
        } => run_insert(alloc, stack, here, level, target, *position, values, from),
        Node::Drop {
            target,
            position,
            kinds,
        } => run_drop(alloc, stack, here, level, target, *position, kinds, from),
        Node::Permute {
            target,
            new_type,
            reorder,
        } => run_permute(alloc, stack, here, level, target, new_type, reorder, from),
        Node::Filter {
            target,
            position,
            filters,
        } => run_filter(alloc, stack, here, level, target, *position, filters, from),
        Node::FilterReturn { target, filter } => {
            run_filter_return(alloc, stack, here, level, target, filter, from)
        }
        Node::Fold { target, combiner } => run_fold(
            alloc, stack, here, level, target, combiner, from,
        ),
        Node::Guard {
            test,
            target,
            fallback,
        } => run_guard(alloc, stack, here, level, test, target, fallback, from),
        Node::Point {
            point,
            target,
            fallback,
        } => run_point(alloc, stack, here, level, *point, target, fallback, from),
        Node::Invoke { site, method_type } => {
            run_invoke(alloc, stack, here, level, *site, method_type, from)
        }
    }
}

// Returns the answer of a tree on arguments that were pushed on the stack, which it pops, and the
// number of nodes evaluated. If there are more arguments than a tree reads, it uses the first.
#[cycle(run)]
fn run_above(
    alloc: Global,
    stack: &mut Vec<Value>,
    here: &Trees<'_>,
    level: u8,
    node: &Node,
    from: usize,
) -> (Answer, u128)
    requires inside { from ≤ length stack.old.items }
    requires can_run { CanRun (tree_of node.now) (length (drop from stack.old.items))
        (setting level here.now.valid.now here.now.targets.now) }
    ensures walked { Walked result.0 result.1 (setting level here.now.valid.now
        here.now.targets.now) (tree_of node.now)
        (drop from stack.old.items) (from + most_parameters) (vec_capacity stack.old) }
    ensures stack { stack.new.items ≡ take from stack.old.items }
    ensures room { vec_capacity stack.old ≤ vec_capacity stack.new }
{
    stack.truncate(from + WIDEST);
    let (answer, steps) = run(alloc, stack, here, level, node, from);
    stack.truncate(from);
    (answer, steps)
}

// Runs the operation on the first two arguments. For one that reads a single argument, the second
// may be missing.
fn run_operation(alloc: Global, op: Op, arguments: &[Value]) -> Answer
    requires wide { length (op_signature op).parameters ≤ length arguments.now }
    ensures value { Gives result (outcome_of_operation op arguments.now) }
    ensures quiet { (op ≡ Op.Concat → ⊥) → IsAnswered result }
{
    let absent = Value::Boolean(false);
    let first = argument_or(arguments, 0, &absent);
    let second = argument_or(arguments, 1, &absent);
    operate(alloc, op, first, second)
}

// Returns the values on the stack from an index on.
fn arguments_from(stack: &Vec<Value>, from: usize) -> &[Value]
    requires inside { from ≤ length stack.now.items }
    ensures value { result.now ≡ drop from stack.now.items }
{
    &stack.as_slice()[from..]
}

// Returns the argument at an index, or the substitute for an absent one.
fn argument_or<'a>(arguments: &'a [Value], place: usize, absent: &'a Value) -> &'a Value
    ensures value { result.now ≡ slice_index_or arguments.now place absent.now }
{
    match arguments.get(place) {
        Some(argument) => argument,
        None => absent,
    }
}

// Runs the target, with the values inserted.
#[cycle(run)]
fn run_insert(
    alloc: Global,
    stack: &mut Vec<Value>,
    here: &Trees<'_>,
    level: u8,
    target: &Node,
    position: usize,
    values: &[Value],
    from: usize,
) -> (Answer, u128)
    requires inside { from ≤ length stack.old.items }
    requires narrow { length stack.old.items ≤ from + most_parameters }
    requires can_run { CanRun (insert (tree_of target.now) position values.now)
        (length (drop from stack.old.items)) (setting level here.now.valid.now
        here.now.targets.now) }
    ensures walked { Walked result.0 result.1 (setting level here.now.valid.now
        here.now.targets.now)
        (insert (tree_of target.now) position values.now) (drop from stack.old.items)
        (length stack.old.items) (vec_capacity stack.old) }
    ensures stack { stack.new.items ≡ stack.old.items }
    ensures room { vec_capacity stack.old ≤ vec_capacity stack.new }
{
    let base = stack.len();
    let Ok(()) = put_inserted(stack, from, position, values) else {
        stack.truncate(base);
        return (Answer::NoMemory, 0);
    };
    let (answer, steps) = run_above(alloc, stack, here, level, target, base);
    (answer, 1 + steps)
}

// Runs the target, without the arguments that are dropped.
#[cycle(run)]
fn run_drop(
    alloc: Global,
    stack: &mut Vec<Value>,
    here: &Trees<'_>,
    level: u8,
    target: &Node,
    position: usize,
    kinds: &[Kind],
    from: usize,
) -> (Answer, u128)
    requires inside { from ≤ length stack.old.items }
    requires narrow { length stack.old.items ≤ from + most_parameters }
    requires can_run { CanRun (discard (tree_of target.now) position kinds.now)
        (length (drop from stack.old.items)) (setting level here.now.valid.now
        here.now.targets.now) }
    ensures walked { Walked result.0 result.1 (setting level here.now.valid.now
        here.now.targets.now)
        (discard (tree_of target.now) position kinds.now) (drop from stack.old.items)
        (length stack.old.items) (vec_capacity stack.old) }
    ensures stack { stack.new.items ≡ stack.old.items }
    ensures room { vec_capacity stack.old ≤ vec_capacity stack.new }
{
    let base = stack.len();
    let Ok(()) = put_taken_out(stack, from, position, kinds.len()) else {
        stack.truncate(base);
        return (Answer::NoMemory, 0);
    };
    let (answer, steps) = run_above(alloc, stack, here, level, target, base);
    (answer, 1 + steps)
}

// Runs the target on the arguments that the indices name.
#[cycle(run)]
fn run_permute(
    alloc: Global,
    stack: &mut Vec<Value>,
    here: &Trees<'_>,
    level: u8,
    target: &Node,
    new_type: &MethodType,
    reorder: &[usize],
    from: usize,
) -> (Answer, u128)
    requires inside { from ≤ length stack.old.items }
    requires narrow { length stack.old.items ≤ from + most_parameters }
    requires can_run { CanRun (permute (tree_of target.now) new_type.now reorder.now)
        (length (drop from stack.old.items)) (setting level here.now.valid.now
        here.now.targets.now) }
    ensures walked { Walked result.0 result.1 (setting level here.now.valid.now
        here.now.targets.now)
        (permute (tree_of target.now) new_type.now reorder.now) (drop from stack.old.items)
        (length stack.old.items) (vec_capacity stack.old) }
    ensures stack { stack.new.items ≡ stack.old.items }
    ensures room { vec_capacity stack.old ≤ vec_capacity stack.new }
{
    let base = stack.len();
    let Ok(()) = put_reordered(stack, from, reorder) else {
        stack.truncate(base);
        return (Answer::NoMemory, 0);
    };
    let (answer, steps) = run_above(alloc, stack, here, level, target, base);
    (answer, 1 + steps)
}

// Returns the value of an answer, or the answer that ends the walk.
fn settle(answer: Answer) -> Result<Value, Answer>
    ensures value { result ≡ settled answer }
{
    match answer {
        Answer::Int(number) => Ok(Value::Int(number)),
        Answer::Long(number) => Ok(Value::Long(number)),
        Answer::Boolean(truth) => Ok(Value::Boolean(truth)),
        Answer::Text(text) => Ok(Value::Text(text)),
        Answer::Thrown(throw) => Err(Answer::Thrown(throw)),
        Answer::NoMemory => Err(Answer::NoMemory),
    }
}

// Runs the filter on the target's result.
#[cycle(run)]
fn run_filter_return(
    alloc: Global,
    stack: &mut Vec<Value>,
    here: &Trees<'_>,
    level: u8,
    target: &Node,
    last: &Node,
    from: usize,
) -> (Answer, u128)
    requires inside { from ≤ length stack.old.items }
    requires narrow { length stack.old.items ≤ from + most_parameters }
    requires can_run { CanRun (filter_return (tree_of target.now) (tree_of last.now))
        (length (drop from stack.old.items)) (setting level here.now.valid.now
        here.now.targets.now) }
    ensures walked { Walked result.0 result.1 (setting level here.now.valid.now
        here.now.targets.now)
        (filter_return (tree_of target.now) (tree_of last.now)) (drop from stack.old.items)
        (length stack.old.items) (vec_capacity stack.old) }
    ensures stack { stack.new.items ≡ stack.old.items }
    ensures room { vec_capacity stack.old ≤ vec_capacity stack.new }
{
    let (first, before) = run(alloc, stack, here, level, target, from);
    let value = match settle(first) {
        Ok(value) => value,
        Err(answer) => return (answer, 1 + before),
    };
    let base = stack.len();
    let Ok(()) = put(stack, value) else {
        stack.truncate(base);
        return (Answer::NoMemory, 0);
    };
    let (answer, steps) = run_above(alloc, stack, here, level, last, base);
    (answer, 1 + (before + steps))
}

// Runs the target on the combiner's result and the arguments.
#[cycle(run)]
fn run_fold(
    alloc: Global,
    stack: &mut Vec<Value>,
    here: &Trees<'_>,
    level: u8,
    target: &Node,
    combiner: &Node,
    from: usize,
) -> (Answer, u128)
    requires inside { from ≤ length stack.old.items }
    requires narrow { length stack.old.items ≤ from + most_parameters }
    requires can_run { CanRun (fold (tree_of target.now) (tree_of combiner.now))
        (length (drop from stack.old.items)) (setting level here.now.valid.now
        here.now.targets.now) }
    ensures walked { Walked result.0 result.1 (setting level here.now.valid.now
        here.now.targets.now)
        (fold (tree_of target.now) (tree_of combiner.now)) (drop from stack.old.items)
        (length stack.old.items) (vec_capacity stack.old) }
    ensures stack { stack.new.items ≡ stack.old.items }
    ensures room { vec_capacity stack.old ≤ vec_capacity stack.new }
{
    let (first, before) = run(alloc, stack, here, level, combiner, from);
    let value = match settle(first) {
        Ok(value) => value,
        Err(answer) => return (answer, 1 + before),
    };
    let base = stack.len();
    let Ok(()) = put_first(stack, from, value) else {
        stack.truncate(base);
        return (Answer::NoMemory, 0);
    };
    let (answer, steps) = run_above(alloc, stack, here, level, target, base);
    (answer, 1 + (before + steps))
}

// Returns whether a value is true.
fn holds(value: &Value) -> bool
    ensures value { result ≡ is_true value.now }
{
    match value {
        Value::Boolean(truth) => *truth,
        _ => false,
    }
}

// Returns one of two branches.
fn branch_by<'a>(truth: bool, target: &'a Node, fallback: &'a Node) -> &'a Node
    ensures value { tree_of result.now
        ≡ (if truth then tree_of target.now else tree_of fallback.now) }
{
    if truth { target } else { fallback }
}

// Runs the branch that the test chooses.
#[cycle(run)]
fn run_guard(
    alloc: Global,
    stack: &mut Vec<Value>,
    here: &Trees<'_>,
    level: u8,
    test: &Node,
    target: &Node,
    fallback: &Node,
    from: usize,
) -> (Answer, u128)
    requires inside { from ≤ length stack.old.items }
    requires narrow { length stack.old.items ≤ from + most_parameters }
    requires can_run { CanRun (guard (tree_of test.now) (tree_of target.now) (tree_of fallback.now))
        (length (drop from stack.old.items)) (setting level here.now.valid.now
        here.now.targets.now) }
    ensures walked { Walked result.0 result.1 (setting level here.now.valid.now
        here.now.targets.now)
        (guard (tree_of test.now) (tree_of target.now) (tree_of fallback.now))
        (drop from stack.old.items) (length stack.old.items) (vec_capacity stack.old) }
    ensures stack { stack.new.items ≡ stack.old.items }
    ensures room { vec_capacity stack.old ≤ vec_capacity stack.new }
{
    let (choice, before) = run(alloc, stack, here, level, test, from);
    let value = match settle(choice) {
        Ok(value) => value,
        Err(answer) => return (answer, 1 + before),
    };
    let branch = branch_by(holds(&value), target, fallback);
    let (answer, steps) = run(alloc, stack, here, level, branch, from);
    (answer, 1 + (before + steps))
}

// Runs the target while the point is valid, and otherwise the fallback.
#[cycle(run)]
fn run_point(
    alloc: Global,
    stack: &mut Vec<Value>,
    here: &Trees<'_>,
    level: u8,
    point: u32,
    target: &Node,
    fallback: &Node,
    from: usize,
) -> (Answer, u128)
    requires inside { from ≤ length stack.old.items }
    requires narrow { length stack.old.items ≤ from + most_parameters }
    requires can_run { CanRun (point_tree point (tree_of target.now) (tree_of fallback.now))
        (length (drop from stack.old.items)) (setting level here.now.valid.now
        here.now.targets.now) }
    ensures walked { Walked result.0 result.1 (setting level here.now.valid.now
        here.now.targets.now)
        (point_tree point (tree_of target.now) (tree_of fallback.now)) (drop from stack.old.items)
        (length stack.old.items) (vec_capacity stack.old) }
    ensures stack { stack.new.items ≡ stack.old.items }
    ensures room { vec_capacity stack.old ≤ vec_capacity stack.new }
{
    let branch = branch_by(here.valid[point as usize], target, fallback);
    let (answer, steps) = run(alloc, stack, here, level, branch, from);
    (answer, 1 + steps)
}

// Runs the target on the filtered arguments.
#[cycle(run)]
fn run_filter(
    alloc: Global,
    stack: &mut Vec<Value>,
    here: &Trees<'_>,
    level: u8,
    target: &Node,
    position: usize,
    filters: &[Option<Arc<Node>>],
    from: usize,
) -> (Answer, u128)
    requires inside { from ≤ length stack.old.items }
    requires narrow { length stack.old.items ≤ from + most_parameters }
    requires can_run { CanRun (filter (tree_of target.now) position
        (filters_of (filter_trees filters.now))) (length (drop from stack.old.items))
        (setting level here.now.valid.now here.now.targets.now) }
    ensures walked { Walked result.0 result.1 (setting level here.now.valid.now
        here.now.targets.now)
        (filter (tree_of target.now) position (filters_of (filter_trees filters.now)))
        (drop from stack.old.items) (length stack.old.items) (vec_capacity stack.old) }
    ensures stack { stack.new.items ≡ stack.old.items }
    ensures room { vec_capacity stack.old ≤ vec_capacity stack.new }
{
    let base = stack.len();
    let Ok(()) = put_copies(stack, from, base) else {
        stack.truncate(base);
        return (Answer::NoMemory, 0);
    };
    let (passed, before) = run_filters(alloc, stack, here, level, filters, base, position);
    if let Err(answer) = passed {
        stack.truncate(base);
        return (answer, 1 + before);
    }
    let (answer, steps) = run_above(alloc, stack, here, level, target, base);
    (answer, 1 + (before + steps))
}

// Replaces the arguments from index `base` on by the results of their filters, beginning with the
// argument at `position`, and returns the number of nodes evaluated.
#[cycle(run)]
fn run_filters(
    alloc: Global,
    stack: &mut Vec<Value>,
    here: &Trees<'_>,
    level: u8,
    filters: &[Option<Arc<Node>>],
    base: usize,
    position: usize,
) -> (Result<(), Answer>, u128)
    requires inside { base ≤ length stack.old.items }
    requires fits { CanFilter (filters_of (filter_trees filters.now)) position
        (length (drop base stack.old.items)) (setting level here.now.valid.now
        here.now.targets.now) }
    requires small { all_steps (most_at level) (filters_of (filter_trees filters.now)) ≤
        greatest_steps }
    ensures passed { Passed result.0 result.1 (setting level here.now.valid.now
        here.now.targets.now)
        (filters_of (filter_trees filters.now)) position (drop base stack.old.items)
        (drop base stack.new.items) (length stack.old.items) (vec_capacity stack.old) }
    ensures stack { take base stack.new.items ≡ take base stack.old.items }
    ensures room { vec_capacity stack.old ≤ vec_capacity stack.new }
{
    let [first, rest @ ..] = filters else {
        return (Ok(()), 0);
    };
    match first {
        Some(node) => run_present(alloc, stack, here, level, node, rest, base, position),
        None => run_filters(alloc, stack, here, level, rest, base, position + 1),
    }
}

// Does what `run_filters` does, given that the first filter is present.
#[cycle(run)]
fn run_present(
    alloc: Global,
    stack: &mut Vec<Value>,
    here: &Trees<'_>,
    level: u8,
    node: &Node,
    rest: &[Option<Arc<Node>>],
    base: usize,
    position: usize,
) -> (Result<(), Answer>, u128)
    requires inside { base ≤ length stack.old.items }
    requires fits { CanFilter (present (tree_of node.now) (filters_of (filter_trees rest.now)))
        position (length (drop base stack.old.items)) (setting level here.now.valid.now
        here.now.targets.now) }
    requires small { all_steps (most_at level) (present (tree_of node.now) (filters_of
        (filter_trees rest.now)))
        ≤ greatest_steps }
    ensures passed { Passed result.0 result.1 (setting level here.now.valid.now
        here.now.targets.now)
        (present (tree_of node.now) (filters_of (filter_trees rest.now))) position
        (drop base stack.old.items) (drop base stack.new.items) (length stack.old.items)
        (vec_capacity stack.old) }
    ensures stack { take base stack.new.items ≡ take base stack.old.items }
    ensures room { vec_capacity stack.old ≤ vec_capacity stack.new }
{
    let (placed, before) = run_place(alloc, stack, here, level, node, base + position);
    if let Err(answer) = placed {
        return (Err(answer), before);
    }
    let (passed, steps) = run_filters(alloc, stack, here, level, rest, base, position + 1);
    (passed, before + steps)
}

// Replaces the value at an index by the result of a filter, and returns the number of nodes
// evaluated.
#[cycle(run)]
fn run_place(
    alloc: Global,
    stack: &mut Vec<Value>,
    here: &Trees<'_>,
    level: u8,
    node: &Node,
    place: usize,
) -> (Result<(), Answer>, u128)
    requires inside { place < length stack.old.items }
    requires can_run { CanRun (tree_of node.now) 1 (setting level here.now.valid.now
        here.now.targets.now) }
    ensures placed { Placed result.0 result.1 (setting level here.now.valid.now
        here.now.targets.now)
        (tree_of node.now) place stack.old.items stack.new.items (vec_capacity stack.old) }
    ensures room { vec_capacity stack.old ≤ vec_capacity stack.new }
{
    let top = stack.len();
    let Ok(()) = put_copies(stack, place, place + 1) else {
        stack.truncate(top);
        return (Err(Answer::NoMemory), 0);
    };
    let (answer, steps) = run_above(alloc, stack, here, level, node, top);
    match settle(answer) {
        Ok(value) => {
            stack[place] = value;
            (Ok(()), steps)
        }
        Err(answer) => (Err(answer), steps),
    }
}

// Runs the tree of a site on the same arguments.
#[cycle(run)]
fn run_invoke(
    alloc: Global,
    stack: &mut Vec<Value>,
    here: &Trees<'_>,
    level: u8,
    site: u32,
    method_type: &MethodType,
    from: usize,
) -> (Answer, u128)
    requires inside { from ≤ length stack.old.items }
    requires narrow { length stack.old.items ≤ from + most_parameters }
    requires can_run { CanRun (invoke site method_type.now) (length (drop from stack.old.items))
        (setting level here.now.valid.now here.now.targets.now) }
    ensures walked { Walked result.0 result.1 (setting level here.now.valid.now
        here.now.targets.now)
        (invoke site method_type.now) (drop from stack.old.items) (length stack.old.items)
        (vec_capacity stack.old) }
    ensures stack { stack.new.items ≡ stack.old.items }
    ensures room { vec_capacity stack.old ≤ vec_capacity stack.new }
{
    let target = &here.targets[site as usize];
    let (answer, steps) = run(alloc, stack, here, level - 1, target.root(), from);
    (answer, 1 + steps)
}
