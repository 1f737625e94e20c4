//! The trees that the tests run, and their results.

use crate::failed::Failed;
use mh_code::Prepared;
use mh_eval::{evaluate, fits, lawful};
use mh_run::{Here, Stack, run};
use mh_tree::Handle;
use mh_type::{Kind, Op, Outcome, Throw, Value};
use std::alloc::Global;

/// Returns an operation as a tree.
pub(crate) fn op(alloc: Global, op: Op) -> Result<Handle, Failed> {
    Ok(Handle::op(alloc, op)?)
}

/// Returns an operation with 1 inserted as its second argument.
pub(crate) fn with_one(alloc: Global, op: Op) -> Result<Handle, Failed> {
    let op = Handle::op(alloc, op)?;
    Ok(Handle::insert(alloc, &op, 1, &[Value::Int(1)])?)
}

/// Returns the tree that returns 100, whatever the argument.
pub(crate) fn hundred(alloc: Global) -> Result<Handle, Failed> {
    let hundred = Handle::constant(alloc, &Value::Int(100))?;
    Ok(Handle::drop(alloc, &hundred, 0, &[Kind::Int])?)
}

/// Returns the target of the example site: 100 for 1 and otherwise one more, while point 0 is
/// valid; and then the negation.
pub(crate) fn example(alloc: Global) -> Result<Handle, Failed> {
    let test = with_one(alloc, Op::Ieq)?;
    let next = with_one(alloc, Op::Iadd)?;
    let guard = Handle::guard(alloc, &test, &hundred(alloc)?, &next)?;
    Ok(Handle::point(alloc, 0, &guard, &op(alloc, Op::Ineg)?)?)
}

/// Returns a handle with its code.
fn prepared(alloc: Global, handle: Handle) -> Result<Prepared, Failed> {
    Ok(Prepared::new(alloc, &handle)?)
}

/// Returns the guard of the example, each part of which was prepared before.
pub(crate) fn prepared_guard(alloc: Global) -> Result<Prepared, Failed> {
    let test = prepared(alloc, with_one(alloc, Op::Ieq)?)?;
    let next = prepared(alloc, with_one(alloc, Op::Iadd)?)?;
    let hundred = prepared(alloc, hundred(alloc)?)?;
    Ok(Prepared::guard(alloc, &test, &hundred, &next)?)
}

/// Returns the example with its code; each part of its guard and of its point was prepared before.
pub(crate) fn prepared_example(alloc: Global) -> Result<Prepared, Failed> {
    let guard = prepared_guard(alloc)?;
    let negation = prepared(alloc, op(alloc, Op::Ineg)?)?;
    Ok(Prepared::point(alloc, 0, &guard, &negation)?)
}

/// The result of a tree: an int, a throw, or neither; and its steps.
#[derive(Clone, Copy, Debug, PartialEq, Eq)]
pub(crate) struct Given {
    int: Option<i32>,
    throw: Option<Throw>,
    steps: u128,
}

/// Returns an int after this many steps.
pub(crate) fn int(number: i32, steps: u128) -> Given {
    Given {
        int: Some(number),
        throw: None,
        steps,
    }
}

/// Returns a throw after this many steps.
pub(crate) fn thrown(throw: Throw, steps: u128) -> Given {
    Given {
        int: None,
        throw: Some(throw),
        steps,
    }
}

/// Returns the result of an outcome.
pub(crate) fn read(outcome: &Outcome, steps: u128) -> Given {
    let (int, throw) = match outcome {
        Outcome::Value(Value::Int(number)) => (Some(*number), None),
        Outcome::Value(_) => (None, None),
        Outcome::Thrown(throw) => (None, Some(*throw)),
    };
    Given { int, throw, steps }
}

/// Returns the result of a handle for arguments, given the validity of points.
pub(crate) fn walked(
    alloc: Global,
    valid: &[bool],
    handle: &Handle,
    arguments: &[Value],
) -> Result<Given, Failed> {
    let (outcome, steps) = evaluate(alloc, valid, &[], &[], handle, arguments)?;
    Ok(read(&outcome, steps))
}

/// Returns the result of a handle with its code for one int, by one more call on a stack.
pub(crate) fn ran(
    stack: &mut Stack,
    valid: &[bool],
    handle: &Prepared,
    argument: i32,
) -> Result<Given, Failed> {
    let arguments = [Value::Int(argument)];
    if !fits(handle.handle().method_type(), &arguments) {
        return Err(Failed);
    }
    if handle.handle().point_bound() > valid.len() {
        return Err(Failed);
    }
    if !lawful(&[], &[], handle.handle()) {
        return Err(Failed);
    }
    let here = Here {
        valid,
        targets: &[],
    };
    let (outcome, steps) = run(stack, &here, handle, &arguments)?;
    Ok(read(&outcome, steps))
}
