//! Calls of the site 0 with one whole number.

use mh_live::{CallFault, ListName, Live, Pass, PassAnswer, Settled};
use mh_type::{Outcome, Value};
use std::sync::Wait;

/// The result of a call: an int, or `None` for any other outcome; the steps; and the number of
/// controls.
#[derive(Clone, Copy, Debug, PartialEq, Eq)]
pub(crate) struct CallAnswer {
    value: Option<i32>,
    steps: u128,
    front: u64,
}

impl CallAnswer {
    /// Returns the number of controls of the world that answered the call.
    pub(crate) fn front(&self) -> u64 {
        self.front
    }
}

/// Returns the result that a call is to have.
pub(crate) fn given(value: i32, steps: u128, front: u64) -> CallAnswer {
    CallAnswer {
        value: Some(value),
        steps,
        front,
    }
}

/// Returns the result in an answer.
fn read(answer: &PassAnswer) -> CallAnswer {
    let value = match &answer.outcome {
        Outcome::Value(Value::Int(value)) => Some(*value),
        _ => None,
    };
    CallAnswer {
        value,
        steps: answer.steps,
        front: answer.front,
    }
}

/// Calls the site with this argument.
pub(crate) fn call<N: ListName>(
    pass: &mut Pass<N>,
    argument: i32,
) -> Result<CallAnswer, CallFault> {
    let arguments = [Value::Int(argument)];
    let answer = pass.call(0, &arguments)?;
    Ok(read(&answer))
}

/// Returns the hits of the link 0, unflushed and in all.
pub(crate) fn hits<N: ListName>(pass: &Pass<N>) -> Option<(u64, u64)> {
    if pass.links() == 0 {
        return None;
    }
    Some((pass.unflushed(0), pass.made(0)))
}

/// Returns the hits of the link 0: made, flushed, and not flushed.
pub(crate) fn sums<N: ListName>(settled: &Settled<N>) -> Option<(u128, u64, u128)> {
    if settled.links() == 0 {
        return None;
    }
    Some((settled.made(0), settled.total(0), settled.unflushed(0)))
}

/// Flushes a pass, and returns whether this succeeded before any change.
pub(crate) fn flush<N: ListName, R: Wait>(rt: &R, live: &Live<N>, pass: &mut Pass<N>) -> bool {
    match live.flush(rt, pass) {
        Ok(receipt) => receipt.front().len() == 0,
        Err(_) => false,
    }
}
