//! Dividing a script between the workers and the main thread.
ghost use Rattle.std.specs.Prelude.{◌≡◌, ◌++◌, IfOk, OnOk};
ghost use Rattle.mh_stress.specs.Divisions.{calls_in, calls_of, changes_in, changes_of};

use mh_core::{Arguments, Event};
use mh_json::Step;
use std::alloc::{AllocError, Global};

/// A call of a script, and the worker that makes it.
#[derive(Drop)]
pub struct Call {
    pub worker: u32,
    pub site: usize,
    pub arguments: Arguments,
}

/// The calls of a script, and its other events except flushes, each in their order.
#[derive(Drop)]
pub struct Division {
    pub calls: Vec<Call>,
    pub changes: Vec<Step>,
}

/// Returns the calls among these steps, and the changes.
pub(crate) fn divide(alloc: Global, steps: Vec<Step>) -> Result<Division, AllocError>
    ensures calls { IfOk result (λ d. d.calls.items ≡ calls_in steps.items) }
    ensures changes { IfOk result (λ d. d.changes.items ≡ changes_in steps.items) }
{
    let mut calls = Vec::new(alloc);
    let mut changes = Vec::new(alloc);
    for step in steps {
        sort_in(&mut calls, &mut changes, step)?;
    }
    Ok(Division { calls, changes })
}

/// Appends a step to the list that it belongs to.
fn sort_in(calls: &mut Vec<Call>, changes: &mut Vec<Step>, step: Step) -> Result<(), AllocError>
    ensures calls { OnOk result (calls.new.items ≡ calls.old.items ++ calls_of step) }
    ensures changes { OnOk result (changes.new.items ≡ changes.old.items ++ changes_of step) }
{
    match step {
        Step::Ask(
            Event::Call {
                worker,
                site,
                arguments,
            },
        ) => calls.push(Call {
            worker,
            site,
            arguments,
        })?,
        Step::Ask(Event::Flush { .. }) => {}
        other => changes.push(other)?,
    }
    Ok(())
}
