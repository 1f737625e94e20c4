//! Counts and times calls.

ghost use Rattle.std.specs.Prelude.{◌≡◌, IfOk};
ghost use Rattle.bench.specs.Called.{MayRun};

use crate::called::{Called, may_run};
use crate::calling::{eval_rounds, run_rounds};
use crate::machines::step_rounds;
use crate::request::{Calls, Way};
use crate::subject::{Subject, count};
use crate::tally::Tally;
use mh_code::Prepared;
use mh_eval::evaluate;
use mh_run::{Here, Stack};
use mh_tree::Handle;
use std::alloc::Global;
use std::rt::Clock;
use std::time::Instant;

/// Makes this many calls in every way of each call of a script, and prints a line for each.
pub(crate) fn measure_all(
    rt: &(impl Print + Clock),
    alloc: Global,
    input: &[u8],
    rounds: u64,
) -> anyhow::Result<()> {
    for way in Way::ALL {
        measure_places(rt, alloc, input, way, rounds)?;
    }
    Ok(())
}

/// Makes this many calls in one way of each call of a script.
fn measure_places(
    rt: &(impl Print + Clock),
    alloc: Global,
    input: &[u8],
    way: Way,
    rounds: u64,
) -> anyhow::Result<()> {
    for place in 0..count(alloc, input)? {
        let calls = Calls {
            way,
            place,
            rounds,
            timed: false,
        };
        measure(rt, alloc, input, calls)?;
    }
    Ok(())
}

/// Makes calls, and prints the outcome of one, the sums of all and, if they are timed, their
/// nanoseconds.
pub(crate) fn measure(
    rt: &(impl Print + Clock),
    alloc: Global,
    input: &[u8],
    calls: Calls,
) -> anyhow::Result<()> {
    let subject = Subject::read(alloc, input, calls.place)?;
    tell_outcome(rt, alloc, calls, &subject)?;
    tell_sums(rt, alloc, calls, &subject)
}

/// Prints the outcome of one call.
fn tell_outcome(
    rt: &impl Print,
    alloc: Global,
    calls: Calls,
    subject: &Subject,
) -> anyhow::Result<()> {
    let Called {
        valid,
        levels,
        targets,
        handle,
        arguments,
    } = subject.called()?;
    let (outcome, _) = evaluate(alloc, valid, levels, targets, handle, arguments)?;
    print!(rt; "{} {}: {outcome}", calls.way.word(), calls.place)?;
    Ok(())
}

/// Makes the calls, and prints their sums and, if they are timed, their nanoseconds.
fn tell_sums(
    rt: &(impl Print + Clock),
    alloc: Global,
    calls: Calls,
    subject: &Subject,
) -> anyhow::Result<()> {
    let Calls { way, rounds, .. } = calls;
    let start = Instant::now(rt)?;
    let tally = call_rounds(alloc, way, subject, rounds)?;
    let took = start.elapsed(rt)?.as_nanos();
    let Tally { answers, steps } = tally;
    print!(rt; ", {rounds} calls, answers {answers}, steps {steps}")?;
    if calls.timed {
        print!(rt; ", {took} ns")?;
    }
    println!(rt; "")?;
    Ok(())
}

/// Makes this many calls in a way.
fn call_rounds(alloc: Global, way: Way, subject: &Subject, rounds: u64) -> anyhow::Result<Tally> {
    let called = subject.called()?;
    if !may_run(&called) {
        anyhow::bail!("the arguments do not fit");
    }
    match way {
        Way::Run => run_calls(alloc, &called, rounds),
        Way::Eval => eval_calls(alloc, &called, rounds),
        Way::Step | Way::Flush => step_rounds(alloc, way, subject, rounds),
    }
}

/// Makes this many calls by `run`, of trees that are prepared first.
fn run_calls(alloc: Global, called: &Called<'_>, rounds: u64) -> anyhow::Result<Tally>
    requires may { MayRun called.now }
{
    let prepared = Prepared::new(alloc, called.handle)?;
    let targets = prepare_all(alloc, called.targets)?;
    let mut stack = Stack::new(alloc)?;
    let here = Here {
        valid: called.valid,
        targets: targets.as_slice(),
    };
    run_rounds(&mut stack, &here, &prepared, called.arguments, rounds)
}

/// Prepares trees.
fn prepare_all(alloc: Global, targets: &[Handle]) -> anyhow::Result<Vec<Prepared>>
    ensures value { IfOk result (λ v. v.items ≡ targets.now) }
{
    let mut prepared = Vec::new(alloc);
    for target in targets {
        prepared.push(Prepared::new(alloc, target)?)?;
    }
    Ok(prepared)
}

/// Makes this many calls by `eval`.
fn eval_calls(alloc: Global, called: &Called<'_>, rounds: u64) -> anyhow::Result<Tally>
    requires may { MayRun called.now }
{
    let mut stack = mh_eval::Stack::new(alloc)?;
    eval_rounds(&mut stack, called, rounds)
}
