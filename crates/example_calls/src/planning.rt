//! A plan for the hits of a snapshot: it is made, published and installed.

ghost use Rattle.std.specs.Prelude.{IfOk};
ghost use Rattle.mh_core.specs.Problems.{problem_at};
ghost use Rattle.mh_core.specs.Selection.{IsLeast, member};

use mh_core::{Runtime, SharedPlan};
use mh_plan::{OpenGate, plan};
use std::alloc::Global;
use std::thread::Threads;

/// Returns the links that are worth most for the hits of a snapshot, less the costs of their
/// points, and the fewest of such links; planned on one thread.
fn best_plan<R: Threads + Sync>(
    rt: &R,
    alloc: Global,
    runtime: &Runtime,
    snapshot: usize,
) -> anyhow::Result<SharedPlan>
    ensures best { IfOk result (λ plan. IsLeast (problem_at runtime.now.book.definition
        runtime.now.book.records snapshot) (member plan.links)) }
{
    let problem = runtime.book().problem(snapshot)?;
    let plan = plan(rt, alloc, &problem, 1, &OpenGate)?;
    let shared = SharedPlan::new(alloc, plan)?;
    Ok(shared)
}

/// Offers the best plan for snapshot 1, which is published if the checker accepts it.
pub(crate) fn publish<R: Print + Threads + Sync>(
    rt: &R,
    alloc: Global,
    runtime: &mut Runtime,
) -> anyhow::Result<()> {
    let plan = best_plan(rt, alloc, runtime, 1)?;
    let number = runtime.publish(1, plan)?;
    println!(rt; "publish: plan {number}")?;
    Ok(())
}

/// Installs plan 1: its links become inline caches of their sites.
pub(crate) fn install(rt: &impl Print, runtime: &mut Runtime) -> anyhow::Result<()> {
    let report = runtime.install(1)?;
    println!(rt; "install: {report}")?;
    Ok(())
}
