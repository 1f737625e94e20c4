//! Planning problems.

ghost use Rattle.std.specs.Prelude.{◌≡◌, ◌<◌, ◌≤◌, ◌^◌, ◌-ℤ◌, IfOk, length, pos};
ghost use Rattle.std.specs.List.Sorted.{IsPermutation};
ghost use Rattle.mh_cert.specs.Plans.{Matches};
ghost use Rattle.mh_network.specs.Parts.{AreParts};
ghost use Rattle.mh_network.specs.Problems.{IsProblem, sum_of_gains};
ghost use Rattle.mh_network.specs.Selection.{IsLeast, member, value_of};
ghost use Rattle.mh_plan.specs.Joined.{joined, rows_of};
ghost use Rattle.mh_plan.specs.Phases.{AreCounted, ArePhases};
ghost use Rattle.mh_plan.specs.inner.Shares.{AreShared, run_at};
ghost use Rattle.mh_plan.specs.Solved.{AreSolved};
ghost use Rattle.mh_base.specs.Limits.{most_workers};
ghost use Rattle.mh_network.specs.Limits.{greatest_sum};

use crate::gate::{Gate, OpenGate};
use crate::joining::{Charge, Row, join_charges, join_links, join_rows};
use crate::numbers::{ascending, needs_of};
use crate::runs::{Runs, solve_all, solve_alone};
use mh_base::{Listing, NoMemory};
use mh_cert::Plan;
use mh_network::{
    Part, Problem, all_gains, amounts_are_within_gains, carried, lists_add_up, parts_join,
};
use std::alloc::Global;
use std::thread::Threads;

/// Computes the best plan of a problem with the fewest links, and a flow that proves that no set of
/// links is worth more. The result does not depend on the number of workers, 1 to 64. Worker k
/// plans the parts k, k + workers and so on, each worker in a thread of its own if one can be
/// started, and reports to `gate` when it begins and ends a part.
///
/// Fails only if an allocation is refused.
pub fn plan<R: Threads + Sync, G: Gate>(
    rt: &R,
    alloc: Global,
    problem: &Problem,
    workers: usize,
    gate: &G,
) -> Result<Plan, NoMemory>
    requires some { 0 < workers }
    requires few { workers ≤ most_workers }
    ensures matching { IfOk result (λ plan. Matches problem.now plan) }
    ensures least { IfOk result (λ plan. IsLeast problem.now (member plan.links)) }
{
    let (plan, _) = plan_counted(rt, alloc, problem, workers, gate)?;
    Ok(plan)
}

/// Returns the plan that `plan` returns, and for each part, in the order of `Problem::parts`, the
/// number of phases that its flow took: 1 if it carries nothing over needs, otherwise more, and at
/// most 2 more than it has links and points.
///
/// Fails only if an allocation is refused.
pub fn plan_counted<R: Threads + Sync, G: Gate>(
    rt: &R,
    alloc: Global,
    problem: &Problem,
    workers: usize,
    gate: &G,
) -> Result<(Plan, Vec<u64>), NoMemory>
    requires some { 0 < workers }
    requires few { workers ≤ most_workers }
    ensures matching { IfOk result (λ answer. Matches problem.now answer.0) }
    ensures least { IfOk result (λ answer. IsLeast problem.now (member answer.0.links)) }
    ensures phases { IfOk result (λ answer. ArePhases problem.now answer.0.flow answer.1.items) }
{
    let parts = problem.parts(alloc)?;
    let workers = workers.min(parts.len()).max(1);
    let runs = solve_all(rt, alloc, problem, &parts, workers, gate)?;
    let plan = join_plan(alloc, problem, &parts, &runs)?;
    let phases = phases_of(alloc, &parts, &runs)?;
    Ok((plan, phases))
}

/// Returns the plan that `plan` returns, computed on the thread of the caller: it starts no thread,
/// and needs no runtime that could.
///
/// Fails only if an allocation is refused.
pub fn plan_alone(alloc: Global, problem: &Problem) -> Result<Plan, NoMemory>
    ensures matching { IfOk result (λ plan. Matches problem.now plan) }
    ensures least { IfOk result (λ plan. IsLeast problem.now (member plan.links)) }
{
    let parts = problem.parts(alloc)?;
    let runs = solve_alone(alloc, problem, &parts, &OpenGate)?;
    join_plan(alloc, problem, &parts, &runs)
}

/// Returns the plan that the results of the parts' runs make together.
fn join_plan(
    alloc: Global,
    problem: &Problem,
    parts: &[Part],
    runs: &Runs,
) -> Result<Plan, NoMemory>
    requires problem { IsProblem problem.now }
    requires parts { AreParts problem.now parts.now }
    requires shared { AreShared parts.now runs.now }
    requires solved { AreSolved problem.now parts.now (run_at runs.now) }
    ensures matching { IfOk result (λ plan. Matches problem.now plan) }
    ensures least { IfOk result (λ plan. IsLeast problem.now (member plan.links)) }
    ensures flow { IfOk result (λ plan. IsPermutation
        (joined (rows_of parts.now (run_at runs.now)) (length parts.now)) plan.flow) }
{
    parts_join(problem);
    lists_add_up();
    amounts_are_within_gains();
    let chosen = join_links(alloc, parts, runs)?;
    let links = ascending(alloc, problem.links(), &chosen)?;
    let needs = needs_of(alloc, problem, &links)?;
    let points = ascending(alloc, problem.points(), &needs)?;
    let flow = join_rows(alloc, parts, runs)?;
    let charges = join_charges(alloc, parts, runs)?;
    Ok(Plan {
        value: left_of_gains(problem, &flow, &charges),
        links: Listing::from_vec(links),
        points: Listing::from_vec(points),
        flow: Listing::from_vec(flow),
        charges: Listing::from_vec(charges),
    })
}

/// Returns what a flow leaves of all gains.
fn left_of_gains(problem: &Problem, flow: &[Row], charges: &[Charge]) -> i64
    requires small { value_of flow.now charges.now ≤ greatest_sum }
    ensures value { result ≡ pos (sum_of_gains problem.now) -ℤ pos (value_of flow.now charges.now) }
{
    all_gains(problem) as i64 - carried(flow, charges) as i64
}

/// Returns the number of phases of each part.
fn phases_of(alloc: Global, parts: &[Part], runs: &Runs) -> Result<Vec<u64>, NoMemory>
    requires shared { AreShared parts.now runs.now }
    ensures counted { IfOk result (λ phases. AreCounted parts.now (run_at runs.now) phases.items) }
{
    let mut phases = Vec::new(alloc);
    for part in 0..parts.len() {
        let run = runs.run(parts, part)?;
        phases.push(run.phases())?;
    }
    Ok(phases)
}
