//! The work of one worker: it plans each part of its share in turn.

ghost use Rattle.std.specs.Prelude.{◌≡◌, ◌<◌, ◌+◌, ◌^◌, length, IfOk};
ghost use Rattle.mh_network.specs.Parts.{AreParts, IsPartOf, part_problem};
ghost use Rattle.mh_network.specs.Problems.{IsProblem};
ghost use Rattle.mh_plan.specs.inner.Shares.{IsShare};
ghost use Rattle.mh_plan.specs.Solved.{IsSolved};

use crate::gate::Gate;
use mh_base::{Listing, NoMemory};
use mh_flow::{FlowRun, max_flow};
use mh_network::{Part, Problem, parts_join};
use std::alloc::Global;

/// Plans the parts `worker`, `worker + workers`, `worker + 2 * workers` and so on.
pub(crate) fn plan_share<G: Gate>(
    alloc: Global,
    problem: &Problem,
    parts: &[Part],
    worker: usize,
    workers: usize,
    gate: &G,
) -> Result<Listing<FlowRun>, NoMemory>
    requires problem { IsProblem problem.now }
    requires parts { AreParts problem.now parts.now }
    requires worker { worker < workers }
    requires room { length parts.now + workers < 2 ^ 64 }
    ensures share { IfOk result (λ runs. IsShare problem.now parts.now workers worker runs) }
{
    parts_join(problem);
    let mut places = vec![in alloc; 0; problem.points()]?;
    let mut runs = Vec::new(alloc);
    let mut part = worker;
    while part < parts.len() {
        gate.enter(part);
        let run = solve(alloc, problem, &parts[part], &mut places);
        gate.leave(part);
        let run = run?;
        runs.push(run)?;
        part += workers;
    }
    Ok(Listing::from_vec(runs))
}

/// Returns a maximum flow of a part, by the part's numbers. `places` is working memory, with one
/// element for each point of the problem.
fn solve(
    alloc: Global,
    problem: &Problem,
    part: &Part,
    places: &mut [u32],
) -> Result<FlowRun, NoMemory>
    requires part { IsPartOf problem.now part.now }
    requires room { length places.old ≡ length problem.now.costs }
    ensures room { length places.new ≡ length places.old }
    ensures solved { IfOk result (λ run. IsSolved (part_problem problem.now part.now) run) }
{
    let problem = problem.part(alloc, part, places)?;
    let run = max_flow(alloc, &problem)?;
    Ok(run)
}
