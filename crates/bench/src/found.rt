//! The results of the tasks.

ghost use Rattle.std.specs.Prelude.{◌≤◌, IfOk, IfSome};
ghost use Rattle.bench.specs.Found.{IsFound, IsGreatestValue};

use crate::task::Task;
use mh_cert::Plan;
use mh_flow::max_flow;
use mh_network::{NoMemory, Problem, carried, flow_bounds_worth};
use mh_plan::plan_alone;
use mh_sweep::{Sweep, SweepFault, sweep_scales};
use std::alloc::Global;
use std::fmt;

/// The value of a maximum flow, and the phases that it took.
#[derive(Clone, Copy)]
pub(crate) struct Greatest {
    pub(crate) value: u128,
    pub(crate) phases: u64,
}

/// The result of a task.
#[derive(Drop)]
pub(crate) enum Found {
    /// The number of parts.
    Parts(usize),
    /// A maximum flow.
    Flow(Greatest),
    /// The best plan.
    Plan(Plan),
    /// The scale of each link.
    Sweep(Sweep),
}

/// Writes `parts 2`, `flow 16 phases 3`, the plan, or `scales 1000000 links 3`: the greatest scale,
/// and how many links are chosen at some scale.
impl fmt::Display for Found {
    fn fmt<W: fmt::Write>(&self, f: &mut fmt::Formatter<W>) -> fmt::Result {
        match self {
            Found::Parts(count) => write!(f, "parts {count}"),
            Found::Flow(flow) => write!(f, "flow {} phases {}", flow.value, flow.phases),
            Found::Plan(plan) => write!(f, "{plan}"),
            Found::Sweep(sweep) => {
                let chosen = sweep.until.as_slice().iter().filter(|it| **it > 0).count();
                write!(f, "scales {} links {chosen}", sweep.most)
            }
        }
    }
}

/// Does a task this many times, and returns the result of the last round, if any.
pub(crate) fn find(
    alloc: Global,
    problem: &Problem,
    task: Task,
    rounds: u64,
) -> Result<Option<Found>, SweepFault>
    ensures value { IfOk result (λ found. IfSome found (λ f. IsFound problem.now task f)) }
{
    let mut found = None;
    for _ in 0..rounds {
        found = Some(find_once(alloc, problem, task)?);
    }
    Ok(found)
}

/// Does a task.
fn find_once(alloc: Global, problem: &Problem, task: Task) -> Result<Found, SweepFault>
    ensures value { IfOk result (λ found. IsFound problem.now task found) }
{
    match task {
        Task::Parts => Ok(Found::Parts(problem.parts(alloc)?.len())),
        Task::Flow => Ok(Found::Flow(find_flow(alloc, problem)?)),
        Task::Plan => Ok(Found::Plan(plan_alone(alloc, problem)?)),
        Task::Sweep => Ok(Found::Sweep(sweep_scales(alloc, problem)?)),
    }
}

/// Finds a maximum flow.
fn find_flow(alloc: Global, problem: &Problem) -> Result<Greatest, NoMemory>
    ensures value { IfOk result (λ f. IsGreatestValue problem.now f.value) }
    ensures phases { IfOk result (λ f. 1 ≤ f.phases) }
{
    flow_bounds_worth(problem);
    let run = max_flow(alloc, problem)?;
    Ok(Greatest {
        value: carried(run.rows(), run.charges()),
        phases: run.phases(),
    })
}
