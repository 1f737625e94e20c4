//! The runs of all parts, as the workers deliver them.

ghost use Rattle.std.specs.Prelude.{◌≡◌, ◌<◌, ◌≤◌, ◌+◌, ◌^◌, ◌↔◌, length, All, IfOk, IsOk, IsTrue};
ghost use Rattle.mh_network.specs.Parts.{AreParts};
ghost use Rattle.mh_network.specs.Problems.{IsProblem};
ghost use Rattle.mh_plan.specs.inner.Shares.{AreShared, IsShare, run_at};
ghost use Rattle.mh_plan.specs.Solved.{AreSolved};

use crate::gate::Gate;
use crate::worker::plan_share;
use mh_base::{Listing, NoMemory};
use mh_flow::FlowRun;
use mh_network::{Part, Problem};
use std::alloc::Global;
use std::thread;
use std::thread::Threads;

/// The runs of a worker's parts, in their order, or the error that it found no memory.
pub(crate) type Share = Result<Listing<FlowRun>, NoMemory>;

/// The shares of the workers, one after another.
#[derive(Drop)]
pub(crate) struct Runs {
    shares: Vec<Share>,
    workers: usize,
}

/// Plans all parts: a single worker on the thread of the caller, several in threads of their own.
pub(crate) fn solve_all<R: Threads + Sync, G: Gate>(
    rt: &R,
    alloc: Global,
    problem: &Problem,
    parts: &[Part],
    workers: usize,
    gate: &G,
) -> Result<Runs, NoMemory>
    requires problem { IsProblem problem.now }
    requires parts { AreParts problem.now parts.now }
    requires workers { 0 < workers }
    requires room { length parts.now + workers < 2 ^ 64 }
    ensures shared { IfOk result (λ runs. AreShared parts.now runs) }
    ensures solved { IfOk result (λ runs. AreSolved problem.now parts.now (run_at runs)) }
{
    if workers == 1 {
        return solve_alone(alloc, problem, parts, gate);
    }
    solve_parts(rt, alloc, problem, parts, workers, gate)
}

/// Plans all parts, with worker k of `workers` planning the parts k, k + workers and so on, each in
/// a thread of its own if one can be started.
fn solve_parts<R: Threads + Sync, G: Gate>(
    rt: &R,
    alloc: Global,
    problem: &Problem,
    parts: &[Part],
    workers: usize,
    gate: &G,
) -> Result<Runs, NoMemory>
    requires problem { IsProblem problem.now }
    requires parts { AreParts problem.now parts.now }
    requires workers { 0 < workers }
    requires room { length parts.now + workers < 2 ^ 64 }
    ensures shared { IfOk result (λ runs. AreShared parts.now runs) }
    ensures solved { IfOk result (λ runs. AreSolved problem.now parts.now (run_at runs)) }
{
    let share = |worker: usize| -> Share
        requires { (worker < workers) × IsProblem problem.now × AreParts problem.now parts.now
            × (length parts.now + workers < 2 ^ 64) }
        ensures { IfOk result (λ runs. IsShare problem.entry.now parts.entry.now workers worker
            runs) }
    { plan_share(alloc, problem, parts, worker, workers, gate) };
    let shares = thread::map_indices(rt, alloc, workers, &share)?;
    if !are_ok(&shares) {
        return Err(NoMemory);
    }
    Ok(Runs { shares, workers })
}

/// Plans all parts in turn, on the thread of the caller.
pub(crate) fn solve_alone<G: Gate>(
    alloc: Global,
    problem: &Problem,
    parts: &[Part],
    gate: &G,
) -> Result<Runs, NoMemory>
    requires problem { IsProblem problem.now }
    requires parts { AreParts problem.now parts.now }
    requires room { length parts.now + 1 < 2 ^ 64 }
    ensures shared { IfOk result (λ runs. AreShared parts.now runs) }
    ensures solved { IfOk result (λ runs. AreSolved problem.now parts.now (run_at runs)) }
{
    let all = plan_share(alloc, problem, parts, 0, 1, gate)?;
    let mut shares = Vec::with_capacity(alloc, 1)?;
    shares.push_reserved(Ok(all));
    Ok(Runs { shares, workers: 1 })
}

fn are_ok(shares: &[Share]) -> bool
    ensures value { IsTrue result ↔ All (λ share. IsOk share) shares.now }
{
    shares.iter().all(|share| share.is_ok())
}

impl Runs {
    /// Returns the run of a part.
    pub(crate) fn run(&self, parts: &[Part], part: usize) -> Result<&FlowRun, NoMemory>
        requires shared { AreShared parts.now self.now }
        requires part { part < length parts.now }
        ensures value { IfOk result (λ run. run.now ≡ run_at self.now part) }
    {
        match &self.shares[part % self.workers] {
            Ok(runs) => Ok(&runs.as_slice()[part / self.workers]),
            Err(error) => Err(*error),
        }
    }
}
