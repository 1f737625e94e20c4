//! Maximum flows.

ghost use Rattle.std.specs.Prelude.{◌≡◌, ◌≤◌, ◌<◌, ◌+◌, ◌+ℤ◌, ◌↔◌, [], pos, length, All, AllPairs, IfOk};
ghost use Rattle.std.specs.List.Sorted.{IsStrictlyIncreasing};
ghost use Rattle.mh_network.specs.Problems.{sum_of_gains};
ghost use Rattle.mh_network.specs.Selection.{IsBefore, IsChargeBefore, IsFlow, IsLeast, worth, member, value_of};
ghost use Rattle.mh_flow.specs.Phases.{IsRunOf};

use crate::blocking::block;
use crate::layer_run::{FlowRun, LayerRun};
use mh_base::NoMemory;
use mh_network::{Problem, cuts_are_least, needs_are_of_links};
use std::alloc::Global;

/// Computes a maximum flow of a problem, using level graphs and blocking flows (Dinic's algorithm),
/// and the links that its source still reaches, ascending, which are the least best links (Picard
/// 1976). The rows are positive amounts by link and then point, the charges positive amounts by
/// link. It takes one phase if no need carries anything, otherwise more, and at most two more than
/// there are links and points.
///
/// Fails only if an allocation is refused.
pub fn max_flow(alloc: Global, problem: &Problem) -> Result<FlowRun, NoMemory>
    ensures flow { IfOk result (λ run. IsFlow problem.now run.rows run.charges) }
    ensures positive { IfOk result (λ run. All (λ r. 0 < r.2) run.rows) }
    ensures ordered { IfOk result (λ run. AllPairs IsBefore run.rows) }
    ensures paid { IfOk result (λ run. All (λ r. 0 < r.1) run.charges) }
    ensures paid_ordered { IfOk result (λ run. AllPairs IsChargeBefore run.charges) }
    ensures equal { IfOk result (λ run. worth problem.now (member run.reached) +ℤ pos
        (value_of run.rows run.charges) ≡ pos (sum_of_gains problem.now)) }
    ensures least { IfOk result (λ run. IsLeast problem.now (member run.reached)) }
    ensures ascending { IfOk result (λ run. IsStrictlyIncreasing run.reached) }
    ensures taken { IfOk result (IsRunOf problem.now) }
    ensures idle { IfOk result (λ run. (run.phases ≡ 1) ↔ (run.rows ≡ [])) }
    ensures some { IfOk result (λ run. 1 ≤ run.phases) }
    ensures phases { IfOk result (λ run. run.phases
        ≤ length problem.now.links + length problem.now.costs + 2) }
{
    needs_are_of_links();
    cuts_are_least();
    let mut run = LayerRun::new(alloc, problem)?;
    loop {
        run.build_levels()?;
        if !run.reaches_sink() {
            let flow = run.finish()?;
            return Ok(flow);
        }
        block(&mut run)?;
    }
}
