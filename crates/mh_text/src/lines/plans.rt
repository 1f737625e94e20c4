//! Plans as lines of text.
ghost use Rattle.std.specs.Prelude.{◌≡◌, string_bytes, IfOk};
ghost use Rattle.std.specs.List.{sum_by};
ghost use Rattle.mh_text.specs.PlanLines.{phases_text, phases_bound as bound_of};
ghost use Rattle.mh_cert.specs.Display.{plan_text};

use mh_cert::Plan;
use mh_network::Problem;
use std::alloc::{AllocError, Global};

/// Returns the line of a plan, without its end: its links and points by number, its value, and the
/// sum of the amounts of its flow, as `links 0,1 points 0,1,2 value 1 flow 15`. An empty list is
/// `-`.
pub fn plan_line(alloc: Global, plan: &Plan) -> Result<String, AllocError>
    ensures value { IfOk result (λ s. string_bytes s ≡ plan_text plan.now) }
{
    format!(in alloc; "{plan}")
}

/// Returns the sum of counts.
fn sum_of(counts: &[u64]) -> u128
    ensures value { result ≡ sum_by (λ n. n) counts.now }
{
    let mut sum: u128 = 0;
    for count in counts {
        sum += u128::from(*count);
    }
    sum
}

/// Returns the sum, over all parts, of the number of links and points, plus 2 for each part.
fn phases_bound(problem: &Problem, phases: &[u64]) -> u128
    ensures value { result ≡ bound_of problem.now phases.now }
{
    problem.links() as u128 + problem.points() as u128 + 2 * phases.len() as u128
}

/// Returns the line of the phases of a problem's parts, without its end.
pub(crate) fn phases_line(
    alloc: Global,
    problem: &Problem,
    phases: &[u64],
) -> Result<String, AllocError>
    ensures value { IfOk result (λ s. string_bytes s ≡ phases_text problem.now phases.now) }
{
    let sum = sum_of(phases);
    let bound = phases_bound(problem, phases);
    format!(in alloc; "phases {sum} bound {bound}")
}
