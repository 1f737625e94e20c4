//! The sum of the costs, and the greatest scale of them.

ghost use Rattle.std.specs.Prelude.{◌≡◌, ◌≤◌, ◌<◌, ◌+◌, ◌*◌};
ghost use Rattle.mh_network.specs.Limits.{greatest_sum};
ghost use Rattle.mh_network.specs.Problems.{sum_of_costs};
ghost use Rattle.mh_sweep.specs.Sweeps.{IsMostFor};

use mh_network::{GREATEST_SUM, Problem};

/// The greatest scale of costs that any sweep covers, in thousandths: a thousand times the costs.
pub const GREATEST_SCALE: u32 = 1_000_000;

/// Returns the sum of the costs of all points, at most 2^62.
pub(crate) fn all_costs(problem: &Problem) -> u64
    ensures value { result ≡ sum_of_costs problem.now }
{
    let mut sum: u64 = 0;
    for point in 0..problem.points() {
        sum += problem.cost(point);
    }
    sum
}

/// Returns the greatest scale at which this sum of costs is at most 2^62.
pub(crate) fn greatest_scale(costs: u64) -> u32
    ensures value { IsMostFor costs result }
{
    if costs <= GREATEST_SUM / 1_000_000 {
        return GREATEST_SCALE;
    }
    (GREATEST_SUM / costs) as u32
}
