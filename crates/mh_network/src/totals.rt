//! Totals of the gains of all links, and of a flow.

ghost use Rattle.std.specs.Prelude.{◌≡◌, ◌≤◌, ◌^◌};
ghost use Rattle.mh_network.specs.Problems.{sum_of_gains};
ghost use Rattle.mh_network.specs.Selection.{value_of};
ghost use Rattle.mh_network.specs.Limits.{greatest_sum};

use crate::problem::Problem;

/// Returns the sum of the gains of all links of a problem, at most 2^62. O(links).
pub fn all_gains(problem: &Problem) -> u64
    ensures value { result ≡ sum_of_gains problem.now }
    ensures small { result ≤ greatest_sum }
{
    let mut sum: u64 = 0;
    for link in 0..problem.links() {
        sum += problem.gain(link);
    }
    sum
}

/// Returns the value of a flow with these rows and charges, whatever they are: the sum never wraps.
/// A flow of a problem has at most the value 2^62. O(rows).
pub fn carried(flow: &[(u32, u32, u64)], charges: &[(u32, u64)]) -> u128
    ensures value { result ≡ value_of flow.now charges.now }
{
    let mut sum: u128 = 0;
    for row in flow {
        sum += u128::from(row.2);
    }
    for charge in charges {
        sum += u128::from(charge.1);
    }
    sum
}
