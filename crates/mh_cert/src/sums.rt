//! The worth of a plan's links, and what its flow leaves of all gains.

ghost use Rattle.std.specs.Prelude.{◌≡◌, ◌≤◌, ◌<◌, ◌+◌, ◌^◌, ◌↔◌, ℕ, All, IsTrue, length, pos, ◌-ℤ◌, true};
ghost use Rattle.std.specs.List.Sorted.{IsStrictlyIncreasing};
ghost use Rattle.mh_cert.specs.Plans.{IsUnion};
ghost use Rattle.mh_network.specs.Problems.{IsProblem, link_at, gain_of, charge_of, cost_of, needs_point, sum_of_gains, sum_of_charges, sum_of_costs};
ghost use Rattle.mh_network.specs.Selection.{charge_sum, cost_sum, from_link, gain_sum, into_charge, member, price, value_of, worth};
ghost use Rattle.mh_network.specs.Limits.{greatest_sum};

use mh_network::{Problem, all_gains, amounts_are_within_gains, carried, lists_add_up};

// Returns whether the value is the worth of the links.
pub(crate) fn is_worth(value: i64, problem: &Problem, links: &[u32], points: &[u32]) -> bool
    requires problem { IsProblem problem.now }
    requires eligible { All (λ j. (link_at problem.now j).eligible ≡ true) links.now }
    requires ascending { IsStrictlyIncreasing links.now }
    requires union { IsUnion problem.now links.now points.now }
    ensures value { IsTrue result ↔ (value ≡ worth problem.now (member links.now)) }
{
    let (gain, price) = gain_and_price(problem, links, points);
    is_difference(value, gain, price)
}

// Returns the gains of the links, and their price: the costs of the points and their charges.
fn gain_and_price(problem: &Problem, links: &[u32], points: &[u32]) -> (u64, u64)
    requires problem { IsProblem problem.now }
    requires eligible { All (λ j. (link_at problem.now j).eligible ≡ true) links.now }
    requires ascending { IsStrictlyIncreasing links.now }
    requires union { IsUnion problem.now links.now points.now }
    ensures gain { result.0 ≡ gain_sum problem.now (member links.now) }
    ensures price { result.1 ≡ price problem.now (member links.now) }
    ensures small { (result.0 ≤ greatest_sum) × (result.1 ≤ greatest_sum) }
{
    lists_add_up();
    (
        gain_of_links(problem, links),
        cost_of_points(problem, points) + charge_of_links(problem, links),
    )
}

// Returns whether the value is what the flow leaves of all gains.
pub(crate) fn balances(
    value: i64,
    problem: &Problem,
    flow: &[(u32, u32, u64)],
    charges: &[(u32, u64)],
) -> bool
    requires problem { IsProblem problem.now }
    requires needed { All (λ r. needs_point problem.now r.0 r.1 ≡ true) flow.now }
    requires listed { All (λ r. r.0 < length problem.now.links) charges.now }
    requires gains { (j : ℕ) → from_link flow.now j + into_charge charges.now j
        ≤ gain_of problem.now j }
    ensures value { IsTrue result ↔ (value ≡ pos (sum_of_gains problem.now) -ℤ pos
        (value_of flow.now charges.now)) }
{
    amounts_are_within_gains();
    is_difference(value, all_gains(problem), carried(flow, charges) as u64)
}

fn is_difference(value: i64, one: u64, other: u64) -> bool
    requires one { one ≤ greatest_sum }
    requires other { other ≤ greatest_sum }
    ensures value { IsTrue result ↔ (value ≡ pos one -ℤ pos other) }
{
    value == one as i64 - other as i64
}

fn gain_of_links(problem: &Problem, links: &[u32]) -> u64
    requires problem { IsProblem problem.now }
    requires inside { All (λ j. j < length problem.now.links) links.now }
    requires ascending { IsStrictlyIncreasing links.now }
    ensures value { result ≡ gain_sum problem.now (member links.now) }
    ensures small { result ≤ greatest_sum }
{
    lists_add_up();
    let mut sum: u64 = 0;
    for link in links {
        sum += problem.gain(*link as usize);
    }
    sum
}

fn charge_of_links(problem: &Problem, links: &[u32]) -> u64
    requires problem { IsProblem problem.now }
    requires inside { All (λ j. j < length problem.now.links) links.now }
    requires ascending { IsStrictlyIncreasing links.now }
    ensures value { result ≡ charge_sum problem.now (member links.now) }
    ensures within { result ≤ sum_of_charges problem.now }
{
    lists_add_up();
    let mut sum: u64 = 0;
    for link in links {
        sum += problem.charge(*link as usize);
    }
    sum
}

fn cost_of_points(problem: &Problem, points: &[u32]) -> u64
    requires problem { IsProblem problem.now }
    requires inside { All (λ p. p < length problem.now.costs) points.now }
    requires ascending { IsStrictlyIncreasing points.now }
    ensures value { result ≡ cost_sum problem.now (member points.now) }
    ensures within { result ≤ sum_of_costs problem.now }
{
    lists_add_up();
    let mut sum: u64 = 0;
    for point in points {
        sum += problem.cost(*point as usize);
    }
    sum
}
