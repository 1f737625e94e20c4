//! Checking a plan.

ghost use Rattle.std.specs.Prelude.{◌≡◌, ◌⊎◌, ◌↔◌, All, IfErr, IsTrue, MatchResult, OnOk, true, false};
ghost use Rattle.std.specs.List.Sorted.{IsStrictlyIncreasing};
ghost use Rattle.mh_cert.specs.Plans.{AreCharges, AreRows, Matches, plan_tests};
ghost use Rattle.mh_network.specs.Problems.{IsProblem, link_at};
ghost use Rattle.mh_network.specs.Selection.{IsBest, member};
ghost use Rattle.mh_base.specs.Tests.{Passes, Refuses};

use crate::bounds::{keeps_charges, keeps_costs, keeps_gains};
use crate::charges::are_charges;
use crate::fault::CheckFault;
use crate::laws::matching_is_best;
use crate::plan::Plan;
use crate::rows::are_rows;
use crate::sums::{balances, is_worth};
use crate::union::is_union;
use mh_base::{demand, is_ascending};
use mh_network::Problem;
use std::alloc::Global;

/// Tests that a plan matches its problem: its links are eligible and ascending, its points are the
/// ascending union of their needs, its rows and charges are a flow of positive amounts in order,
/// and its value is both the worth of the links and what the flow leaves of all gains. The links
/// are then best: no set of eligible links is worth more. O(links + points + rows).
///
/// Fails with the first part that is wrong, as `CheckFault` names them. Fails with `NoMemory` only
/// if an allocation is refused, and only if the links are eligible and ascending. If the plan
/// matches, it can only fail with `NoMemory`.
pub fn check(alloc: Global, problem: &Problem, plan: &Plan) -> Result<(), CheckFault>
    ensures matching { OnOk result (Matches problem.now plan.now) }
    ensures best { OnOk result (IsBest problem.now (member plan.now.links)) }
    ensures refused { IfErr result (λ e. (e ≡ CheckFault.NoMemory)
        ⊎ Refuses (plan_tests problem.now plan.now) e) }
    ensures exact { IfErr result (λ e. (e ≡ CheckFault.NoMemory)
        ⊎ (Matches problem.now plan.now → ⊥)) }
    ensures early { IfErr result (λ e. e ≡ CheckFault.NoMemory
        → All (λ j. (link_at problem.now j).eligible ≡ true) plan.now.links
        × IsStrictlyIncreasing plan.now.links) }
{
    matching_is_best(problem);
    test(alloc, problem, plan)
}

// Runs the tests of the parts, in order.
fn test(alloc: Global, problem: &Problem, plan: &Plan) -> Result<(), CheckFault>
    requires problem { IsProblem problem.now }
    ensures value { MatchResult result (λ _. Passes (plan_tests problem.now plan.now))
        (λ e. (e ≡ CheckFault.NoMemory) ⊎ Refuses (plan_tests problem.now plan.now) e) }
    ensures early { IfErr result (λ e. e ≡ CheckFault.NoMemory
        → All (λ j. (link_at problem.now j).eligible ≡ true) plan.now.links
        × IsStrictlyIncreasing plan.now.links) }
{
    let links = plan.links.as_slice();
    let points = plan.points.as_slice();
    let flow = plan.flow.as_slice();
    let charges = plan.charges.as_slice();
    demand(all_eligible(problem, links), CheckFault::LinkNotEligible)?;
    demand(is_ascending(links), CheckFault::LinksNotAscending)?;
    let is_union = is_union(alloc, problem, links, points)?;
    demand(is_union, CheckFault::PointsNotUnion)?;
    demand(are_amounts(problem, flow, charges), CheckFault::BadFlowRow)?;
    let keeps_gains = keeps_gains(alloc, problem, flow, charges)?;
    demand(keeps_gains, CheckFault::GainExceeded)?;
    let keeps_costs = keeps_costs(alloc, problem, flow)?;
    demand(keeps_costs, CheckFault::CostExceeded)?;
    let keeps_charges = keeps_charges(alloc, problem, charges)?;
    demand(keeps_charges, CheckFault::ChargeExceeded)?;
    demand(
        is_worth(plan.value, problem, links, points),
        CheckFault::ValueWrong,
    )?;
    demand(
        balances(plan.value, problem, flow, charges),
        CheckFault::FlowNotMatching,
    )
}

fn all_eligible(problem: &Problem, links: &[u32]) -> bool
    ensures value { IsTrue result ↔ All (λ j. (link_at problem.now j).eligible ≡ true) links.now }
{
    links.iter().all(|link| is_eligible(problem, *link))
}

// Returns whether the rows and the charges are positive amounts, in order.
fn are_amounts(problem: &Problem, flow: &[(u32, u32, u64)], charges: &[(u32, u64)]) -> bool
    ensures value { IsTrue result ↔ (AreRows problem.now flow.now
        × AreCharges problem.now charges.now) }
{
    are_rows(problem, flow) && are_charges(problem, charges)
}

fn is_eligible(problem: &Problem, link: u32) -> bool
    ensures value { result ≡ (link_at problem.now link).eligible }
{
    let link = link as usize;
    link < problem.links() && problem.eligible(link)
}
