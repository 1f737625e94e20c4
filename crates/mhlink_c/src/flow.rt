//! The planner over arrays, with the flow that proves its selection optimal.

ghost use Rattle.std.specs.Prelude.{◌≡◌, ◌≢◌, ◌⊎◌, ◌<◌, All, IfErr, IfOk, OnOk, drop, length};
ghost use Rattle.mh_base.specs.Tests.{Passes};
ghost use Rattle.mh_cert.specs.declared.plan.Plan.{Plan as PlanOf};
ghost use Rattle.mh_network.specs.Problems.{large_tests, problem_of};
ghost use Rattle.mhlink_c.specs.Flows.{AreAmounts, AreSums, HasNoRoom, IsLeastPlan, IsWritten};
ghost use Rattle.mhlink_c.specs.Problems.{HasNeeds, RefusesRows, rows_of};
ghost use Rattle.mhlink_c.specs.Statuses.{status_of};
ghost use Rattle.mhlink_c.specs.declared.failure.Failure.{Failure as FaultOf};
ghost use Rattle.mhlink_c.specs.declared.failure.Failure.TheVariants.{Short};

use crate::amounts::{given_for, got_by, paid_by};
use crate::buffers::fill;
use crate::failure::Failure;
use crate::planning::{MhlinkLink, best_plan};
use mh_core::Plan;
use mh_network::amounts_are_within_gains;
use std::alloc::Global;

/// Selects links as `mhlink_plan_problem` does, and stores more of the plan: the points that the
/// links need, and the flow that proves that no links are worth more. `paid` gets the amount that
/// each link pays of its charge, `given` the amount that is sent for each need, at the need's index
/// in `needs` (if several links share a need there, the sum of their amounts), and `gets` the
/// amount that each point gets. The rest of each array is left unmodified. If the status is not 0,
/// nothing is stored but `count` and `points_count`, and these only if an array is too short.
#[unsafe(no_mangle)]
pub extern "C" fn mhlink_plan_problem_flow(
    alloc: Global,
    costs: &[u64],
    links: &[MhlinkLink],
    needs: &[u32],
    chosen: &mut [u32],
    count: &mut usize,
    value: &mut i64,
    points: &mut [u32],
    points_count: &mut usize,
    paid: &mut [u64],
    given: &mut [u64],
    gets: &mut [u64],
) -> u32
    ensures planned { result ≡ 0 → (plan : PlanOf)
        × (IsLeastPlan (problem_of (rows_of needs.now links.now) costs.now) plan
        × (IsWritten plan count.new chosen.new points_count.new points.new value.new
        × AreAmounts needs.now links.now (length costs.now) plan paid.new given.new gets.new)) }
    ensures there { result ≡ 0 → All (HasNeeds needs.now) links.now }
    ensures tested { result ≡ 0 → Passes (large_tests (rows_of needs.now links.now) costs.now) }
    ensures untouched { result ≢ 0 → (chosen.new ≡ chosen.old) × (points.new ≡ points.old) }
    ensures value { result ≢ 0 → value.new ≡ value.old }
    ensures amounts { result ≢ 0 → (paid.new ≡ paid.old) × ((given.new ≡ given.old)
        × (gets.new ≡ gets.old)) }
    ensures rest { result ≡ 0 → (drop count.new chosen.new ≡ drop count.new chosen.old)
        × (drop points_count.new points.new ≡ drop points_count.new points.old) }
    ensures amounts_rest { result ≡ 0
        → (drop (length links.now) paid.new ≡ drop (length links.now) paid.old)
        × ((drop (length needs.now) given.new ≡ drop (length needs.now) given.old)
        × (drop (length costs.now) gets.new ≡ drop (length costs.now) gets.old)) }
    ensures uncounted { result ≢ 0 → result ≢ status_of Short → (count.new ≡ count.old)
        × (points_count.new ≡ points_count.old) }
    ensures refused { result ≢ 0 → (e : FaultOf) × ((result ≡ status_of e)
        × (RefusesRows needs.now links.now costs.now e ⊎ HasNoRoom
        (problem_of (rows_of needs.now links.now) costs.now) count.new points_count.new
        (length chosen.old < count.new ⊎ length points.old < points_count.new
        ⊎ length paid.old < length links.now ⊎ length given.old < length needs.now
        ⊎ length gets.old < length costs.now) e)) }
{
    match plan_with_flow(alloc, costs, links, needs) {
        Ok(told) => {
            let (links, needed) = (told.plan.links.as_slice(), told.plan.points.as_slice());
            *count = links.len();
            *points_count = needed.len();
            if chosen.len() < links.len()
                || points.len() < needed.len()
                || paid.len() < told.paid.len()
                || given.len() < told.given.len()
                || gets.len() < told.gets.len()
            {
                return Failure::Short.number();
            }
            fill(links, chosen);
            fill(needed, points);
            fill(&told.paid, paid);
            fill(&told.given, given);
            fill(&told.gets, gets);
            *value = told.plan.value;
            0
        }
        Err(fault) => fault.number(),
    }
}

// A plan, and the amounts of its flow by link, by need and by point.
#[derive(Drop)]
struct PlanFlow {
    plan: Plan,
    paid: Vec<u64>,
    given: Vec<u64>,
    gets: Vec<u64>,
}

// Plans a problem from arrays, and returns the amounts of its flow.
fn plan_with_flow(
    alloc: Global,
    costs: &[u64],
    links: &[MhlinkLink],
    needs: &[u32],
) -> Result<PlanFlow, Failure>
    ensures plan { IfOk result (λ told. IsLeastPlan
        (problem_of (rows_of needs.now links.now) costs.now) told.plan) }
    ensures amounts { IfOk result (λ told. AreSums needs.now links.now (length costs.now) told.plan
        told.paid.items told.given.items told.gets.items) }
    ensures there { OnOk result (All (HasNeeds needs.now) links.now) }
    ensures tested { OnOk result
        (Passes (large_tests (rows_of needs.now links.now) costs.now)) }
    ensures refused { IfErr result (RefusesRows needs.now links.now costs.now) }
{
    let plan = best_plan(alloc, costs, links, needs)?;
    amounts_are_within_gains();
    let flow = plan.flow.as_slice();
    let paid = paid_by(alloc, links.len(), plan.charges.as_slice())?;
    let given = given_for(alloc, links, needs, flow)?;
    let gets = got_by(alloc, costs.len(), flow)?;
    Ok(PlanFlow {
        plan,
        paid,
        given,
        gets,
    })
}
