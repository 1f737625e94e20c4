//! The planner over arrays, without a machine.

ghost use Rattle.std.specs.Prelude.{◌≡◌, ◌≢◌, ◌⊎◌, ◌≤◌, drop, length, take, All, IfErr, IfOk, OnErr, OnOk};
ghost use Rattle.mh_base.specs.Tests.{Passes};
ghost use Rattle.mh_network.specs.Problems.{large_tests, problem_of};
ghost use Rattle.mhlink_c.specs.Flows.{IsLeastPlan};
ghost use Rattle.mhlink_c.specs.Problems.{HasNeeds, IsChoice, IsLeastChoice, RefusesRows, needs_of as its_needs, row_of, rows_of};
ghost use Rattle.mhlink_c.specs.Statuses.{no_memory, status_of};
ghost use Rattle.mhlink_c.specs.Texts.{IsUncopied};
ghost use Rattle.mhlink_c.specs.declared.failure.Failure.{Failure as FaultOf};
ghost use Rattle.mhlink_c.specs.declared.failure.Failure.TheVariants.{Short, Unknown};

use crate::buffers::copy;
use crate::failure::{Failure, status};
use mh_core::{LinkRow, Listing, Plan, Problem};
use mh_plan::plan_alone;
use std::alloc::Global;

/// A link of a problem: its gain, its charge, whether it is eligible, and which of the needs are
/// its own: `count` of them from index `first`.
#[repr(C)]
#[derive(Clone, Copy, Debug)]
pub struct MhlinkLink {
    /// The gain.
    pub gain: u64,
    /// The charge.
    pub charge: u64,
    /// The index of its first need.
    pub first: usize,
    /// The number of its needs.
    pub count: usize,
    /// 0 if it must not be selected.
    pub eligible: u32,
}

/// Computes an optimal selection of links, among optimal selections the one with the fewest links:
/// the value is their gains less their charges and the costs of the points that they need, each
/// cost counted once. There are at most 2^20 links and as many points, any of which a link may
/// need. Needs are numbers of points, ascending for each link. The numbers of the links are copied
/// to `chosen`, their number is stored in `count`, also if `chosen` is too short, and their worth
/// in `value`. If the status is not 0, `chosen` and `value` are left unmodified, and so is the rest
/// of `chosen`.
#[unsafe(no_mangle)]
pub extern "C" fn mhlink_plan_problem(
    alloc: Global,
    costs: &[u64],
    links: &[MhlinkLink],
    needs: &[u32],
    chosen: &mut [u32],
    count: &mut usize,
    value: &mut i64,
) -> u32
    ensures chosen { result ≡ 0 → IsChoice (problem_of (rows_of needs.now links.now) costs.now)
        (take count.new chosen.new) value.new }
    ensures count { result ≡ 0 → count.new ≤ length chosen.new }
    ensures there { result ≡ 0 → All (HasNeeds needs.now) links.now }
    ensures tested { result ≡ 0 → Passes (large_tests (rows_of needs.now links.now) costs.now) }
    ensures value { result ≢ 0 → value.new ≡ value.old }
    ensures untouched { result ≢ 0 → chosen.new ≡ chosen.old }
    ensures rest { result ≡ 0 → drop count.new chosen.new ≡ drop count.new chosen.old }
    ensures uncounted { result ≢ 0 → result ≢ status_of Short → count.new ≡ count.old }
    ensures refused { result ≢ 0 → (e : FaultOf) × ((result ≡ status_of e)
        × (RefusesRows needs.now links.now costs.now e ⊎ IsUncopied
        (IsLeastChoice (problem_of (rows_of needs.now links.now) costs.now)) count.new chosen.old
        e)) }
{
    status(choose(alloc, costs, links, needs, chosen, count, value))
}

fn choose(
    alloc: Global,
    costs: &[u64],
    links: &[MhlinkLink],
    needs: &[u32],
    chosen: &mut [u32],
    count: &mut usize,
    value: &mut i64,
) -> Result<(), Failure>
    ensures chosen { OnOk result (IsChoice (problem_of (rows_of needs.now links.now) costs.now)
        (take count.new chosen.new) value.new) }
    ensures count { OnOk result (count.new ≤ length chosen.new) }
    ensures there { OnOk result (All (HasNeeds needs.now) links.now) }
    ensures tested { OnOk result
        (Passes (large_tests (rows_of needs.now links.now) costs.now)) }
    ensures value { OnErr result (value.new ≡ value.old) }
    ensures untouched { OnErr result (chosen.new ≡ chosen.old) }
    ensures rest { OnOk result (drop count.new chosen.new ≡ drop count.new chosen.old) }
    ensures uncounted { IfErr result (λ e. e ≢ Short → count.new ≡ count.old) }
    ensures refused { IfErr result (λ e. RefusesRows needs.now links.now costs.now e ⊎ IsUncopied
        (IsLeastChoice (problem_of (rows_of needs.now links.now) costs.now)) count.new chosen.old
        e) }
{
    let plan = best_plan(alloc, costs, links, needs)?;
    copy(plan.links.as_slice(), chosen, count)?;
    *value = plan.value;
    Ok(())
}

/// Computes the optimal plan with the fewest links.
pub(crate) fn best_plan(
    alloc: Global,
    costs: &[u64],
    links: &[MhlinkLink],
    needs: &[u32],
) -> Result<Plan, Failure>
    ensures plan { IfOk result (IsLeastPlan (problem_of (rows_of needs.now links.now) costs.now)) }
    ensures there { OnOk result (All (HasNeeds needs.now) links.now) }
    ensures tested { OnOk result
        (Passes (large_tests (rows_of needs.now links.now) costs.now)) }
    ensures refused { IfErr result (RefusesRows needs.now links.now costs.now) }
{
    let rows = rows(alloc, links, needs)?;
    let problem = Problem::large(rows, Vec::from_slice(alloc, costs)?)?;
    Ok(plan_alone(alloc, &problem)?)
}

fn rows(alloc: Global, links: &[MhlinkLink], needs: &[u32]) -> Result<Vec<LinkRow>, Failure>
    ensures value { IfOk result (λ rows. rows.items ≡ rows_of needs.now links.now) }
    ensures there { OnOk result (All (HasNeeds needs.now) links.now) }
    ensures refused { IfErr result (λ e. ((All (HasNeeds needs.now) links.now → ⊥) × (e ≡ Unknown))
        ⊎ (e ≡ no_memory)) }
{
    let mut rows = Vec::new(alloc);
    for link in links {
        let row = row(alloc, link, needs)?;
        rows.push(row)?;
    }
    Ok(rows)
}

fn row(alloc: Global, link: &MhlinkLink, needs: &[u32]) -> Result<LinkRow, Failure>
    ensures value { IfOk result (λ row. row ≡ row_of needs.now link.now) }
    ensures there { OnOk result (HasNeeds needs.now link.now) }
    ensures refused { IfErr result (λ e. ((HasNeeds needs.now link.now → ⊥) × (e ≡ Unknown))
        ⊎ (e ≡ no_memory)) }
{
    let its = needs_of(link, needs)?;
    Ok(LinkRow {
        gain: link.gain,
        eligible: link.eligible != 0,
        needs: Listing::from_vec(Vec::from_slice(alloc, its)?),
        charge: link.charge,
    })
}

fn needs_of<'a>(link: &MhlinkLink, needs: &'a [u32]) -> Result<&'a [u32], Failure>
    ensures value { IfOk result (λ its. its.now ≡ its_needs needs.now link.now) }
    ensures there { OnOk result (HasNeeds needs.now link.now) }
    ensures refused { IfErr result (λ e. (HasNeeds needs.now link.now → ⊥) × (e ≡ Unknown)) }
{
    if link.first > needs.len() || link.count > needs.len() - link.first {
        return Err(Failure::Unknown);
    }
    Ok(&needs[link.first..link.first + link.count])
}
