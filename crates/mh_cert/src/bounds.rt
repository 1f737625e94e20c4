//! The bounds that gains, charges and costs set on a flow.

ghost use Rattle.std.specs.Prelude.{◌≡◌, ◌≤◌, ◌<◌, ◌+◌, ◌↔◌, ℕ, All, IfOk, IfErr, IsTrue, length, slice_index, true};
ghost use Rattle.mh_cert.specs.inner.Ends.{end_of};
ghost use Rattle.mh_network.specs.Problems.{IsProblem, gain_of, charge_of, cost_of, needs_point};
ghost use Rattle.mh_network.specs.Selection.{from_link, into_charge, into_point};
ghost use Rattle.mh_network.specs.Sums.{amount_at};

use crate::fault::CheckFault;
use mh_network::Problem;
use std::alloc::Global;

// The two ends of a row of a flow.
#[derive(Clone, Copy)]
pub(crate) enum End {
    Link,
    Point,
}

// Returns whether the amounts of each link, including that of its charge, are at most its gain.
pub(crate) fn keeps_gains(
    alloc: Global,
    problem: &Problem,
    flow: &[(u32, u32, u64)],
    charges: &[(u32, u64)],
) -> Result<bool, CheckFault>
    requires needed { All (λ r. needs_point problem.now r.0 r.1 ≡ true) flow.now }
    requires listed { All (λ r. r.0 < length problem.now.links) charges.now }
    ensures value { IfOk result (λ keeps. IsTrue keeps ↔ ((j : ℕ) → from_link flow.now j
        + into_charge charges.now j ≤ gain_of problem.now j)) }
    ensures refused { IfErr result (λ e. e ≡ CheckFault.NoMemory) }
{
    let mut left = gains(alloc, problem)?;
    Ok(pays(&mut left, charges) && covers(&mut left, flow, End::Link))
}

// Returns whether the amounts of each charge are at most the charge.
pub(crate) fn keeps_charges(
    alloc: Global,
    problem: &Problem,
    charges: &[(u32, u64)],
) -> Result<bool, CheckFault>
    requires listed { All (λ r. r.0 < length problem.now.links) charges.now }
    ensures value { IfOk result (λ keeps. IsTrue keeps
        ↔ ((j : ℕ) → into_charge charges.now j ≤ charge_of problem.now j)) }
    ensures refused { IfErr result (λ e. e ≡ CheckFault.NoMemory) }
{
    let mut left = own_charges(alloc, problem)?;
    Ok(pays(&mut left, charges))
}

// Returns whether the amounts of each point are at most its cost.
pub(crate) fn keeps_costs(
    alloc: Global,
    problem: &Problem,
    flow: &[(u32, u32, u64)],
) -> Result<bool, CheckFault>
    requires problem { IsProblem problem.now }
    requires needed { All (λ r. needs_point problem.now r.0 r.1 ≡ true) flow.now }
    ensures value { IfOk result (λ keeps. IsTrue keeps
        ↔ ((p : ℕ) → into_point flow.now p ≤ cost_of problem.now p)) }
    ensures refused { IfErr result (λ e. e ≡ CheckFault.NoMemory) }
{
    let mut left = costs(alloc, problem)?;
    Ok(covers(&mut left, flow, End::Point))
}

// Returns whether the amounts at each end are at most what is left there. Each is subtracted from
// what is left, so that no sum wraps.
fn covers(left: &mut Vec<u64>, flow: &[(u32, u32, u64)], end: End) -> bool
    requires inside { All (λ r. end_of end r < length left.old.items) flow.now }
    ensures value { IsTrue result ↔ ((k : ℕ) → amount_at (end_of end) (λ r. r.2) flow.now k
        ≤ slice_index left.old.items k) }
{
    for row in flow {
        let at = place(end, row);
        let spare = left[at];
        if row.2 > spare {
            return false;
        }
        left[at] = spare - row.2;
    }
    true
}

// Subtracts the amounts of the charges from what is left of each link, and returns whether enough
// was left.
fn pays(left: &mut Vec<u64>, charges: &[(u32, u64)]) -> bool
    requires inside { All (λ r. r.0 < length left.old.items) charges.now }
    ensures count { length left.new.items ≡ length left.old.items }
    ensures value { IsTrue result ↔ ((k : ℕ) → into_charge charges.now k
        ≤ slice_index left.old.items k) }
    ensures left { IsTrue result → (k : ℕ) → slice_index left.new.items k
        + into_charge charges.now k ≡ slice_index left.old.items k }
{
    for charge in charges {
        let at = charge.0 as usize;
        let spare = left[at];
        if charge.1 > spare {
            return false;
        }
        left[at] = spare - charge.1;
    }
    true
}

fn place(end: End, row: &(u32, u32, u64)) -> usize
    ensures value { result ≡ end_of end row.now }
{
    match end {
        End::Link => row.0 as usize,
        End::Point => row.1 as usize,
    }
}

fn gains(alloc: Global, problem: &Problem) -> Result<Vec<u64>, CheckFault>
    ensures count { IfOk result (λ v. length v.items ≡ length problem.now.links) }
    ensures value { IfOk result (λ v. (j : ℕ) → slice_index v.items j ≡ gain_of problem.now j) }
    ensures refused { IfErr result (λ e. e ≡ CheckFault.NoMemory) }
{
    let mut gains = Vec::new(alloc);
    for link in 0..problem.links() {
        let gain = problem.gain(link);
        gains.push(gain).map_err(|_| CheckFault::NoMemory)?;
    }
    Ok(gains)
}

fn own_charges(alloc: Global, problem: &Problem) -> Result<Vec<u64>, CheckFault>
    ensures count { IfOk result (λ v. length v.items ≡ length problem.now.links) }
    ensures value { IfOk result (λ v. (j : ℕ) → slice_index v.items j ≡ charge_of problem.now j) }
    ensures refused { IfErr result (λ e. e ≡ CheckFault.NoMemory) }
{
    let mut charges = Vec::new(alloc);
    for link in 0..problem.links() {
        let charge = problem.charge(link);
        charges.push(charge).map_err(|_| CheckFault::NoMemory)?;
    }
    Ok(charges)
}

fn costs(alloc: Global, problem: &Problem) -> Result<Vec<u64>, CheckFault>
    ensures count { IfOk result (λ v. length v.items ≡ length problem.now.costs) }
    ensures value { IfOk result (λ v. (p : ℕ) → slice_index v.items p ≡ cost_of problem.now p) }
    ensures refused { IfErr result (λ e. e ≡ CheckFault.NoMemory) }
{
    let mut costs = Vec::new(alloc);
    for point in 0..problem.points() {
        let cost = problem.cost(point);
        costs.push(cost).map_err(|_| CheckFault::NoMemory)?;
    }
    Ok(costs)
}
