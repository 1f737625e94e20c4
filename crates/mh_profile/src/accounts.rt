//! Accounts of a flow: what each link gives and keeps, and what each point gets.
ghost use Rattle.std.specs.Prelude.{◌≡◌, ◌<◌, ◌≤◌, ◌+◌, ◌-◌, ◌==◌, ℕ, All, AllPairs, cond, length, slice_index_or, IfOk, true};
ghost use Rattle.std.specs.List.{list_any};
ghost use Rattle.std.specs.List.Sorted.{IsStrictlyIncreasing};
ghost use Rattle.mh_cert.specs.Plans.{Matches};
ghost use Rattle.mh_network.specs.Limits.{greatest_sum};
ghost use Rattle.mh_network.specs.Problems.{cost_of, needs_point};
ghost use Rattle.mh_network.specs.Selection.{IsBefore, IsChargeBefore, from_link, into_charge, into_point, member};
ghost use Rattle.mh_profile.specs.Accounts.{IsAccount, left_around, left_of, rows_of as rows_of_link};

use crate::keyed::run_of;
use mh_base::{Listing, NoMemory};
use mh_cert::Plan;
use mh_network::{Problem, carried, lists_add_up};
use std::alloc::Global;

/// Returns whether a number is among others.
pub(crate) fn is_among(numbers: &[u32], number: u32) -> bool
    requires ascending { IsStrictlyIncreasing numbers.now }
    ensures value { result ≡ member numbers.now number }
{
    !run_of(numbers, number).is_empty()
}

/// Returns the rows of a link.
pub(crate) fn rows_of(flow: &[(u32, u32, u64)], link: u32) -> &[(u32, u32, u64)]
    requires ordered { AllPairs IsBefore flow.now }
    ensures value { result.now ≡ rows_of_link flow.now link }
{
    run_of(flow, link)
}

/// Returns what a link spends: what its rows give to points, and what it pays of its charge.
fn spent(flow: &[(u32, u32, u64)], charges: &[(u32, u64)], link: u32) -> u128
    requires ordered { AllPairs IsBefore flow.now }
    requires charged { AllPairs IsChargeBefore charges.now }
    ensures value { result ≡ from_link flow.now link + into_charge charges.now link }
{
    carried(rows_of(flow, link), run_of(charges, link))
}

/// Returns what a link pays of its charge.
pub(crate) fn paid(charges: &[(u32, u64)], link: u32) -> u128
    requires charged { AllPairs IsChargeBefore charges.now }
    ensures value { result ≡ into_charge charges.now link }
{
    spent(&[], charges, link)
}

/// Returns what a link keeps of its gain.
fn left(problem: &Problem, plan: &Plan, link: u32) -> u64
    requires matching { Matches problem.now plan.now }
    requires inside { link < length problem.now.links }
    ensures value { result ≡ left_of problem.now plan.now link }
{
    let spent = spent(plan.flow.as_slice(), plan.charges.as_slice(), link);
    problem.gain(link as usize) - spent as u64
}

/// Returns what each point gets of its cost.
fn what_points_get(
    alloc: Global,
    problem: &Problem,
    flow: &[(u32, u32, u64)],
) -> Result<Vec<u64>, NoMemory>
    requires needed { All (λ r. needs_point problem.now r.0 r.1 ≡ true) flow.now }
    requires costs { (p : ℕ) → into_point flow.now p ≤ cost_of problem.now p }
    ensures count { IfOk result (λ gets. length gets.items ≡ length problem.now.costs) }
    ensures value { IfOk result (λ gets. (p : ℕ)
        → slice_index_or gets.items p 0 ≡ into_point flow.now p) }
{
    let mut gets = vec![in alloc; 0; problem.points()]?;
    for row in flow {
        gets[row.1 as usize] += row.2;
    }
    Ok(gets)
}

/// Adds an amount at each of some indices.
fn add_at(sums: &mut Vec<u64>, numbers: &[u32], amount: u64)
    requires ascending { IsStrictlyIncreasing numbers.now }
    requires inside { All (λ p. p < length sums.old.items) numbers.now }
    requires room { (p : ℕ) → slice_index_or sums.old.items p 0 + amount ≤ greatest_sum }
    ensures count { length sums.new.items ≡ length sums.old.items }
    ensures value { (p : ℕ) → slice_index_or sums.new.items p 0
        ≡ slice_index_or sums.old.items p 0 + cond (list_any (λ q. q == p) numbers.now) amount 0 }
{
    for number in numbers {
        sums[*number as usize] += amount;
    }
}

/// Returns for each point what the selected links that need it keep together.
fn what_links_leave(alloc: Global, problem: &Problem, plan: &Plan) -> Result<Vec<u64>, NoMemory>
    requires matching { Matches problem.now plan.now }
    ensures count { IfOk result (λ sums. length sums.items ≡ length problem.now.costs) }
    ensures value { IfOk result (λ sums. (p : ℕ)
        → slice_index_or sums.items p 0 ≡ left_around problem.now plan.now p) }
{
    lists_add_up();
    let mut sums = vec![in alloc; 0; problem.points()]?;
    for link in plan.links.as_slice() {
        let left = left(problem, plan, *link);
        add_at(&mut sums, problem.needs(*link as usize), left);
    }
    Ok(sums)
}

/// What points get, and what the selected links that need them keep, by number of the point.
#[derive(Drop)]
pub(crate) struct Account {
    /// What each point gets of its cost.
    gets: Listing<u64>,
    /// What the selected links that need each point keep together.
    leaves: Listing<u64>,
}

impl Account {
    /// Returns the account of a plan.
    pub(crate) fn new(alloc: Global, problem: &Problem, plan: &Plan) -> Result<Account, NoMemory>
        requires matching { Matches problem.now plan.now }
        ensures value { IfOk result (IsAccount problem.now plan.now) }
    {
        let gets = what_points_get(alloc, problem, plan.flow.as_slice())?;
        let leaves = what_links_leave(alloc, problem, plan)?;
        Ok(Account {
            gets: Listing::from_vec(gets),
            leaves: Listing::from_vec(leaves),
        })
    }

    /// Returns what a point gets of its cost.
    pub(crate) fn gets(&self, point: usize) -> u64
        requires inside { point < length self.now.gets }
        ensures value { result ≡ slice_index_or self.now.gets point 0 }
    {
        self.gets.as_slice()[point]
    }

    /// Returns the slack of a point: by how much its cost may rise if it is selected, or fall if it
    /// is not.
    pub(crate) fn slack(&self, problem: &Problem, chosen: bool, point: usize) -> u64
        requires inside { point < length problem.now.costs }
        requires gets { length self.now.gets ≡ length problem.now.costs }
        requires leaves { length self.now.leaves ≡ length problem.now.costs }
        requires within { slice_index_or self.now.gets point 0 ≤ cost_of problem.now point }
        ensures value { result ≡ cond chosen (slice_index_or self.now.leaves point 0)
            (cost_of problem.now point - slice_index_or self.now.gets point 0) }
    {
        if chosen {
            self.leaves.as_slice()[point]
        } else {
            problem.cost(point) - self.gets(point)
        }
    }
}
