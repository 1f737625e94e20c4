//! The rules of a problem's rows and costs, in the order in which they are tested.

ghost use Rattle.std.specs.Prelude.{◌≡◌, ◌+◌, ◌≤◌, ◌<◌, ◌^◌, ℕ, MatchResult, All, Some, None, length, nat_le, true, false, sum};
ghost use Rattle.std.specs.List.{sum_by};
ghost use Rattle.std.specs.List.Sorted.{IsStrictlyIncreasing};
ghost use Rattle.mh_network.specs.Problems.{kept_gain, limited_tests};
ghost use Rattle.mh_base.specs.Tests.{Passes, Refuses};
ghost use Rattle.mh_network.specs.Limits.{greatest_sum};
ghost use Rattle.mh_network.specs.Places.{misfit, placed_limited, IsFirstNot};
ghost use Rattle.mh_network.specs.declared.place.ProblemPlace.TheVariants.{Needs};

use crate::fault::ProblemFault;
use crate::link_row::LinkRow;
use crate::place::{ProblemMisfit, ProblemPlace};
use mh_base::{are_below, demand, is_ascending};

/// The greatest number of links of a problem that `Problem::new` makes.
pub const MOST_LINKS: usize = 16384;

/// The greatest number of points of a problem that `Problem::new` makes.
pub const MOST_POINTS: usize = 4096;

/// The greatest number of links, of points, and of needs of a link, of a problem that
/// `Problem::large` makes.
pub const GREATEST_COUNT: usize = 1048576;

/// The greatest sum of gains, and of costs and charges.
pub const GREATEST_SUM: u64 = 1 << 62;

/// The greatest number of links, of points, and of needs of a link.
#[derive(Drop)]
pub(crate) struct Limits {
    pub(crate) links: usize,
    pub(crate) points: usize,
    pub(crate) needs: usize,
}

// Runs all tests, in order.
pub(crate) fn test(rows: &[LinkRow], costs: &[u64], limits: &Limits) -> Result<(), ProblemMisfit>
    ensures value { MatchResult result
        (λ _. Passes (limited_tests limits.now.links limits.now.points limits.now.needs
        rows.now costs.now))
        (λ e. Refuses (placed_limited limits.now.links limits.now.points limits.now.needs
        rows.now costs.now) e) }
{
    let points = costs.len();
    demand_at(
        rows.len() <= limits.links,
        ProblemFault::TooManyLinks,
        ProblemPlace::Links,
    )?;
    demand_at(
        points <= limits.points,
        ProblemFault::TooManyPoints,
        ProblemPlace::Points,
    )?;
    demand_none(
        with_many_needs(rows, limits.needs),
        ProblemFault::TooManyNeeds,
    )?;
    demand_none(
        with_unknown_need(rows, points),
        ProblemFault::NeedOutOfRange,
    )?;
    demand_none(out_of_order(rows), ProblemFault::NeedsNotAscending)?;
    demand_at(
        gains_fit(rows),
        ProblemFault::GainTooLarge,
        ProblemPlace::Links,
    )?;
    demand_at(
        costs_fit(rows, costs),
        ProblemFault::CostTooLarge,
        ProblemPlace::Whole,
    )
}

// Tests a condition, and reports this fault with its place if it does not hold.
fn demand_at(passes: bool, fault: ProblemFault, place: ProblemPlace) -> Result<(), ProblemMisfit>
    ensures value { MatchResult result (λ _. passes ≡ true)
        (λ e. (passes ≡ false) × (e ≡ misfit fault place)) }
{
    demand(passes, ProblemMisfit { fault, place })
}

// Reports this fault for the first link that fails a test, if there is one, with its needs as the
// place.
fn demand_none(failing: Option<usize>, fault: ProblemFault) -> Result<(), ProblemMisfit>
    ensures value { MatchResult result (λ _. failing ≡ None)
        (λ e. (j : ℕ) × (failing ≡ Some j) × (e ≡ misfit fault (Needs j))) }
{
    match failing {
        None => Ok(()),
        Some(link) => Err(ProblemMisfit {
            fault,
            place: ProblemPlace::Needs(link),
        }),
    }
}

// Returns the first link with more than `most` needs.
fn with_many_needs(rows: &[LinkRow], most: usize) -> Option<usize>
    ensures value { IsFirstNot (λ r. length r.needs ≤ most) rows.now result }
{
    rows.iter()
        .position(|row| row.needs.as_slice().len() > most)
}

// Returns the first link that needs a point that does not exist, given the number of points.
fn with_unknown_need(rows: &[LinkRow], points: usize) -> Option<usize>
    ensures value { IsFirstNot (λ r. All (λ p. p < points) r.needs) rows.now result }
{
    rows.iter()
        .position(|row| !are_below(row.needs.as_slice(), points))
}

// Returns the first link whose needs are not ascending.
fn out_of_order(rows: &[LinkRow]) -> Option<usize>
    ensures value { IsFirstNot (λ r. IsStrictlyIncreasing r.needs) rows.now result }
{
    rows.iter()
        .position(|row| !is_ascending(row.needs.as_slice()))
}

// Returns whether the gains that count are within the limit. The sum saturates at 2^64 - 1, so that
// it does not wrap.
fn gains_fit(rows: &[LinkRow]) -> bool
    ensures value { result ≡ nat_le (sum_by kept_gain rows.now) greatest_sum }
{
    let mut sum: u64 = 0;
    for row in rows {
        sum = sum.saturating_add(row.kept_gain());
    }
    sum <= GREATEST_SUM
}

// Returns whether the costs and the charges of all links are within the limit.
fn costs_fit(rows: &[LinkRow], costs: &[u64]) -> bool
    ensures value { result ≡ nat_le (sum costs.now + sum_by (λ r. r.charge) rows.now) greatest_sum }
{
    let mut sum: u64 = 0;
    for cost in costs {
        sum = sum.saturating_add(*cost);
    }
    for row in rows {
        sum = sum.saturating_add(row.charge);
    }
    sum <= GREATEST_SUM
}
