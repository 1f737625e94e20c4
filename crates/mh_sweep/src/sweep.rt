//! Sweeps of all scales of costs.

ghost use Rattle.std.specs.Prelude.{◌≡◌, ◌<◌, ◌≤◌, ◌*◌, ◌+◌, ◌⊎◌, ℕ, IfErr, IfOk, OnOk, length};
ghost use Rattle.mh_network.specs.Limits.{greatest_sum};
ghost use Rattle.mh_network.specs.Problems.{sum_of_costs, sum_of_gains};
ghost use Rattle.mh_network.specs.Scales.{IsUntil};
ghost use Rattle.mh_sweep.specs.Sweeps.{IsMost, number_at};

use crate::block::{Swept, solve_block};
use crate::fault::SweepFault;
use crate::listing::{all_numbers, gaining_links};
use crate::span::Span;
use crate::totals::{all_costs, greatest_scale};
use mh_network::{
    GREATEST_SUM, Listing, NoMemory, Part, Problem, all_gains, blocks_join, blocks_split,
};
use std::alloc::Global;

/// The scale of costs up to which each link of a problem is chosen.
#[derive(Debug, Drop)]
pub struct Sweep {
    /// The greatest scale of the sweep, in thousandths of the costs: a thousand times the costs, or
    /// less if the costs are so large that their sum would exceed 2^62.
    pub most: u32,
    /// For each link, by number: at each scale below this number, in thousandths of the costs, the
    /// link is among the least best links, and at this scale and above it is not. 0 for a link that
    /// gains no more than its charge; one more than `most` for a link that is chosen at all scales.
    pub until: Listing<u32>,
}

/// Finds the scale of costs up to which each link is chosen (Gallo, Grigoriadis and Tarjan 1989):
/// at each scale up to `most`, the least best links are those whose number is greater. A link with a
/// number above 1,000 is in the least best plan of the problem itself.
///
/// Fails if an allocation is refused, and if a thousand times the gains exceed 2^62. Takes the time
/// of some twenty maximum flows at most.
pub fn sweep_scales(alloc: Global, problem: &Problem) -> Result<Sweep, SweepFault>
    ensures until { IfOk result (λ s. IsUntil problem.now s.most (number_at s.until)) }
    ensures count { IfOk result (λ s. length s.until ≡ length problem.now.links) }
    ensures bound { IfOk result (λ s. (j : ℕ) → number_at s.until j ≤ s.most + 1) }
    ensures most { IfOk result (λ s. IsMost problem.now s.most) }
    ensures small { OnOk result (1000 * sum_of_gains problem.now ≤ greatest_sum) }
    ensures refused { IfErr result (λ e. (e ≡ SweepFault.NoMemory)
        ⊎ ((e ≡ SweepFault.GainsTooLarge)
        × (greatest_sum < 1000 * sum_of_gains problem.now))) }
{
    if all_gains(problem) > GREATEST_SUM / 1000 {
        return Err(SweepFault::GainsTooLarge);
    }
    let most = greatest_scale(all_costs(problem));
    let until = find_scales(alloc, problem, most)?;
    Ok(Sweep { most, until })
}

/// Returns the number of each link for scales up to the most.
fn find_scales(alloc: Global, problem: &Problem, most: u32) -> Result<Listing<u32>, NoMemory>
    requires gains { 1000 * sum_of_gains problem.now ≤ greatest_sum }
    requires most { IsMost problem.now most }
    ensures until { IfOk result (λ until. IsUntil problem.now most (number_at until)) }
    ensures count { IfOk result (λ until. length until ≡ length problem.now.links) }
    ensures bound { IfOk result (λ until. (j : ℕ) → number_at until j ≤ most + 1) }
{
    let mut until = vec![in alloc; 0u32; problem.links()]?;
    let mut places = vec![in alloc; 0u32; problem.points()]?;
    let swept = Swept { alloc, problem };
    fill_scales(&swept, most, &mut until, &mut places)?;
    Ok(Listing::from_vec(until))
}

/// Writes the number of each link for scales up to the most, over zeros.
fn fill_scales(
    swept: &Swept<'_>,
    most: u32,
    until: &mut [u32],
    places: &mut [u32],
) -> Result<(), NoMemory>
    requires gains { 1000 * sum_of_gains swept.now.problem.now ≤ greatest_sum }
    requires most { IsMost swept.now.problem.now most }
    requires zeros { (j : ℕ) → number_at until.old j ≡ 0 }
    requires links { length until.old ≡ length swept.now.problem.now.links }
    requires points { length places.old ≡ length swept.now.problem.now.costs }
    ensures links { length until.new ≡ length until.old }
    ensures points { length places.new ≡ length places.old }
    ensures until { OnOk result (IsUntil swept.now.problem.now most (number_at until.new)) }
    ensures bound { OnOk result ((j : ℕ) → number_at until.new j ≤ most + 1) }
{
    blocks_join();
    blocks_split();
    let Swept { alloc, problem } = *swept;
    let part = Part {
        links: gaining_links(alloc, problem)?,
        points: all_numbers(alloc, problem.points())?,
    };
    let span = Span {
        first: 0,
        last: most + 1,
    };
    solve_block(swept, &part, span, until, places)?;
    Ok(())
}
