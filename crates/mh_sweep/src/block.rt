//! Finds the scale of each link of a block.

ghost use Rattle.std.specs.Prelude.{◌≡◌, ◌*◌, ◌+◌, ◌<◌, ◌≤◌, ℕ, Bool, All, OnOk, length, true, false};
ghost use Rattle.mh_network.specs.Blocks.{IsSolved};
ghost use Rattle.mh_network.specs.Limits.{greatest_sum};
ghost use Rattle.mh_network.specs.Problems.{sum_of_costs, sum_of_gains};
ghost use Rattle.mh_network.specs.Selection.{member};
ghost use Rattle.mh_sweep.specs.Sweeps.{AreBetween, IsOpen, number_at};

use crate::halving::halve;
use crate::span::Span;
use mh_network::{NoMemory, Part, Problem, blocks_join};
use std::alloc::Global;

/// The problem that is swept.
#[derive(Clone, Copy)]
pub(crate) struct Swept<'a> {
    pub(crate) alloc: Global,
    pub(crate) problem: &'a Problem,
}

/// Writes the scale up to which each link of a block is chosen. The block halves until its scales
/// meet, so it is at most as deep as the digits of the greatest scale.
pub(crate) fn solve_block(
    swept: &Swept<'_>,
    part: &Part,
    span: Span,
    until: &mut [u32],
    places: &mut [u32],
) -> Result<(), NoMemory>
    requires span { span.first < span.last }
    requires open { (low : ℕ → Bool) × (high : ℕ → Bool)
        × IsOpen swept.now.problem.now span.first span.last part.now low high }
    requires gains { 1000 * sum_of_gains swept.now.problem.now ≤ greatest_sum }
    requires costs { (k : ℕ) → k < span.last
        → k * sum_of_costs swept.now.problem.now ≤ greatest_sum }
    requires links { length until.old ≡ length swept.now.problem.now.links }
    requires points { length places.old ≡ length swept.now.problem.now.costs }
    ensures links { length until.new ≡ length until.old }
    ensures points { length places.new ≡ length places.old }
    ensures between { OnOk result (AreBetween span.first span.last part.now.links until.new) }
    ensures others { OnOk result ((j : ℕ) → member part.now.links j ≡ false
        → number_at until.new j ≡ number_at until.old j) }
    ensures solved { OnOk result ((low : ℕ → Bool) → (high : ℕ → Bool)
        → IsOpen swept.now.problem.now span.first span.last part.now low high
        → IsSolved swept.now.problem.now span.first span.last low high (number_at until.new)) }
{
    blocks_join();
    let links = part.links.as_slice();
    if links.is_empty() {
        return Ok(());
    }
    if span.last - span.first == 1 {
        write_all(until, links, span.last);
        return Ok(());
    }
    let middle = span.middle();
    let (upper, lower) = halve(swept.alloc, swept.problem, part, middle, places)?;
    let above = Span {
        first: middle,
        last: span.last,
    };
    solve_block(swept, &upper, above, until, places)?;
    let below = Span {
        first: span.first,
        last: middle,
    };
    solve_block(swept, &lower, below, until, places)
}

/// Writes a number for each of these links.
fn write_all(until: &mut [u32], links: &[u32], number: u32)
    requires inside { All (λ j. j < length until.old) links.now }
    ensures count { length until.new ≡ length until.old }
    ensures written { (j : ℕ) → member links.now j ≡ true → number_at until.new j ≡ number }
    ensures others { (j : ℕ) → member links.now j ≡ false
        → number_at until.new j ≡ number_at until.old j }
{
    for link in links {
        until[*link as usize] = number;
    }
}
