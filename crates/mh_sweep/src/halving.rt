//! Splits a block at a scale between its two.

ghost use Rattle.std.specs.Prelude.{◌≡◌, ◌*◌, ◌<◌, ◌≤◌, ◌||◌, ℕ, Bool, All, IfOk, length, slice_index_or, true, false};
ghost use Rattle.std.specs.List.{list_any};
ghost use Rattle.std.specs.List.Sorted.{IsStrictlyIncreasing};
ghost use Rattle.mh_network.specs.Limits.{greatest_sum};
ghost use Rattle.mh_network.specs.Parts.{ArePlaces, place_of};
ghost use Rattle.mh_network.specs.Problems.{needs_point, sum_of_costs, sum_of_gains};
ghost use Rattle.mh_network.specs.Selection.{member};
ghost use Rattle.mh_sweep.specs.Sweeps.{IsOpen};

use crate::dividing::divide;
use crate::marking::{mark_all, place_in, set_places};
use crate::scaling::scale_block;
use mh_flow::max_flow;
use mh_network::{
    NoMemory, Part, Problem, blocks_are_problems, blocks_join, blocks_split, dearer_nest,
};
use std::alloc::Global;

/// Splits a block at a scale: into the links that are chosen there with the points that they need,
/// and the others. `places` is working memory, a number for each point of the problem.
pub(crate) fn halve(
    alloc: Global,
    problem: &Problem,
    part: &Part,
    scale: u32,
    places: &mut [u32],
) -> Result<(Part, Part), NoMemory>
    requires open { (first : ℕ) × (last : ℕ) × (low : ℕ → Bool) × (high : ℕ → Bool)
        × IsOpen problem.now first last part.now low high }
    requires gains { 1000 * sum_of_gains problem.now ≤ greatest_sum }
    requires costs { scale * sum_of_costs problem.now ≤ greatest_sum }
    requires room { length places.old ≡ length problem.now.costs }
    ensures room { length places.new ≡ length places.old }
    ensures halves { IfOk result (λ t. (first : ℕ) → (last : ℕ) → (low : ℕ → Bool)
        → (high : ℕ → Bool) → first ≤ scale → scale ≤ last
        → IsOpen problem.now first last part.now low high → (mid : ℕ → Bool)
        × IsOpen problem.now scale last t.0 mid high × IsOpen problem.now first scale t.1 low mid) }
{
    blocks_are_problems();
    blocks_join();
    blocks_split();
    dearer_nest();
    let _ = problem.points();
    let links = part.links.as_slice();
    let points = part.points.as_slice();
    set_places(places, points);
    let block = scale_block(alloc, problem, part, scale, places)?;
    let run = max_flow(alloc, &block)?;
    let chosen = mark_all(alloc, links.len(), run.reached())?;
    let (upper, lower) = divide(alloc, links, &chosen)?;
    let paid = mark_needs(alloc, problem, upper.as_slice(), points, places)?;
    let (taken, left) = divide(alloc, points, &paid)?;
    let upper = Part {
        links: upper,
        points: taken,
    };
    let lower = Part {
        links: lower,
        points: left,
    };
    Ok((upper, lower))
}

/// Returns a mark for each point of a block, by its place: whether one of these links needs it.
fn mark_needs(
    alloc: Global,
    problem: &Problem,
    links: &[u32],
    points: &[u32],
    places: &[u32],
) -> Result<Vec<bool>, NoMemory>
    requires links { All (λ j. j < length problem.now.links) links.now }
    requires ascending { IsStrictlyIncreasing points.now }
    requires places { ArePlaces points.now (length problem.now.costs) places.now }
    ensures count { IfOk result (λ marks. length marks.items ≡ length points.now) }
    ensures marked { IfOk result (λ marks. (p : ℕ) → member points.now p ≡ true
        → slice_index_or marks.items (place_of points.now p) false
        ≡ list_any (λ j. needs_point problem.now j p) links.now) }
{
    // Names the invariant of the problem for the proof.
    let _ = problem.points();
    let mut marks = vec![in alloc; false; points.len()]?;
    for link in links {
        mark_points(&mut marks, problem.needs(*link as usize), points, places);
    }
    Ok(marks)
}

/// Marks those of these points that are in the block.
fn mark_points(marks: &mut [bool], needs: &[u32], points: &[u32], places: &[u32])
    requires room { length marks.old ≡ length points.now }
    requires ascending { IsStrictlyIncreasing points.now }
    requires places { ArePlaces points.now (length places.now) places.now }
    requires inside { All (λ p. p < length places.now) needs.now }
    ensures room { length marks.new ≡ length marks.old }
    ensures marked { (p : ℕ) → member points.now p ≡ true
        → slice_index_or marks.new (place_of points.now p) false
        ≡ (slice_index_or marks.old (place_of points.now p) false || member needs.now p) }
{
    for need in needs {
        if let Some(at) = place_in(points, places, *need) {
            marks[at] = true;
        }
    }
}
