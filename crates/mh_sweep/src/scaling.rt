//! Makes a block of a problem, at a scale of its costs, a problem of its own.

ghost use Rattle.std.specs.Prelude.{◌≡◌, ◌*◌, ◌<◌, ◌≤◌, All, IfOk, length, map};
ghost use Rattle.std.specs.List.{filter};
ghost use Rattle.std.specs.List.Sorted.{IsStrictlyIncreasing};
ghost use Rattle.mh_network.specs.Blocks.{block_row as row_of_block, scaled_block};
ghost use Rattle.mh_network.specs.Limits.{greatest_count, greatest_sum};
ghost use Rattle.mh_network.specs.Parts.{ArePlaces, place_of};
ghost use Rattle.mh_network.specs.Problems.{cost_of, sum_of_costs, sum_of_gains};
ghost use Rattle.mh_network.specs.Selection.{member};

use crate::marking::place_in;
use mh_network::{LinkRow, Listing, NoMemory, Part, Problem};
use std::alloc::Global;

/// Returns a block at this many thousandths of the costs as a problem of its own. `places` has the
/// place of each point of the block.
pub(crate) fn scale_block(
    alloc: Global,
    problem: &Problem,
    part: &Part,
    scale: u32,
    places: &[u32],
) -> Result<Problem, NoMemory>
    requires links { All (λ j. j < length problem.now.links) part.now.links }
    requires points { All (λ p. p < length problem.now.costs) part.now.points }
    requires ascending { IsStrictlyIncreasing part.now.points }
    requires places { ArePlaces part.now.points (length problem.now.costs) places.now }
    requires few { length part.now.points ≤ greatest_count }
    requires gains { 1000 * sum_of_gains problem.now ≤ greatest_sum }
    requires costs { scale * sum_of_costs problem.now ≤ greatest_sum }
    ensures value { IfOk result (λ p. p ≡ scaled_block problem.now scale part.now) }
{
    // Names the invariant of the problem for the proof.
    let _ = problem.points();
    let rows = block_rows(alloc, problem, part, places)?;
    let costs = block_costs(alloc, problem, part.points.as_slice(), scale)?;
    match Problem::large(rows, costs) {
        Ok(block) => Ok(block),
        // A block passes all tests.
        Err(_) => Err(NoMemory),
    }
}

/// Returns the links of a block.
fn block_rows(
    alloc: Global,
    problem: &Problem,
    part: &Part,
    places: &[u32],
) -> Result<Vec<LinkRow>, NoMemory>
    requires links { All (λ j. j < length problem.now.links) part.now.links }
    requires ascending { IsStrictlyIncreasing part.now.points }
    requires places { ArePlaces part.now.points (length problem.now.costs) places.now }
    requires few { length part.now.points ≤ greatest_count }
    requires gains { 1000 * sum_of_gains problem.now ≤ greatest_sum }
    ensures value { IfOk result (λ rows. rows.items
        ≡ map (row_of_block problem.now part.now) part.now.links) }
{
    let mut rows = Vec::with_capacity(alloc, part.links.as_slice().len())?;
    for link in part.links.as_slice() {
        let row = block_row(alloc, problem, part, places, *link as usize)?;
        rows.push(row)?;
    }
    Ok(rows)
}

/// Returns a link of a block: it gains a thousand times what is left after its charge, and needs
/// the points of the block alone.
fn block_row(
    alloc: Global,
    problem: &Problem,
    part: &Part,
    places: &[u32],
    link: usize,
) -> Result<LinkRow, NoMemory>
    requires inside { link < length problem.now.links }
    requires ascending { IsStrictlyIncreasing part.now.points }
    requires places { ArePlaces part.now.points (length problem.now.costs) places.now }
    requires few { length part.now.points ≤ greatest_count }
    requires gains { 1000 * sum_of_gains problem.now ≤ greatest_sum }
    ensures value { IfOk result (λ row. row ≡ row_of_block problem.now part.now link) }
{
    // Names the invariant of the problem for the proof.
    let _ = problem.points();
    let needs = block_needs(alloc, part.points.as_slice(), places, problem.needs(link))?;
    let net = problem.gain(link).saturating_sub(problem.charge(link));
    Ok(LinkRow {
        gain: 1000 * net,
        eligible: problem.eligible(link),
        needs,
        charge: 0,
    })
}

/// Returns the places of those needs that are points of the block.
fn block_needs(
    alloc: Global,
    points: &[u32],
    places: &[u32],
    needs: &[u32],
) -> Result<Listing<u32>, NoMemory>
    requires ascending { IsStrictlyIncreasing points.now }
    requires places { ArePlaces points.now (length places.now) places.now }
    requires inside { All (λ p. p < length places.now) needs.now }
    requires few { length points.now ≤ greatest_count }
    ensures value { IfOk result (λ listed. listed
        ≡ map (place_of points.now) (filter (member points.now) needs.now)) }
{
    let mut listed = Vec::new(alloc);
    for need in needs {
        if let Some(at) = place_in(points, places, *need) {
            listed.push(at as u32)?;
        }
    }
    Ok(Listing::from_vec(listed))
}

/// Returns the costs of points at a scale.
fn block_costs(
    alloc: Global,
    problem: &Problem,
    points: &[u32],
    scale: u32,
) -> Result<Vec<u64>, NoMemory>
    requires inside { All (λ p. p < length problem.now.costs) points.now }
    requires costs { scale * sum_of_costs problem.now ≤ greatest_sum }
    ensures value { IfOk result (λ costs. costs.items
        ≡ map (λ p. scale * cost_of problem.now p) points.now) }
{
    let mut costs = Vec::with_capacity(alloc, points.len())?;
    for point in points {
        costs.push(u64::from(scale) * problem.cost(*point as usize))?;
    }
    Ok(costs)
}
