//! Parts of a problem as problems of their own.

ghost use Rattle.std.specs.Prelude.{◌≡◌, ◌<◌, ◌≤◌, All, IfOk, length, map, true};
ghost use Rattle.std.specs.List.Sorted.{IsStrictlyIncreasing};
ghost use Rattle.mh_network.specs.Problems.{IsProblem, cost_of};
ghost use Rattle.mh_network.specs.Parts.{ArePlaces, IsPartOf, part_problem, part_row as row_in_part};
ghost use Rattle.mh_network.specs.Selection.{member};
ghost use Rattle.mh_network.specs.Limits.{greatest_count};

use crate::link_row::LinkRow;
use crate::part::Part;
use crate::problem::Problem;
use mh_base::{Listing, NoMemory};
use std::alloc::Global;

impl Problem {
    /// Returns a part as a problem of its own: its links and points are numbered from 0, in their
    /// order. `places` is working memory, with one element for each point of the problem: its
    /// content does not matter, and it can be used for all parts. O(links, needs and points of the
    /// part).
    pub fn part(&self, alloc: Global, part: &Part, places: &mut [u32]) -> Result<Problem, NoMemory>
        requires part { IsPartOf self.now part.now }
        requires room { length places.old ≡ length self.now.costs }
        ensures room { length places.new ≡ length places.old }
        ensures value { IfOk result (λ p. p ≡ part_problem self.now part.now) }
    {
        // Its contract says that this is a problem, which the proof needs.
        let _ = self.points();
        set_places(places, part.points.as_slice());
        let rows = part_rows(alloc, self, part, places)?;
        let costs = part_costs(alloc, self, part.points.as_slice())?;
        Ok(Problem::made(rows, costs))
    }
}

// Stores the index of each of these points in their list.
fn set_places(places: &mut [u32], points: &[u32])
    requires inside { All (λ p. p < length places.old) points.now }
    requires ascending { IsStrictlyIncreasing points.now }
    requires few { length points.now ≤ greatest_count }
    ensures count { length places.new ≡ length places.old }
    ensures value { ArePlaces points.now (length places.old) places.new }
{
    for at in 0..points.len() {
        places[points[at] as usize] = at as u32;
    }
}

fn part_rows(
    alloc: Global,
    problem: &Problem,
    part: &Part,
    places: &[u32],
) -> Result<Listing<LinkRow>, NoMemory>
    requires part { IsPartOf problem.now part.now }
    requires places { ArePlaces part.now.points (length problem.now.costs) places.now }
    ensures value { IfOk result (λ rows. rows ≡ map
        (row_in_part problem.now part.now) part.now.links) }
{
    let mut rows = Vec::with_capacity(alloc, part.links.as_slice().len())?;
    for link in part.links.as_slice() {
        let row = part_row(alloc, problem, part, places, *link as usize)?;
        rows.push(row)?;
    }
    Ok(Listing::from_vec(rows))
}

// Returns a link of a part, with its needs by the part's numbers.
fn part_row(
    alloc: Global,
    problem: &Problem,
    part: &Part,
    places: &[u32],
    link: usize,
) -> Result<LinkRow, NoMemory>
    requires part { IsPartOf problem.now part.now }
    requires places { ArePlaces part.now.points (length problem.now.costs) places.now }
    requires inside { member part.now.links link ≡ true }
    ensures value { IfOk result (λ row. row ≡ row_in_part problem.now part.now link) }
{
    let mut needs = Vec::with_capacity(alloc, problem.needs(link).len())?;
    for point in problem.needs(link) {
        needs.push(places[*point as usize])?;
    }
    Ok(LinkRow {
        gain: problem.gain(link),
        eligible: problem.eligible(link),
        needs: Listing::from_vec(needs),
        charge: problem.charge(link),
    })
}

fn part_costs(alloc: Global, problem: &Problem, points: &[u32]) -> Result<Listing<u64>, NoMemory>
    requires inside { All (λ p. p < length problem.now.costs) points.now }
    ensures value { IfOk result (λ costs. costs ≡ map (cost_of problem.now) points.now) }
{
    let mut costs = Vec::with_capacity(alloc, points.len())?;
    for point in points {
        costs.push(problem.cost(*point as usize))?;
    }
    Ok(Listing::from_vec(costs))
}
