//! The points that links need.

ghost use Rattle.std.specs.Prelude.{◌≡◌, ◌<◌, ◌↔◌, ℕ, All, IfOk, IfErr, IsTrue, length, slice_index_or, true, false};
ghost use Rattle.mh_cert.specs.Plans.{IsUnion};
ghost use Rattle.mh_network.specs.Problems.{IsProblem, link_at};
ghost use Rattle.mh_network.specs.Selection.{member, union_of_needs};

use crate::fault::CheckFault;
use crate::marks::{mark, mark_the_same};
use mh_base::{are_below, is_ascending};
use mh_network::{Problem, lists_add_up};
use std::alloc::Global;

// Returns whether the points are the ascending union of the links' needs.
pub(crate) fn is_union(
    alloc: Global,
    problem: &Problem,
    links: &[u32],
    points: &[u32],
) -> Result<bool, CheckFault>
    requires problem { IsProblem problem.now }
    requires eligible { All (λ j. (link_at problem.now j).eligible ≡ true) links.now }
    ensures value { IfOk result (λ is. IsTrue is ↔ IsUnion problem.now links.now points.now) }
    ensures refused { IfErr result (λ e. e ≡ CheckFault.NoMemory) }
{
    let needed = needed_points(alloc, problem, links)?;
    let listed = are_marked(alloc, points, &needed)?;
    Ok(listed && is_ascending(points))
}

// Returns whether exactly these numbers are marked.
#[tactic(auto, using(crate::proofs::Within::marked_below))]
fn are_marked(alloc: Global, numbers: &[u32], marks: &[bool]) -> Result<bool, CheckFault>
    ensures value { IfOk result (λ are. IsTrue are
        ↔ ((p : ℕ) → member numbers.now p ≡ slice_index_or marks.now p false)) }
    ensures refused { IfErr result (λ e. e ≡ CheckFault.NoMemory) }
{
    if !are_below(numbers, marks.len()) {
        return Ok(false);
    }
    let mut listed = no_marks(alloc, marks.len())?;
    mark(&mut listed, numbers);
    Ok(mark_the_same(&listed, marks))
}

// Returns the marks of the points that the links need.
fn needed_points(alloc: Global, problem: &Problem, links: &[u32]) -> Result<Vec<bool>, CheckFault>
    requires problem { IsProblem problem.now }
    requires eligible { All (λ j. (link_at problem.now j).eligible ≡ true) links.now }
    ensures count { IfOk result (λ marks. length marks.items ≡ length problem.now.costs) }
    ensures value { IfOk result (λ marks. (p : ℕ) → slice_index_or marks.items p false
        ≡ union_of_needs problem.now (member links.now) p) }
    ensures refused { IfErr result (λ e. e ≡ CheckFault.NoMemory) }
{
    lists_add_up();
    let mut needed = no_marks(alloc, problem.points())?;
    for link in links {
        mark(&mut needed, problem.needs(*link as usize));
    }
    Ok(needed)
}

fn no_marks(alloc: Global, count: usize) -> Result<Vec<bool>, CheckFault>
    ensures count { IfOk result (λ marks. length marks.items ≡ count) }
    ensures value { IfOk result (λ marks. (p : ℕ) → slice_index_or marks.items p false ≡ false) }
    ensures refused { IfErr result (λ e. e ≡ CheckFault.NoMemory) }
{
    let marks = vec![in alloc; false; count];
    marks.map_err(|_| CheckFault::NoMemory)
}
