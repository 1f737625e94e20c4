//! Lists of numbers as sets.

ghost use Rattle.std.specs.Prelude.{◌≡◌, ◌<◌, ◌≤◌, ◌++◌, ◌||◌, ℕ, All, IfOk, OnOk, length, slice_index_or, false};
ghost use Rattle.std.specs.List.{list_any};
ghost use Rattle.std.specs.List.Sorted.{IsStrictlyIncreasing};
ghost use Rattle.mh_network.specs.Problems.{IsProblem, needs_point};
ghost use Rattle.mh_network.specs.Selection.{member};
ghost use Rattle.mh_network.specs.Limits.{greatest_count};

use mh_base::NoMemory;
use mh_network::Problem;
use std::alloc::Global;

/// Returns these numbers in ascending order, each once. O(bound + numbers).
pub(crate) fn ascending(alloc: Global, bound: usize, numbers: &[u32]) -> Result<Vec<u32>, NoMemory>
    requires inside { All (λ j. j < bound) numbers.now }
    requires small { bound ≤ greatest_count }
    ensures ascending { IfOk result (λ listed. IsStrictlyIncreasing listed.items) }
    ensures same { IfOk result (λ listed. (j : ℕ) → member listed.items j ≡ member numbers.now j) }
{
    let mut marks = vec![in alloc; false; bound]?;
    mark(&mut marks, numbers);
    let listed = list_marked(alloc, &marks)?;
    Ok(listed)
}

/// Marks these numbers.
fn mark(marks: &mut Vec<bool>, numbers: &[u32])
    requires inside { All (λ j. j < length marks.old.items) numbers.now }
    ensures count { length marks.new.items ≡ length marks.old.items }
    ensures marked { (j : ℕ) → slice_index_or marks.new.items j false
        ≡ (slice_index_or marks.old.items j false || member numbers.now j) }
{
    for number in numbers {
        marks[*number as usize] = true;
    }
}

/// Returns the numbers that are marked.
fn list_marked(alloc: Global, marks: &[bool]) -> Result<Vec<u32>, NoMemory>
    requires small { length marks.now ≤ greatest_count }
    ensures ascending { IfOk result (λ listed. IsStrictlyIncreasing listed.items) }
    ensures same { IfOk result (λ listed. (j : ℕ) → member listed.items j
        ≡ slice_index_or marks.now j false) }
{
    let mut listed = Vec::new(alloc);
    for number in 0..marks.len() {
        if marks[number] {
            listed.push(number as u32)?;
        }
    }
    Ok(listed)
}

/// Returns the needs of these links, one link after another.
pub(crate) fn needs_of(
    alloc: Global,
    problem: &Problem,
    links: &[u32],
) -> Result<Vec<u32>, NoMemory>
    requires inside { All (λ j. j < length problem.now.links) links.now }
    requires problem { IsProblem problem.now }
    ensures inside { IfOk result (λ points. All (λ p. p < length problem.now.costs) points.items) }
    ensures value { IfOk result (λ points. (p : ℕ)
        → member points.items p ≡ list_any (λ j. needs_point problem.now j p) links.now) }
{
    let mut points = Vec::new(alloc);
    for link in links {
        points.extend_from_slice(problem.needs(*link as usize))?;
    }
    Ok(points)
}
