//! Marks numbers of a list by their places.

ghost use Rattle.std.specs.Prelude.{◌≡◌, ◌<◌, ◌≤◌, ◌||◌, ℕ, All, IfOk, OnOk, MatchOption, length, slice_index_or, true, false};
ghost use Rattle.std.specs.List.{list_any};
ghost use Rattle.std.specs.List.Sorted.{IsStrictlyIncreasing};
ghost use Rattle.mh_network.specs.Limits.{greatest_count};
ghost use Rattle.mh_network.specs.Parts.{ArePlaces, place_of};
ghost use Rattle.mh_network.specs.Problems.{needs_point};
ghost use Rattle.mh_network.specs.Selection.{member};

use mh_network::{NoMemory, Problem};
use std::alloc::Global;

/// Writes the place of each of these points among them.
pub(crate) fn set_places(places: &mut [u32], points: &[u32])
    requires inside { All (λ p. p < length places.old) points.now }
    requires ascending { IsStrictlyIncreasing points.now }
    requires few { length points.now ≤ greatest_count }
    ensures count { length places.new ≡ length places.old }
    ensures value { ArePlaces points.now (length places.old) places.new }
{
    for at in 0..points.len() {
        places[points[at] as usize] = at as u32;
    }
}

/// Returns the place of a point among others, if it is one of them.
pub(crate) fn place_in(points: &[u32], places: &[u32], point: u32) -> Option<usize>
    requires places { ArePlaces points.now (length places.now) places.now }
    requires ascending { IsStrictlyIncreasing points.now }
    requires inside { point < length places.now }
    ensures found { MatchOption result (member points.now point ≡ false)
        (λ at. (member points.now point ≡ true) × (at ≡ place_of points.now point)
        × (at < length points.now)) }
{
    let at = places[point as usize] as usize;
    if at < points.len() && points[at] == point {
        Some(at)
    } else {
        None
    }
}

/// Returns a mark for each number below a bound: whether it is one of these numbers.
pub(crate) fn mark_all(alloc: Global, bound: usize, numbers: &[u32]) -> Result<Vec<bool>, NoMemory>
    requires inside { All (λ j. j < bound) numbers.now }
    ensures count { IfOk result (λ marks. length marks.items ≡ bound) }
    ensures marked { IfOk result (λ marks. (j : ℕ)
        → slice_index_or marks.items j false ≡ member numbers.now j) }
{
    let mut marks = vec![in alloc; false; bound]?;
    for number in numbers {
        marks[*number as usize] = true;
    }
    Ok(marks)
}
