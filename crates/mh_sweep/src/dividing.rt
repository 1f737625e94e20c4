//! Divides a list of numbers by marks.

ghost use Rattle.std.specs.Prelude.{◌≡◌, IfOk, length, not, slice_index_or, false};
ghost use Rattle.std.specs.List.{filter};
ghost use Rattle.std.specs.List.Sorted.{IsStrictlyIncreasing};
ghost use Rattle.mh_network.specs.Parts.{place_of};

use mh_network::{Listing, NoMemory};
use std::alloc::Global;

/// Divides ascending numbers into those whose place is marked and the others.
pub(crate) fn divide(
    alloc: Global,
    numbers: &[u32],
    marks: &[bool],
) -> Result<(Listing<u32>, Listing<u32>), NoMemory>
    requires ascending { IsStrictlyIncreasing numbers.now }
    requires marks { length marks.now ≡ length numbers.now }
    ensures marked { IfOk result (λ t. t.0
        ≡ filter (λ j. slice_index_or marks.now (place_of numbers.now j) false) numbers.now) }
    ensures others { IfOk result (λ t. t.1
        ≡ filter (λ j. not (slice_index_or marks.now (place_of numbers.now j) false))
        numbers.now) }
{
    let mut marked = Vec::new(alloc);
    let mut others = Vec::new(alloc);
    for at in 0..numbers.len() {
        if marks[at] {
            marked.push(numbers[at])?;
        } else {
            others.push(numbers[at])?;
        }
    }
    Ok((Listing::from_vec(marked), Listing::from_vec(others)))
}
