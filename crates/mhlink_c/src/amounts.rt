//! The amounts of a flow, by link, by need and by point.

ghost use Rattle.std.specs.Prelude.{◌≡◌, ◌≤◌, ◌<◌, All, IfOk, length, map, slice_index, true};
ghost use Rattle.std.specs.List.{sum_by};
ghost use Rattle.std.specs.List.Sorted.{IsStrictlyIncreasing};
ghost use Rattle.mh_core.specs.Records.{numbers};
ghost use Rattle.mh_network.specs.Limits.{greatest_sum};
ghost use Rattle.mh_network.specs.Selection.{into_charge, into_point, member};
ghost use Rattle.mhlink_c.specs.Flows.{IsRowOf, given_for as given_for_need, has_need};
ghost use Rattle.mhlink_c.specs.Problems.{HasNeeds, needs_of};

use crate::planning::MhlinkLink;
use std::alloc::{AllocError, Global};

/// Returns the amount that each of this many links pays of its charge.
pub(crate) fn paid_by(
    alloc: Global,
    count: usize,
    charges: &[(u32, u64)],
) -> Result<Vec<u64>, AllocError>
    requires inside { All (λ r. r.0 < count) charges.now }
    requires small { sum_by (λ r. r.1) charges.now ≤ greatest_sum }
    ensures value { IfOk result (λ paid. paid.items ≡ map (into_charge charges.now)
        (numbers count)) }
{
    let mut paid = vec![in alloc; 0; count]?;
    for charge in charges {
        paid[charge.0 as usize] += charge.1;
    }
    Ok(paid)
}

/// Returns the amount that each of this many points gets.
pub(crate) fn got_by(
    alloc: Global,
    count: usize,
    flow: &[(u32, u32, u64)],
) -> Result<Vec<u64>, AllocError>
    requires inside { All (λ r. r.1 < count) flow.now }
    requires small { sum_by (λ r. r.2) flow.now ≤ greatest_sum }
    ensures value { IfOk result (λ gets. gets.items ≡ map (into_point flow.now) (numbers count)) }
{
    let mut gets = vec![in alloc; 0; count]?;
    for row in flow {
        gets[row.1 as usize] += row.2;
    }
    Ok(gets)
}

/// Returns the amount that is sent for each need, by the links that have the need.
pub(crate) fn given_for(
    alloc: Global,
    links: &[MhlinkLink],
    needs: &[u32],
    flow: &[(u32, u32, u64)],
) -> Result<Vec<u64>, AllocError>
    requires there { All (HasNeeds needs.now) links.now }
    requires rows { All (IsRowOf needs.now links.now) flow.now }
    requires small { sum_by (λ r. r.2) flow.now ≤ greatest_sum }
    ensures value { IfOk result (λ given. given.items
        ≡ map (given_for_need needs.now links.now flow.now) (numbers (length needs.now))) }
{
    let mut given = vec![in alloc; 0; needs.len()]?;
    for row in flow {
        let place = place_of(&links[row.0 as usize], needs, row.1);
        given[place] += row.2;
    }
    Ok(given)
}

// Returns the index of a link's need among all needs. O(log needs of the link).
fn place_of(link: &MhlinkLink, needs: &[u32], point: u32) -> usize
    requires there { HasNeeds needs.now link.now }
    requires ascending { IsStrictlyIncreasing (needs_of needs.now link.now) }
    requires needed { member (needs_of needs.now link.now) point ≡ true }
    ensures inside { result < length needs.now }
    ensures own { has_need link.now result ≡ true }
    ensures point { slice_index needs.now result ≡ point }
{
    let own = &needs[link.first..link.first + link.count];
    match own.binary_search(&point) {
        Ok(place) | Err(place) => link.first + place,
    }
}
