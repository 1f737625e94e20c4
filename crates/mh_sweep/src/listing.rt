//! Lists numbers in ascending order.

ghost use Rattle.std.specs.Prelude.{◌≡◌, ◌≤◌, IfOk, length};
ghost use Rattle.std.specs.List.{filter, range_with_len};
ghost use Rattle.mh_network.specs.Blocks.{gaining_links as gains};
ghost use Rattle.mh_network.specs.Limits.{greatest_count};

use mh_network::{Listing, NoMemory, Problem};
use std::alloc::Global;

/// Lists the numbers below a bound.
pub(crate) fn all_numbers(alloc: Global, bound: usize) -> Result<Listing<u32>, NoMemory>
    requires small { bound ≤ greatest_count }
    ensures value { IfOk result (λ listed. listed ≡ range_with_len 0 bound) }
{
    let mut listed = Vec::new(alloc);
    for number in 0..bound {
        listed.push(number as u32)?;
    }
    Ok(Listing::from_vec(listed))
}

/// Lists the links that gain more than their charge.
pub(crate) fn gaining_links(alloc: Global, problem: &Problem) -> Result<Listing<u32>, NoMemory>
    ensures value { IfOk result (λ listed. listed
        ≡ filter (gains problem.now) (range_with_len 0 (length problem.now.links))) }
{
    let mut listed = Vec::new(alloc);
    for link in 0..problem.links() {
        if problem.gain(link) > problem.charge(link) {
            listed.push(link as u32)?;
        }
    }
    Ok(Listing::from_vec(listed))
}
