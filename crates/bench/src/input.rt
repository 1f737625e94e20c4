//! Reads problems that are written as numbers.

ghost use Rattle.std.specs.Prelude.{◌≡◌, All, IfOk, length, map, true};

use crate::numbers::Numbers;
use mh_network::{LinkRow, Listing, Problem};
use std::alloc::Global;

/// Reads a problem: the numbers of links and of points, the gains, the charges, the costs, and for
/// each link the number of its needs and the needs in ascending order.
pub(crate) fn read_problem(alloc: Global, text: &str) -> anyhow::Result<Problem> {
    let mut numbers = Numbers::of(text);
    let links = numbers.next()?;
    let points = numbers.next()?;
    let gains = numbers.list(alloc, links)?;
    let charges = numbers.list(alloc, links)?;
    let costs = numbers.list(alloc, points)?;
    let rows = rows(alloc, &mut numbers, &gains, &charges)?;
    let problem = Problem::large(rows, costs)?;
    Ok(problem)
}

/// Returns an eligible link for each gain and charge, with the needs that come next.
fn rows(
    alloc: Global,
    numbers: &mut Numbers<'_>,
    gains: &[u64],
    charges: &[u64],
) -> anyhow::Result<Vec<LinkRow>>
    requires same { length gains.now ≡ length charges.now }
    ensures charges { IfOk result (λ rows. map (λ r. r.charge) rows.items ≡ charges.now) }
    ensures gains { IfOk result (λ rows. map (λ r. r.gain) rows.items ≡ gains.now) }
    ensures eligible { IfOk result (λ rows. All (λ r. r.eligible ≡ true) rows.items) }
{
    let mut rows = Vec::new(alloc);
    for link in 0..gains.len() {
        rows.push(LinkRow {
            gain: gains[link],
            eligible: true,
            needs: needs(alloc, numbers)?,
            charge: charges[link],
        })?;
    }
    Ok(rows)
}

/// Reads the needs of a link, after their number.
fn needs(alloc: Global, numbers: &mut Numbers<'_>) -> anyhow::Result<Listing<u32>> {
    let count = numbers.next()?;
    let mut needs = Vec::new(alloc);
    for _ in 0..count {
        needs.push(u32::try_from(numbers.next()?)?)?;
    }
    Ok(Listing::from_vec(needs))
}
