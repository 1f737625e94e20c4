//! Results of a run.

ghost use Rattle.std.specs.Prelude.{◌≡◌, ◌≤◌, ◌<◌, length, ℕ, IfOk};
ghost use Rattle.std.specs.List.Sorted.{IsStrictlyIncreasing};
ghost use Rattle.mh_network.specs.Selection.{member};
ghost use Rattle.mh_flow.specs.Charged.{paid_charges as charges_paid, paid_of};
ghost use Rattle.mh_flow.specs.Run.{is_reached, positive_rows};
ghost use Rattle.mh_network.specs.Limits.{greatest_count};

use crate::levels::UNREACHED;
use crate::need_row::NeedRow;
use mh_base::NoMemory;
use mh_network::Problem;
use std::alloc::Global;

/// Returns the rows with a positive amount.
pub(crate) fn positive(alloc: Global, rows: &[NeedRow]) -> Result<Vec<(u32, u32, u64)>, NoMemory>
    ensures { IfOk result (λ v. v.items ≡ positive_rows rows.now) }
{
    let positive: Vec<(u32, u32, u64)> = rows
        .iter()
        .filter(|row| row.amount > 0)
        .map(|row| (row.link, row.point, row.amount))
        .collect(alloc)?;
    Ok(positive)
}

/// Returns the amount that a link pays of its charge: as much as its gain allows.
pub(crate) fn paid(problem: &Problem, link: usize) -> u64
    requires inside { link < length problem.now.links }
    ensures value { result ≡ paid_of problem.now link }
{
    problem.gain(link).min(problem.charge(link))
}

/// Returns the positive amounts that links pay of their charges.
pub(crate) fn paid_charges(alloc: Global, problem: &Problem) -> Result<Vec<(u32, u64)>, NoMemory>
    ensures { IfOk result (λ v. v.items ≡ charges_paid problem.now) }
{
    let mut charges = Vec::new(alloc);
    for link in 0..problem.links() {
        let amount = paid(problem, link);
        if amount > 0 {
            charges.push((link as u32, amount))?;
        }
    }
    Ok(charges)
}

/// Returns the links that have a level, ascending.
pub(crate) fn reached_links(alloc: Global, levels: &[u32]) -> Result<Vec<u32>, NoMemory>
    requires { length levels.now ≤ greatest_count }
    ensures members { IfOk result (λ v. (j : ℕ) → member v.items j ≡ is_reached levels.now j) }
    ensures ascending { IfOk result (λ v. IsStrictlyIncreasing v.items) }
{
    let mut reached = Vec::new(alloc);
    for link in 0..levels.len() {
        if levels[link] < UNREACHED {
            reached.push(link as u32)?;
        }
    }
    Ok(reached)
}
