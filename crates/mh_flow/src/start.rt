//! The start of a run: rows for all needs, what the charges leave of the gains, and all costs.

ghost use Rattle.std.specs.Prelude.{◌≡◌, ◌<◌, ◌+◌, ◌++◌, length, map, ℕ, IfOk, OnOk};
ghost use Rattle.mh_network.specs.Problems.{gain_of, cost_of};
ghost use Rattle.mh_flow.specs.Carried.{number_at};
ghost use Rattle.mh_flow.specs.Charged.{paid_of};
ghost use Rattle.mh_flow.specs.Run.{needs_below};

use crate::need_row::NeedRow;
use crate::outcome::paid;
use mh_base::NoMemory;
use mh_network::Problem;
use std::alloc::Global;

/// Returns a row for each need, by link and then point, with the amount 0.
pub(crate) fn need_rows(alloc: Global, problem: &Problem) -> Result<Vec<NeedRow>, NoMemory>
    ensures { IfOk result (λ rows. rows.items ≡ needs_below problem.now
        (length problem.now.links)) }
{
    let mut rows = Vec::new(alloc);
    for link in 0..problem.links() {
        push_needs(&mut rows, link as u32, problem.needs(link))?;
    }
    Ok(rows)
}

/// Appends a row for each need of a link, with the amount 0.
fn push_needs(rows: &mut Vec<NeedRow>, link: u32, needs: &[u32]) -> Result<(), NoMemory>
    ensures { OnOk result (rows.new.items ≡ rows.old.items ++ map
        (λ p. record { link = link; point = p; amount = 0 }) needs.now) }
{
    for point in needs {
        rows.push(NeedRow {
            link,
            point: *point,
            amount: 0,
        })?;
    }
    Ok(())
}

/// Returns for each link what is left of its gain after it has paid of its charge.
pub(crate) fn gains(alloc: Global, problem: &Problem) -> Result<Vec<u64>, NoMemory>
    ensures count { IfOk result (λ v. length v.items ≡ length problem.now.links) }
    ensures gains { IfOk result (λ v. (j : ℕ) → j < length v.items
        → number_at v.items j + paid_of problem.now j ≡ gain_of problem.now j) }
{
    let mut gains = Vec::new(alloc);
    for link in 0..problem.links() {
        gains.push(problem.gain(link) - paid(problem, link))?;
    }
    Ok(gains)
}

/// Returns the cost of each point.
pub(crate) fn costs(alloc: Global, problem: &Problem) -> Result<Vec<u64>, NoMemory>
    ensures count { IfOk result (λ v. length v.items ≡ length problem.now.costs) }
    ensures costs { IfOk result (λ v. (p : ℕ) → p < length v.items
        → number_at v.items p ≡ cost_of problem.now p) }
{
    let mut costs = Vec::new(alloc);
    for point in 0..problem.points() {
        costs.push(problem.cost(point))?;
    }
    Ok(costs)
}
