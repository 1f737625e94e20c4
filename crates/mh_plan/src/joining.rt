//! Joining the results of the parts' runs, by the numbers of the whole problem.

ghost use Rattle.std.specs.Prelude.{◌≡◌, ◌<◌, ◌+◌, ◌*◌, ◌++◌, All, IfOk, OnOk, length, map};
ghost use Rattle.std.specs.List.Sorted.{IsNonDecreasingBy, IsPermutation};
ghost use Rattle.mh_network.specs.Parts.{part_at};
ghost use Rattle.mh_plan.specs.Joined.{joined, charge_key, charges_of, links_of, rows_of, row_key, whole_charge, whole_link, whole_row};
ghost use Rattle.mh_plan.specs.inner.Shares.{AreShared, run_at};

use crate::runs::Runs;
use mh_base::NoMemory;
use mh_network::Part;
use std::alloc::Global;

/// A link, a point and an amount.
pub(crate) type Row = (u32, u32, u64);

/// A link and an amount.
pub(crate) type Charge = (u32, u64);

/// Returns the links that the source reaches, part after part.
pub(crate) fn join_links(alloc: Global, parts: &[Part], runs: &Runs) -> Result<Vec<u32>, NoMemory>
    requires shared { AreShared parts.now runs.now }
    requires inside { (i : _) → i < length parts.now
        → All (λ k. k < length (part_at parts.now i).links) (run_at runs.now i).reached }
    ensures value { IfOk result (λ links. links.items ≡ joined
        (links_of parts.now (run_at runs.now)) (length parts.now)) }
{
    let mut links = Vec::new(alloc);
    for part in 0..parts.len() {
        let run = runs.run(parts, part)?;
        push_links(&mut links, &parts[part], run.reached())?;
    }
    Ok(links)
}

fn push_links(links: &mut Vec<u32>, part: &Part, reached: &[u32]) -> Result<(), NoMemory>
    requires inside { All (λ k. k < length part.now.links) reached.now }
    ensures value { OnOk result (links.new.items ≡ links.old.items ++ map
        (whole_link part.now) reached.now) }
{
    let numbers = part.links.as_slice();
    for link in reached {
        links.push(numbers[*link as usize])?;
    }
    Ok(())
}

/// Returns the rows of the flows, by link and then point.
pub(crate) fn join_rows(alloc: Global, parts: &[Part], runs: &Runs) -> Result<Vec<Row>, NoMemory>
    requires shared { AreShared parts.now runs.now }
    requires links { (i : _) → i < length parts.now
        → All (λ r. r.0 < length (part_at parts.now i).links) (run_at runs.now i).rows }
    requires points { (i : _) → i < length parts.now
        → All (λ r. r.1 < length (part_at parts.now i).points) (run_at runs.now i).rows }
    ensures same { IfOk result (λ rows. IsPermutation
        (joined (rows_of parts.now (run_at runs.now)) (length parts.now)) rows.items) }
    ensures sorted { IfOk result (λ rows. IsNonDecreasingBy row_key rows.items) }
{
    let mut rows = Vec::new(alloc);
    for part in 0..parts.len() {
        let run = runs.run(parts, part)?;
        push_rows(&mut rows, &parts[part], run.rows())?;
    }
    sort(&mut rows);
    Ok(rows)
}

fn push_rows(rows: &mut Vec<Row>, part: &Part, flow: &[Row]) -> Result<(), NoMemory>
    requires links { All (λ r. r.0 < length part.now.links) flow.now }
    requires points { All (λ r. r.1 < length part.now.points) flow.now }
    ensures value { OnOk result (rows.new.items ≡ rows.old.items ++ map
        (whole_row part.now) flow.now) }
{
    let links = part.links.as_slice();
    let points = part.points.as_slice();
    for row in flow {
        let (link, point, amount) = *row;
        rows.push((links[link as usize], points[point as usize], amount))?;
    }
    Ok(())
}

fn sort(rows: &mut Vec<Row>)
    ensures same { IsPermutation rows.old.items rows.new.items }
    ensures sorted { IsNonDecreasingBy row_key rows.new.items }
{
    rows.sort_unstable_by_key(|row| u64::from(row.0) * 4294967296 + u64::from(row.1));
}

/// Returns the amounts that links pay of their charges, by link.
pub(crate) fn join_charges(
    alloc: Global,
    parts: &[Part],
    runs: &Runs,
) -> Result<Vec<Charge>, NoMemory>
    requires shared { AreShared parts.now runs.now }
    requires links { (i : _) → i < length parts.now
        → All (λ r. r.0 < length (part_at parts.now i).links) (run_at runs.now i).charges }
    ensures same { IfOk result (λ charges. IsPermutation
        (joined (charges_of parts.now (run_at runs.now)) (length parts.now)) charges.items) }
    ensures sorted { IfOk result (λ charges. IsNonDecreasingBy charge_key charges.items) }
{
    let mut charges = Vec::new(alloc);
    for part in 0..parts.len() {
        let run = runs.run(parts, part)?;
        push_charges(&mut charges, &parts[part], run.charges())?;
    }
    sort_charges(&mut charges);
    Ok(charges)
}

fn push_charges(charges: &mut Vec<Charge>, part: &Part, paid: &[Charge]) -> Result<(), NoMemory>
    requires links { All (λ r. r.0 < length part.now.links) paid.now }
    ensures value { OnOk result (charges.new.items ≡ charges.old.items ++ map
        (whole_charge part.now) paid.now) }
{
    let links = part.links.as_slice();
    for charge in paid {
        let (link, amount) = *charge;
        charges.push((links[link as usize], amount))?;
    }
    Ok(())
}

fn sort_charges(charges: &mut Vec<Charge>)
    ensures same { IsPermutation charges.old.items charges.new.items }
    ensures sorted { IsNonDecreasingBy charge_key charges.new.items }
{
    charges.sort_unstable_by_key(|charge| charge.0);
}
