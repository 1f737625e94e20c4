//! The selection problem of a snapshot.

ghost use Rattle.std.specs.Prelude.{◌≡◌, ◌<◌, ◌≤◌, ◌^◌, ◌↔◌, length, map, false, slice_index_or, IfOk, IsTrue};
ghost use Rattle.std.specs.List.{All, sum_by};
ghost use Rattle.mh_network.specs.Problems.{kept_gain, problem_of};
ghost use Rattle.mh_ledger.specs.Ledgers.{at};
ghost use Rattle.mh_site.specs.Lawful.{IsDefinition};
ghost use Rattle.mh_site.specs.Limits.{greatest_weight};
ghost use Rattle.mh_site.specs.Links.{links as links_of, link_at};
ghost use Rattle.mh_core.specs.Limits.{most_hits};
ghost use Rattle.mh_network.specs.Limits.{greatest_sum};
ghost use Rattle.mh_core.specs.Records.{numbers};
ghost use Rattle.mh_core.specs.inner.Tables.{are_valid, row_in};

use mh_base::NoMemory;
use mh_network::{GREATEST_SUM, LinkRow, Listing, Problem};
use mh_site::{Definition, Link};
use std::alloc::Global;

// Returns the problem of a definition's links, given their totals and the validity of the points.
pub(crate) fn make_problem(
    alloc: Global,
    definition: &Definition,
    totals: &[u64],
    valid: &[bool],
) -> Result<Problem, NoMemory>
    requires lawful { IsDefinition definition.now }
    requires links { length totals.now ≡ length (links_of definition.now) }
    requires few { All (λ n. n ≤ most_hits) totals.now }
    requires gains { sum_by kept_gain
        (map (row_in definition.now totals.now valid.now)
        (numbers (length (links_of definition.now)))) ≤ greatest_sum }
    ensures value { IfOk result (λ p. p
        ≡ problem_of (map (row_in definition.now totals.now valid.now)
        (numbers (length (links_of definition.now)))) (map (λ p. p.cost) definition.now.points)) }
{
    let rows = make_rows(alloc, definition, totals, valid)?;
    let costs = make_costs(alloc, definition)?;
    Ok(Problem::of_lawful(rows, costs))
}

// Returns a row for each link.
fn make_rows(
    alloc: Global,
    definition: &Definition,
    totals: &[u64],
    valid: &[bool],
) -> Result<Vec<LinkRow>, NoMemory>
    requires links { length totals.now ≡ length (links_of definition.now) }
    requires few { All (λ n. n ≤ most_hits) totals.now }
    ensures value { IfOk result (λ v. v.items
        ≡ map (row_in definition.now totals.now valid.now)
        (numbers (length (links_of definition.now)))) }
{
    let mut rows = Vec::with_capacity(alloc, definition.link_count())?;
    for link in 0..definition.link_count() {
        rows.push(make_row(alloc, definition, totals, valid, link)?)?;
    }
    Ok(rows)
}

fn make_row(
    alloc: Global,
    definition: &Definition,
    totals: &[u64],
    valid: &[bool],
    link: usize,
) -> Result<LinkRow, NoMemory>
    requires inside { link < length (links_of definition.now) }
    requires links { length totals.now ≡ length (links_of definition.now) }
    requires few { All (λ n. n ≤ most_hits) totals.now }
    ensures value { IfOk result (λ row. row ≡ row_in definition.now totals.now valid.now link) }
{
    let declared = link_of(definition, link);
    let needs = declared.needs.as_slice();
    Ok(LinkRow {
        gain: declared.weight * totals[link],
        eligible: all_valid(needs, valid),
        needs: Listing::from_vec(needs.to_vec(alloc)?),
        charge: declared.charge,
    })
}

fn make_costs(alloc: Global, definition: &Definition) -> Result<Vec<u64>, NoMemory>
    ensures value { IfOk result (λ v. v.items ≡ map (λ p. p.cost) definition.now.points) }
{
    let mut costs = Vec::with_capacity(alloc, definition.points().len())?;
    for point in definition.points() {
        costs.push(point.cost)?;
    }
    Ok(costs)
}

// Returns whether the sum of the gains of the eligible links is at most 2^62. The sum saturates at
// 2^64 - 1, so that it does not wrap.
pub(crate) fn gains_fit(definition: &Definition, totals: &[u64], valid: &[bool]) -> bool
    requires links { length totals.now ≡ length (links_of definition.now) }
    requires few { All (λ n. n ≤ most_hits) totals.now }
    ensures decides { IsTrue result
        ↔ (sum_by kept_gain (map (row_in definition.now totals.now valid.now)
        (numbers (length (links_of definition.now)))) ≤ greatest_sum) }
{
    let mut sum: u64 = 0;
    for link in 0..definition.link_count() {
        sum = sum.saturating_add(gain(definition, totals, valid, link));
    }
    sum <= GREATEST_SUM
}

// Returns the gain of a link: its weight times its hits, or 0 if a point that it needs is invalid.
fn gain(definition: &Definition, totals: &[u64], valid: &[bool], link: usize) -> u64
    requires inside { link < length (links_of definition.now) }
    requires links { length totals.now ≡ length (links_of definition.now) }
    requires few { All (λ n. n ≤ most_hits) totals.now }
    ensures value { result ≡ kept_gain (row_in definition.now totals.now valid.now link) }
{
    let declared = link_of(definition, link);
    if all_valid(declared.needs.as_slice(), valid) {
        declared.weight * totals[link]
    } else {
        0
    }
}

// Returns whether all these points are valid. A point that does not exist is not.
pub(crate) fn all_valid(points: &[u32], valid: &[bool]) -> bool
    ensures value { result ≡ are_valid valid.now points.now }
{
    points.iter().all(|point| is_valid(valid, *point))
}

fn is_valid(valid: &[bool], point: u32) -> bool
    ensures value { result ≡ slice_index_or valid.now point false }
{
    let point = point as usize;
    point < valid.len() && valid[point]
}

// Returns the link with this number.
pub(crate) fn link_of(definition: &Definition, link: usize) -> &Link
    requires inside { link < length (links_of definition.now) }
    ensures value { result.now ≡ (link_at definition.now link).1 }
    ensures light { result.now.weight ≤ greatest_weight }
{
    let site = definition.site_of(link);
    let place = link - definition.first_link(site);
    &definition.sites()[site].links.as_slice()[place]
}
