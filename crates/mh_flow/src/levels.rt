//! The levels of links and points: their distances from the source.

ghost use Rattle.std.specs.Prelude.{◌≡◌, ◌<◌, ◌≤◌, ◌+◌, ◌⊎◌, [], All, length, ℕ, IfOk, OnOk, MatchBool, map, replicate, slice_set, sum};
ghost use Rattle.std.specs.Bool.{OnTrue, OnFalse};
ghost use Rattle.mh_flow.specs.Carried.{number_at, row_at};
ghost use Rattle.mh_flow.specs.LayerData.{IsIndexed, IsSinkLevel};
ghost use Rattle.mh_flow.specs.Levels.{far, ArePathLevels, IsSettledRow, IsSettledForth, IsSettledBack, IsLower};
ghost use Rattle.mh_flow.specs.Run.{IsLayered, start_level};
ghost use Rattle.mh_flow.specs.Spreads.{IsListed, IsSpread, IsLinkSettled, IsPointSettled};

use crate::need_row::NeedRow;
use crate::row_index::RowIndex;
use mh_base::NoMemory;
use std::alloc::Global;

/// The level of a node that is not reached.
pub(crate) const UNREACHED: u32 = u32::MAX;

/// Lowers a level to one more than that of a neighbour, if it is above that, and returns whether it
/// did.
fn lower(levels: &mut [u32], at: usize, from: u32) -> bool
    requires { at < length levels.old }
    ensures cases { MatchBool result ((from + 1 < far) × (from + 1 < number_at levels.old at)
        × (levels.new ≡ slice_set levels.old at (from + 1))) ((levels.new ≡ levels.old)
        × (from < far → number_at levels.old at ≤ from + 1)) }
{
    if from < UNREACHED && from + 1 < levels[at] {
        levels[at] = from + 1;
        true
    } else {
        false
    }
}

/// Lowers the level of the point of a row to one more than that of its link, if it is above that,
/// and returns whether it did.
fn settle_point(
    rows: &[NeedRow],
    at: usize,
    gain_left: &[u64],
    links: &[u32],
    points: &mut [u32],
) -> bool
    requires at { at < length rows.now }
    requires levels { ArePathLevels rows.now gain_left.now links.now points.old }
    ensures levels { ArePathLevels rows.now gain_left.now links.now points.new }
    ensures points { IsLower points.old points.new }
    ensures settled { IsSettledForth (row_at rows.now at) links.now points.new }
    ensures same { OnFalse result (points.new ≡ points.old) }
    ensures less { OnTrue result (sum points.new < sum points.old) }
    ensures others { (q : ℕ) → ((row_at rows.now at).point ≡ q → ⊥)
        → number_at points.new q ≡ number_at points.old q }
{
    let row = rows[at];
    lower(points, row.point as usize, links[row.link as usize])
}

/// Lowers the level of the link of a row that carries something to one more than that of its point,
/// if it is above that, and returns whether it did.
fn settle_link(
    rows: &[NeedRow],
    at: usize,
    gain_left: &[u64],
    links: &mut [u32],
    points: &[u32],
) -> bool
    requires at { at < length rows.now }
    requires levels { ArePathLevels rows.now gain_left.now links.old points.now }
    ensures levels { ArePathLevels rows.now gain_left.now links.new points.now }
    ensures links { IsLower links.old links.new }
    ensures settled { IsSettledBack (row_at rows.now at) links.new points.now }
    ensures same { OnFalse result (links.new ≡ links.old) }
    ensures less { OnTrue result (sum links.new < sum links.old) }
    ensures others { (q : ℕ) → ((row_at rows.now at).link ≡ q → ⊥)
        → number_at links.new q ≡ number_at links.old q }
{
    let row = rows[at];
    row.amount > 0 && lower(links, row.link as usize, points[row.point as usize])
}

/// Lowers the levels of the points of a link's rows, and appends those points to `lowered`.
fn spread_link(
    rows: &[NeedRow],
    index: &RowIndex,
    gain_left: &[u64],
    link: usize,
    links: &[u32],
    points: &mut [u32],
    lowered: &mut Vec<usize>,
) -> Result<(), NoMemory>
    requires indexed { IsIndexed rows.now index.now (length links.now) (length points.old) }
    requires link { link < length links.now }
    requires levels { ArePathLevels rows.now gain_left.now links.now points.old }
    ensures levels { OnOk result (ArePathLevels rows.now gain_left.now links.now points.new) }
    ensures spread { OnOk result (IsSpread points.old points.new lowered.old.items
        lowered.new.items) }
    ensures settled { OnOk result (IsLinkSettled rows.now links.now points.new link) }
{
    let mut at = index.by_link.last[link];
    while at > 0 {
        let row = at - 1;
        if settle_point(rows, row, gain_left, links, points) {
            lowered.push(rows[row].point as usize)?;
        }
        at = index.by_link.before[row];
    }
    Ok(())
}

/// Lowers the levels of the links of a point's rows that carry something, and appends those links
/// to `lowered`.
fn spread_point(
    rows: &[NeedRow],
    index: &RowIndex,
    gain_left: &[u64],
    point: usize,
    links: &mut [u32],
    points: &[u32],
    lowered: &mut Vec<usize>,
) -> Result<(), NoMemory>
    requires indexed { IsIndexed rows.now index.now (length links.old) (length points.now) }
    requires point { point < length points.now }
    requires levels { ArePathLevels rows.now gain_left.now links.old points.now }
    ensures levels { OnOk result (ArePathLevels rows.now gain_left.now links.new points.now) }
    ensures spread { OnOk result (IsSpread links.old links.new lowered.old.items
        lowered.new.items) }
    ensures settled { OnOk result (IsPointSettled rows.now links.new points.now point) }
{
    let mut at = index.by_point.last[point];
    while at > 0 {
        let row = at - 1;
        if settle_link(rows, row, gain_left, links, points) {
            lowered.push(rows[row].link as usize)?;
        }
        at = index.by_point.before[row];
    }
    Ok(())
}

/// Lowers the levels of the points of all rows, in the order in which the rows are stored, and
/// returns those points.
fn sweep_points(
    alloc: Global,
    rows: &[NeedRow],
    gain_left: &[u64],
    links: &[u32],
    points: &mut [u32],
) -> Result<Vec<usize>, NoMemory>
    requires levels { ArePathLevels rows.now gain_left.now links.now points.old }
    ensures levels { OnOk result (ArePathLevels rows.now gain_left.now links.now points.new) }
    ensures spread { IfOk result (λ lowered. IsSpread points.old points.new [] lowered.items) }
    ensures settled { OnOk result ((j : ℕ) → IsLinkSettled rows.now links.now points.new j) }
{
    let mut lowered = Vec::new(alloc);
    for row in 0..rows.len() {
        if settle_point(rows, row, gain_left, links, points) {
            lowered.push(rows[row].point as usize)?;
        }
    }
    Ok(lowered)
}

/// Lowers the levels of the links of all rows that carry something, in the order in which the rows
/// are stored, and returns those links.
fn sweep_links(
    alloc: Global,
    rows: &[NeedRow],
    gain_left: &[u64],
    links: &mut [u32],
    points: &[u32],
) -> Result<Vec<usize>, NoMemory>
    requires levels { ArePathLevels rows.now gain_left.now links.old points.now }
    ensures levels { OnOk result (ArePathLevels rows.now gain_left.now links.new points.now) }
    ensures spread { IfOk result (λ lowered. IsSpread links.old links.new [] lowered.items) }
    ensures settled { OnOk result ((p : ℕ) → IsPointSettled rows.now links.new points.now p) }
{
    let mut lowered = Vec::new(alloc);
    for row in 0..rows.len() {
        if settle_link(rows, row, gain_left, links, points) {
            lowered.push(rows[row].link as usize)?;
        }
    }
    Ok(lowered)
}

/// Lowers the levels of the points that the listed links need, and returns those points.
fn spread_links(
    alloc: Global,
    rows: &[NeedRow],
    index: &RowIndex,
    gain_left: &[u64],
    from: &[usize],
    links: &[u32],
    points: &mut [u32],
) -> Result<Vec<usize>, NoMemory>
    requires indexed { IsIndexed rows.now index.now (length links.now) (length points.old) }
    requires inside { All (λ j. j < length links.now) from.now }
    requires levels { ArePathLevels rows.now gain_left.now links.now points.old }
    requires waiting { (j : ℕ) → IsListed from.now j
        ⊎ IsLinkSettled rows.now links.now points.old j }
    ensures levels { OnOk result (ArePathLevels rows.now gain_left.now links.now points.new) }
    ensures spread { IfOk result (λ lowered. IsSpread points.old points.new [] lowered.items) }
    ensures settled { OnOk result ((j : ℕ) → IsLinkSettled rows.now links.now points.new j) }
{
    // Consecutive rows are read faster than those that a chain leads to.
    if from.len() > links.len() / 2 {
        return sweep_points(alloc, rows, gain_left, links, points);
    }
    let mut lowered = Vec::new(alloc);
    for link in from {
        spread_link(rows, index, gain_left, *link, links, points, &mut lowered)?;
    }
    Ok(lowered)
}

/// Lowers the levels of the links that carry something to the listed points, and returns those
/// links.
fn spread_points(
    alloc: Global,
    rows: &[NeedRow],
    index: &RowIndex,
    gain_left: &[u64],
    from: &[usize],
    links: &mut [u32],
    points: &[u32],
) -> Result<Vec<usize>, NoMemory>
    requires indexed { IsIndexed rows.now index.now (length links.old) (length points.now) }
    requires inside { All (λ p. p < length points.now) from.now }
    requires levels { ArePathLevels rows.now gain_left.now links.old points.now }
    requires waiting { (p : ℕ) → IsListed from.now p
        ⊎ IsPointSettled rows.now links.old points.now p }
    ensures levels { OnOk result (ArePathLevels rows.now gain_left.now links.new points.now) }
    ensures spread { IfOk result (λ lowered. IsSpread links.old links.new [] lowered.items) }
    ensures settled { OnOk result ((p : ℕ) → IsPointSettled rows.now links.new points.now p) }
{
    // Consecutive rows are read faster than those that a chain leads to.
    if from.len() > points.len() / 2 {
        return sweep_links(alloc, rows, gain_left, links, points);
    }
    let mut lowered = Vec::new(alloc);
    for point in from {
        spread_point(rows, index, gain_left, *point, links, points, &mut lowered)?;
    }
    Ok(lowered)
}

/// Lowers levels, beginning with the links of a front, until no row leads up by more than one
/// level: first in, first out.
pub(crate) fn settle(
    alloc: Global,
    rows: &[NeedRow],
    index: &RowIndex,
    gain_left: &[u64],
    front: Vec<usize>,
    links: &mut [u32],
    points: &mut [u32],
) -> Result<(), NoMemory>
    requires indexed { IsIndexed rows.now index.now (length links.old) (length points.old) }
    requires inside { All (λ j. j < length links.old) front.items }
    requires levels { ArePathLevels rows.now gain_left.now links.old points.old }
    requires waiting { (j : ℕ) → IsListed front.items j
        ⊎ IsLinkSettled rows.now links.old points.old j }
    requires settled { (p : ℕ) → IsPointSettled rows.now links.old points.old p }
    ensures levels { OnOk result (ArePathLevels rows.now gain_left.now links.new points.new) }
    ensures links { OnOk result (IsLower links.old links.new) }
    ensures points { OnOk result (IsLower points.old points.new) }
    ensures settled { OnOk result ((k : ℕ) → k < length rows.now
        → IsSettledRow (row_at rows.now k) links.new points.new) }
{
    let mut front = front;
    while !front.is_empty() {
        let reached = spread_links(alloc, rows, index, gain_left, &front, links, points)?;
        front = spread_points(alloc, rows, index, gain_left, &reached, links, points)?;
    }
    Ok(())
}

pub(crate) fn unreached(alloc: Global, count: usize) -> Result<Vec<u32>, NoMemory>
    ensures value { IfOk result (λ levels. levels.items ≡ replicate count far) }
{
    Ok(vec![in alloc; UNREACHED; count]?)
}

fn start_levels(alloc: Global, gain_left: &[u64]) -> Result<Vec<u32>, NoMemory>
    ensures value { IfOk result (λ levels. levels.items ≡ map start_level gain_left.now) }
{
    let levels: Vec<u32> = gain_left
        .iter()
        .map(|left| if *left > 0 { 1 } else { UNREACHED })
        .collect(alloc)?;
    Ok(levels)
}

fn start_links(alloc: Global, gain_left: &[u64]) -> Result<Vec<usize>, NoMemory>
    ensures inside { IfOk result (λ front. All (λ j. j < length gain_left.now) front.items) }
    ensures listed { IfOk result (λ front. (j : ℕ) → 0 < number_at gain_left.now j
        → IsListed front.items j) }
{
    let mut front = Vec::new(alloc);
    for link in 0..gain_left.len() {
        if gain_left[link] > 0 {
            front.push(link)?;
        }
    }
    Ok(front)
}

/// Returns the level of each link and point that the source reaches.
#[tactic(auto, using(crate::proofs::Starts::spare_after))]
pub(crate) fn levels_from(
    alloc: Global,
    rows: &[NeedRow],
    index: &RowIndex,
    gain_left: &[u64],
    count: usize,
) -> Result<(Vec<u32>, Vec<u32>), NoMemory>
    requires indexed { IsIndexed rows.now index.now (length gain_left.now) count }
    requires links { All (λ r. r.link < length gain_left.now) rows.now }
    requires points { All (λ r. r.point < count) rows.now }
    ensures layered { IfOk result (λ levels. IsLayered rows.now gain_left.now levels.0.items
        levels.1.items) }
    ensures links { IfOk result (λ levels. length levels.0.items ≡ length gain_left.now) }
    ensures points { IfOk result (λ levels. length levels.1.items ≡ count) }
{
    let mut links = start_levels(alloc, gain_left)?;
    let mut points = unreached(alloc, count)?;
    let front = start_links(alloc, gain_left)?;
    settle(
        alloc,
        rows,
        index,
        gain_left,
        front,
        &mut links,
        &mut points,
    )?;
    Ok((links, points))
}

/// Returns one more than the least level of a point with residual capacity.
pub(crate) fn sink_level(cost_left: &[u64], points: &[u32]) -> u32
    requires same { length cost_left.now ≡ length points.now }
    ensures value { IsSinkLevel cost_left.now points.now result }
{
    let mut sink = UNREACHED;
    for at in 0..points.len() {
        if cost_left[at] > 0 && points[at] < UNREACHED && points[at] + 1 < sink {
            sink = points[at] + 1;
        }
    }
    sink
}
