//! Indices of the rows of each link and of each point.

ghost use Rattle.std.specs.Prelude.{◌≡◌, ◌<◌, All, IfOk, map};
ghost use Rattle.mh_flow.specs.LayerData.{IsIndexed};

use crate::chain::{Chain, chain_of};
use crate::need_row::NeedRow;
use mh_base::NoMemory;
use std::alloc::Global;

/// The indices of rows by their links, and by their points.
#[derive(Drop)]
pub(crate) struct RowIndex {
    pub(crate) by_link: Chain,
    pub(crate) by_point: Chain,
}

impl RowIndex {
    /// Returns the index of rows whose links and points are below two counts.
    pub(crate) fn new(
        alloc: Global,
        rows: &[NeedRow],
        links: usize,
        points: usize,
    ) -> Result<RowIndex, NoMemory>
        requires links { All (λ r. r.link < links) rows.now }
        requires points { All (λ r. r.point < points) rows.now }
        ensures indexed { IfOk result (λ index. IsIndexed rows.now index links points) }
    {
        let keys = links_of(alloc, rows)?;
        let by_link = chain_of(alloc, &keys, links)?;
        let keys = points_of(alloc, rows)?;
        let by_point = chain_of(alloc, &keys, points)?;
        Ok(RowIndex { by_link, by_point })
    }
}

/// Returns the link of each row.
fn links_of(alloc: Global, rows: &[NeedRow]) -> Result<Vec<u32>, NoMemory>
    ensures { IfOk result (λ keys. keys.items ≡ map (λ r. r.link) rows.now) }
{
    let keys: Vec<u32> = rows.iter().map(|row| row.link).collect(alloc)?;
    Ok(keys)
}

/// Returns the point of each row.
fn points_of(alloc: Global, rows: &[NeedRow]) -> Result<Vec<u32>, NoMemory>
    ensures { IfOk result (λ keys. keys.items ≡ map (λ r. r.point) rows.now) }
{
    let keys: Vec<u32> = rows.iter().map(|row| row.point).collect(alloc)?;
    Ok(keys)
}
