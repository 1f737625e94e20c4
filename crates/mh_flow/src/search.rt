//! The search for a path down the levels, which never visits a row again that led nowhere.

ghost use Rattle.std.specs.Prelude.{◌≡◌, ◌<◌, ◌≤◌, length, IfOk, OnOk, MatchOption};
ghost use Rattle.mh_flow.specs.Carried.{number_at};
ghost use Rattle.mh_flow.specs.LayerData.{IsIndexed};
ghost use Rattle.mh_flow.specs.Paths.{IsPath};
ghost use Rattle.mh_flow.specs.Levels.{far, IsInRange, IsLower};
ghost use Rattle.mh_flow.specs.inner.Spent.{IsPhase, IsSpent, IsRowBack};
ghost use Rattle.mh_flow.specs.Spreads.{point_key};

use crate::need_row::NeedRow;
use crate::path::Turn;
use crate::row_index::RowIndex;
use mh_base::NoMemory;

/// For each link and each point, the row to be tried next: one more than its number, or 0 if none
/// is left.
#[derive(Drop)]
pub(crate) struct Places {
    pub(crate) links: Vec<usize>,
    pub(crate) points: Vec<usize>,
}

/// Returns the point of a row.
fn point_of(rows: &[NeedRow], row: usize) -> usize
    requires inside { row < length rows.now }
    ensures value { result ≡ point_key rows.now row }
{
    rows[row].point as usize
}

/// Returns the next row of a link over which the flow can be taken back to a point of the level
/// below that still has rows to try.
fn row_back(
    rows: &[NeedRow],
    index: &RowIndex,
    gain_left: &[u64],
    links: &[u32],
    points: &[u32],
    link_rows: &mut [usize],
    point_rows: &[usize],
    link: usize,
) -> Option<usize>
    requires indexed { IsIndexed rows.now index.now (length links.now) (length points.now) }
    requires range { IsInRange rows.now links.now points.now }
    requires spent { IsSpent rows.now gain_left.now links.now points.now link_rows.old
        point_rows.now }
    requires link { link < length links.now }
    ensures spent { IsSpent rows.now gain_left.now links.now points.now link_rows.new
        point_rows.now }
    ensures found { MatchOption result (number_at link_rows.new link ≡ 0)
        (λ k. IsRowBack rows.now links.now points.now point_rows.now link k) }
{
    while link_rows[link] > 0 {
        let back = link_rows[link] - 1;
        let row = rows[back];
        let point = row.point as usize;
        if row.amount > 0 && points[point] < links[link] && point_rows[point] > 0 {
            return Some(back);
        }
        link_rows[link] = index.by_link.before[back];
    }
    None
}

/// Finds a path down the levels from a point to a link with gain left: stores its turns, and
/// returns the row over which it begins. If there is no path, returns `None`, and no row of the
/// point is left to try.
pub(crate) fn find_path(
    rows: &[NeedRow],
    index: &RowIndex,
    gain_left: &[u64],
    links: &[u32],
    points: &[u32],
    link_rows: &mut [usize],
    point_rows: &mut [usize],
    point: usize,
    turns: &mut Vec<Turn>,
) -> Result<Option<usize>, NoMemory>
    requires indexed { IsIndexed rows.now index.now (length links.now) (length points.now) }
    requires range { IsInRange rows.now links.now points.now }
    requires same { length gain_left.now ≡ length links.now }
    requires phase { IsPhase rows.now gain_left.now links.now points.now }
    requires spent { IsSpent rows.now gain_left.now links.now points.now link_rows.old
        point_rows.old }
    requires point { point < length points.now }
    requires reached { number_at points.now point < far }
    ensures spent { OnOk result (IsSpent rows.now gain_left.now links.now points.now link_rows.new
        point_rows.new) }
    ensures lower { OnOk result (IsLower point_rows.old point_rows.new) }
    ensures found { IfOk result (λ f. MatchOption f (number_at point_rows.new point ≡ 0)
        (λ first. IsPath rows.now gain_left.now (number_at links.now)
        (number_at points.now) point turns.new.items first)) }
{
    turns.clear();
    let mut at = point;
    loop {
        let place = point_rows[at];
        if place == 0 {
            match turns.pop() {
                None => return Ok(None),
                Some(turn) => at = point_of(rows, turn.forth),
            }
        } else {
            let forth = place - 1;
            let link = rows[forth].link as usize;
            if links[link] < points[at] {
                if gain_left[link] > 0 {
                    return Ok(Some(forth));
                }
                if let Some(back) = row_back(
                    rows, index, gain_left, links, points, link_rows, point_rows, link,
                ) {
                    turns.push(Turn { forth, back })?;
                    at = rows[back].point as usize;
                } else {
                    point_rows[at] = index.by_point.before[forth];
                }
            } else {
                point_rows[at] = index.by_point.before[forth];
            }
        }
    }
}
