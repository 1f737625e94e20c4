//! The rows of a flow.

ghost use Rattle.std.specs.Prelude.{◌≡◌, ◌<◌, ◌==◌, ◌↔◌, AllPairs, IsTrue, true};
ghost use Rattle.std.specs.List.{list_any};
ghost use Rattle.mh_cert.specs.Plans.{AreRows};
ghost use Rattle.mh_network.specs.Problems.{needs_point};
ghost use Rattle.mh_network.specs.Selection.{IsBefore};

use mh_network::Problem;

// Returns whether each row is a link, a point that it needs, and a positive amount, ascending by
// link and then point.
pub(crate) fn are_rows(problem: &Problem, flow: &[(u32, u32, u64)]) -> bool
    ensures value { IsTrue result ↔ AreRows problem.now flow.now }
{
    flow.iter().all(|row| is_row(problem, row)) && ascend(flow)
}

fn is_row(problem: &Problem, row: &(u32, u32, u64)) -> bool
    ensures value { IsTrue result ↔ ((needs_point problem.now row.now.0 row.now.1 ≡ true)
        × (0 < row.now.2)) }
{
    let (link, point, amount) = *row;
    let link = link as usize;
    amount > 0 && link < problem.links() && is_among(problem.needs(link), point)
}

fn is_among(needs: &[u32], point: u32) -> bool
    ensures value { result ≡ list_any (λ q. q == point) needs.now }
{
    needs.iter().any(|need| *need == point)
}

fn ascend(flow: &[(u32, u32, u64)]) -> bool
    ensures value { IsTrue result ↔ AllPairs IsBefore flow.now }
{
    for next in 1..flow.len() {
        if !is_before(&flow[next - 1], &flow[next]) {
            return false;
        }
    }
    true
}

fn is_before(one: &(u32, u32, u64), other: &(u32, u32, u64)) -> bool
    ensures value { IsTrue result ↔ IsBefore one.now other.now }
{
    one.0 < other.0 || one.0 == other.0 && one.1 < other.1
}
