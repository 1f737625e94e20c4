//! The charges that a plan pays.

ghost use Rattle.std.specs.Prelude.{◌≡◌, ◌<◌, ◌↔◌, AllPairs, IsTrue, length};
ghost use Rattle.mh_cert.specs.Plans.{AreCharges};
ghost use Rattle.mh_network.specs.Selection.{IsChargeBefore};

use mh_network::Problem;

// Returns whether each row is a link and a positive amount, ascending by link.
pub(crate) fn are_charges(problem: &Problem, charges: &[(u32, u64)]) -> bool
    ensures value { IsTrue result ↔ AreCharges problem.now charges.now }
{
    charges.iter().all(|charge| is_charge(problem, charge)) && ascend(charges)
}

fn is_charge(problem: &Problem, charge: &(u32, u64)) -> bool
    ensures value { IsTrue result ↔ ((charge.now.0 < length problem.now.links)
        × (0 < charge.now.1)) }
{
    charge.1 > 0 && (charge.0 as usize) < problem.links()
}

fn ascend(charges: &[(u32, u64)]) -> bool
    ensures value { IsTrue result ↔ AllPairs IsChargeBefore charges.now }
{
    for next in 1..charges.len() {
        if charges[next - 1].0 >= charges[next].0 {
            return false;
        }
    }
    true
}
