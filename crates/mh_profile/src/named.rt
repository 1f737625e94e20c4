//! Problems whose links and points have names.
ghost use Rattle.std.specs.Prelude.{◌≡◌, IfOk, IfErr};
ghost use Rattle.mh_profile.specs.Inputs.{IsNamed, IsNotMade};

use crate::names::{LinkNames, PointNames};
use crate::profile::Profile;
use mh_json::{Fault, InputFault, TextFault};
use mh_network::Problem;

/// A problem, and the names of its links and points.
#[derive(Drop)]
pub struct NamedProblem {
    /// The names of the points, by number.
    pub points: PointNames,
    /// The names of the links, by number.
    pub links: LinkNames,
    /// The problem, by number.
    pub problem: Problem,
    /// The number of the last line that is a point or a link, from 1; 0 if there is none.
    pub last: u64,
}

impl Profile {
    /// Returns the problem of a profile. Does not allocate.
    ///
    /// If `Problem::large` refuses it, the fault is that of the last line that is a point or a
    /// link: the gains, or the costs and charges, add up to more than 2^62.
    pub fn into_problem(self) -> Result<NamedProblem, Fault>
        ensures made { IfOk result (IsNamed self) }
        ensures refused { IfErr result (IsNotMade self) }
    {
        let Profile {
            points,
            costs,
            names,
            links,
            last,
        } = self;
        let (rows, costs) = (links.into_vec(), costs.into_vec());
        match Problem::large(rows, costs) {
            Ok(problem) => Ok(NamedProblem {
                points,
                links: names,
                problem,
                last,
            }),
            Err(cause) => Err(Fault {
                kind: TextFault::Input(InputFault::Problem(cause)),
                at: last,
            }),
        }
    }
}
