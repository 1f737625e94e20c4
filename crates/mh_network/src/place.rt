//! Places of faults of rows and costs.

use crate::fault::ProblemFault;
use mh_base::NoMemory;

/// The part of rows and costs that has a fault.
#[derive(Clone, Copy, Debug, PartialEq, Eq)]
pub enum ProblemPlace {
    /// All of it.
    Whole,
    /// The links.
    Links,
    /// The points.
    Points,
    /// The needs of the link with this number.
    Needs(usize),
}

/// The reason why rows and costs do not make a problem, and the place of the fault.
#[derive(Clone, Copy, Debug, PartialEq, Eq)]
pub struct ProblemMisfit {
    /// The first test that fails.
    pub fault: ProblemFault,
    /// The part that has the fault. If the fault is of a link, it is the first link that has it.
    pub place: ProblemPlace,
}

impl From<NoMemory> for ProblemMisfit {
    ghost use Rattle.std.specs.Prelude.{◌≡◌};
    ghost use Rattle.mh_network.specs.Places.{out_of_memory};

    ghost from_gives = { λ _ misfit. misfit ≡ out_of_memory };

    fn from(_refused: NoMemory) -> ProblemMisfit {
        ProblemMisfit {
            fault: ProblemFault::NoMemory,
            place: ProblemPlace::Whole,
        }
    }
}
