//! Sweeps of all scales of the costs of a profile.
ghost use Rattle.std.specs.Prelude.{◌≡◌, ◌⊎◌, IfErr, IfOk};
ghost use Rattle.mh_json.specs.Gives.{no_memory, outside};
ghost use Rattle.mh_profile.specs.Sweeps.{IsNotSwept, IsSweepWhere};

use crate::named::NamedProblem;
use mh_json::{Fault, InputFault, TextFault};
use mh_network::{NoMemory, ProblemFault};
use mh_sweep::{Sweep, SweepFault, sweep_scales};
use std::alloc::Global;

/// Sweeps the costs of a problem with names, if that is asked for.
///
/// Fails if memory runs out, or if a thousand times the gains exceed 2^62, which is a fault of the
/// last line that is a point or a link.
pub(crate) fn sweep_where(
    alloc: Global,
    asked: bool,
    named: &NamedProblem,
) -> Result<Option<Sweep>, Fault>
    ensures swept { IfOk result (IsSweepWhere asked named.now.problem) }
    ensures refused { IfErr result (λ e. (e ≡ outside no_memory) ⊎ IsNotSwept asked named.now e) }
{
    if !asked {
        return Ok(None);
    }
    match sweep_scales(alloc, &named.problem) {
        Ok(sweep) => Ok(Some(sweep)),
        Err(SweepFault::NoMemory) => Err(Fault::from(NoMemory)),
        Err(SweepFault::GainsTooLarge) => Err(Fault {
            kind: TextFault::Input(InputFault::Problem(ProblemFault::GainTooLarge)),
            at: named.last,
        }),
    }
}
