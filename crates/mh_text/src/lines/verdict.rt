//! Verdicts of a check of a plan.
ghost use Rattle.std.specs.Prelude.{◌≡◌, string_bytes, IfOk, IfErr};
ghost use Rattle.mh_json.specs.Gives.{no_memory};
ghost use Rattle.mh_text.specs.Checks.{IsFound, verdict_line};

use mh_cert::{CheckFault, Plan, check};
use mh_json::{Fault, InputFault};
use mh_network::Problem;
use std::alloc::{AllocError, Global};

/// The result of checking a plan.
#[derive(Clone, Copy, Debug, PartialEq, Eq)]
pub enum Verdict {
    /// The plan matches its problem, and is best.
    Accepted,
    /// The plan is refused; this is its first part that is wrong.
    Refused(CheckFault),
}

/// Checks a plan of a problem, and returns the verdict.
///
/// Fails only if memory runs out, which is reported at 0.
pub fn judge(alloc: Global, problem: &Problem, plan: &Plan) -> Result<Verdict, Fault>
    ensures found { IfOk result (IsFound problem.now plan.now) }
    ensures memory { IfErr result (λ e. e ≡ record { kind = no_memory; at = 0 }) }
{
    match check(alloc, problem, plan) {
        Ok(()) => Ok(Verdict::Accepted),
        Err(CheckFault::NoMemory) => Err(Fault::from(InputFault::NoMemory)),
        Err(cause) => Ok(Verdict::Refused(cause)),
    }
}

/// Returns the line of a verdict.
pub(crate) fn line(alloc: Global, verdict: Verdict) -> Result<String, AllocError>
    ensures value { IfOk result (λ s. string_bytes s ≡ verdict_line verdict) }
{
    match verdict {
        Verdict::Accepted => format!(in alloc; "accepted\n"),
        Verdict::Refused(cause) => format!(in alloc; "refused {cause}\n"),
    }
}
