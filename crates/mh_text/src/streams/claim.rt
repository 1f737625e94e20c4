//! Claims: a problem and a plan that is claimed to be best.
ghost use Rattle.std.specs.Prelude.{◌≡◌, ◌≢◌, ◌+◌, ◌⊎◌, Ok, IfOk, IfErr, IfSome, OnOk};
ghost use Rattle.serde_json.specs.View.{view};
ghost use Rattle.std.specs.Io.KnownBytes.{IsAtEnd};
ghost use Rattle.mh_text.specs.Bytes.{HasFailed, LosesAtMost};
ghost use Rattle.mh_json.specs.Inputs.{most_bytes};
ghost use Rattle.mh_json.specs.declared.fault.TextFault.TheVariants.{ReadFailed};
ghost use Rattle.mh_text.specs.Checks.{IsClaim, IsClaimBy, IsClaimFault, IsClaimFaultBy};
ghost use Rattle.mh_json.specs.Gives.{no_memory, IsOfInput, outside};
ghost use Rattle.mh_text.specs.Honest.{IsHonestReading};
ghost use Rattle.mh_text.specs.Output.{IsUnread};

use crate::streams::input::read_input;
use crate::streams::watched::Watched;
use mh_json::Fault;
use mh_json::readers::{Claim, read_json, read_plan_at, read_problem_at};
use serde_json::Value;
use std::alloc::Global;
use std::io::Read;

/// Reads the problem and then the plan of a value, each at its key.
pub(crate) fn read_value(alloc: Global, value: &Value) -> Result<Claim, Fault>
    ensures ok { IfOk result (λ claim. IsClaimBy Ok (view value.now) claim.problem claim.plan) }
    ensures kind { IfErr result (λ e. IsOfInput e.kind) }
    ensures failed { IfErr result (λ e. (e ≡ outside no_memory)
        ⊎ IsClaimFaultBy Ok (view value.now) e) }
{
    let problem = read_problem_at(alloc, value, Some("problem"))?;
    let plan = read_plan_at(alloc, value, Some("plan"))?;
    Ok(Claim { problem, plan })
}

/// Reads the problem and the plan of an input, which is parsed once.
fn read_claim(alloc: Global, input: &[u8]) -> Result<Claim, Fault>
    ensures ok { IfOk result (λ claim. IsClaim input.now claim.problem claim.plan) }
    ensures kind { IfErr result (λ e. IsOfInput e.kind) }
    ensures failed { IfErr result (λ e. (e ≡ outside no_memory) ⊎ IsClaimFault input.now e) }
{
    read_value(alloc, &read_json(alloc, input)?)
}

/// Reads the problem and the plan that the reader contains.
pub(crate) fn read_whole<R: Read>(alloc: Global, reader: &mut Watched<R>) -> Result<Claim, Fault>
    ensures ok { IfOk result (λ claim. IfSome (R.remaining reader.old.inner)
        (λ input. IsClaim input claim.problem claim.plan)) }
    ensures failed { IfErr result (IsUnread IsClaimFault (R.remaining reader.old.inner)
        (HasFailed reader.old.failures reader.new.failures)) }
    ensures honest { IsHonestReading result reader.old.failures reader.new.failures }
    ensures others { IfErr result (λ e. e.kind ≢ ReadFailed
        → reader.new.failures ≡ reader.old.failures) }
    ensures end { OnOk result (IsAtEnd (R.remaining reader.new.inner)) }
    ensures most { LosesAtMost (most_bytes + 1) (R.remaining reader.old.inner)
        (R.remaining reader.new.inner) }
{
    let input = read_input(alloc, reader)?;
    read_claim(alloc, &input)
}
