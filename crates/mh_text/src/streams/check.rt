//! Checks of plans: bytes in, a line out.
ghost use Rattle.std.specs.Prelude.{◌≡◌, ◌≢◌, ◌+◌, ◌⊎◌, ℕ, List, Ok, Some, IfOk, IfErr, OnOk, IfSome, MatchResult};
ghost use Rattle.serde_json.specs.View.{view};
ghost use Rattle.std.specs.Io.KnownBytes.{Appends, IsAtEnd, Keeps};
ghost use Rattle.mh_text.specs.Bytes.{HasFailed, LosesAtMost};
ghost use Rattle.mh_json.specs.Inputs.{most_bytes};
ghost use Rattle.mh_json.specs.Gives.{no_memory, outside};
ghost use Rattle.mh_text.specs.Honest.{IsHonest, NoOtherFailed};
ghost use Rattle.mh_json.specs.declared.fault.TextFault.TheVariants.{WriteFailed};
ghost use Rattle.mh_text.specs.Checks.{IsVerdict, IsVerdictBy, IsCutOff, FailsCheck, FailsCheckBy, verdict_line};

use crate::lines::verdict::{Verdict, judge, line};
use crate::streams::claim::{read_value, read_whole};
use crate::streams::watched::Watched;
use mh_json::Fault;
use serde_json::Value;
use std::alloc::Global;
use std::io::{Read, Write};

/// Writes the line of a verdict, with its end: `accepted`, or `refused` with the number and the
/// name of the first part that is wrong.
///
/// Fails if a write fails, after a prefix of the line was written, or if memory runs out, and then
/// nothing is written; both are reported at 0.
pub fn write_verdict<W: Write>(
    alloc: Global,
    verdict: Verdict,
    writer: &mut Watched<W>,
) -> Result<(), Fault>
    ensures line { MatchResult result
        (λ _. Appends (W.contents writer.old.inner) (W.contents writer.new.inner)
        (verdict_line verdict)) (λ e.
        (Keeps (W.contents writer.old.inner) (W.contents writer.new.inner)
        × (e ≡ outside no_memory))
        ⊎ IsCutOff (W.contents writer.old.inner) (W.contents writer.new.inner)
        (HasFailed writer.old.failures writer.new.failures) e verdict) }
    ensures kept { OnOk result (writer.new.failures ≡ writer.old.failures) }
    ensures others { IfErr result (λ e. e.kind ≢ WriteFailed
        → writer.new.failures ≡ writer.old.failures) }
{
    let line = line(alloc, verdict)?;
    writer.write_all(line.as_bytes())?;
    Ok(())
}

/// Checks the plan that the reader contains together with its problem, writes a line with the
/// verdict, and returns it: `accepted`, or `refused` with the number and the name of the first part
/// that is wrong.
///
/// The input is a JSON object with a problem at the key `problem` (see `read_problem`) and a plan
/// at the key `plan` (see `read_plan`). It is read to its end, or to the first byte beyond
/// 1,048,576. The problem is read and made before the plan is read. If the input has a fault, or
/// memory runs out, nothing is written. If a write fails, a prefix of the line was written, and the
/// failure is reported at 0.
pub fn check_bytes<R: Read, W: Write>(
    alloc: Global,
    reader: &mut Watched<R>,
    writer: &mut Watched<W>,
) -> Result<Verdict, Fault>
    ensures ok { IfOk result (λ verdict. IfSome (R.remaining reader.old.inner)
        (λ input. IsVerdict input verdict)
        × Appends (W.contents writer.old.inner) (W.contents writer.new.inner)
        (verdict_line verdict)) }
    ensures failed { IfErr result (FailsCheck (R.remaining reader.old.inner)
        (W.contents writer.old.inner) (W.contents writer.new.inner)
        (HasFailed reader.old.failures reader.new.failures)
        (HasFailed writer.old.failures writer.new.failures)) }
    ensures honest { IsHonest result reader.old.failures reader.new.failures
        writer.old.failures writer.new.failures }
    ensures others { IfErr result (λ e. NoOtherFailed e.kind reader.old.failures
        reader.new.failures writer.old.failures writer.new.failures) }
    ensures end { OnOk result (IsAtEnd (R.remaining reader.new.inner)) }
    ensures most { LosesAtMost (most_bytes + 1) (R.remaining reader.old.inner)
        (R.remaining reader.new.inner) }
{
    let claim = read_whole(alloc, reader)?;
    let verdict = judge(alloc, &claim.problem, &claim.plan)?;
    write_verdict(alloc, verdict, writer)?;
    Ok(verdict)
}

/// Checks the plan in a JSON value that also contains its problem, and writes a line with the
/// verdict, as `check_bytes` does.
pub fn check_value<W: Write>(
    alloc: Global,
    value: &Value,
    writer: &mut Watched<W>,
) -> Result<Verdict, Fault>
    ensures ok { IfOk result (λ verdict. IsVerdictBy Ok (view value.now) verdict
        × Appends (W.contents writer.old.inner) (W.contents writer.new.inner)
        (verdict_line verdict)) }
    ensures failed { IfErr result (λ e. FailsCheckBy Ok (Some (view value.now))
        (W.contents writer.old.inner) (W.contents writer.new.inner)
        ⊥ (HasFailed writer.old.failures writer.new.failures) e) }
    ensures honest { IsHonest result 0 0 writer.old.failures writer.new.failures }
    ensures others { IfErr result (λ e. e.kind ≢ WriteFailed
        → writer.new.failures ≡ writer.old.failures) }
{
    let claim = read_value(alloc, value)?;
    let verdict = judge(alloc, &claim.problem, &claim.plan)?;
    write_verdict(alloc, verdict, writer)?;
    Ok(verdict)
}
