//! Checks of plans of profiles: bytes in, a line out.
ghost use Rattle.std.specs.Prelude.{◌+◌, IfOk, IfErr, IfSome, OnOk};
ghost use Rattle.std.specs.Io.KnownBytes.{Appends, IsAtEnd};
ghost use Rattle.mh_text.specs.Bytes.{HasFailed, LosesAtMost};
ghost use Rattle.mh_text.specs.Checks.{verdict_line};
ghost use Rattle.mh_text.specs.Honest.{IsHonest, NoOtherFailed};
ghost use Rattle.mh_profile.specs.Claims.{FailsCheck, IsVerdict};
ghost use Rattle.mh_profile.specs.Limits.{most_in_claim};

use crate::claim::read_claim;
use mh_json::Fault;
use mh_text::{Verdict, Watched, judge, write_verdict};
use std::alloc::Global;
use std::io::{Read, Write};

/// Checks the plan that follows the lines of its profile, writes a line with the verdict, and
/// returns the verdict: `accepted`, or `refused` with the number and the name of the first test
/// that failed.
///
/// The plan is the last line that is not white space: as `plan_profile` writes it with a
/// certificate, or an object that has it at the key `plan`. The profile is everything before that
/// line. It is read, and its problem made, before the plan is looked at. The input is read to its
/// end, or to the first byte past 134,217,728.
///
/// A fault of the input, or running out of memory, writes nothing; a fault of the plan has the
/// number of its line. If a write fails, the output is a prefix of the line, and the fault has no
/// line.
pub fn check_profile<R: Read, W: Write>(
    alloc: Global,
    reader: &mut Watched<R>,
    writer: &mut Watched<W>,
) -> Result<Verdict, Fault>
    ensures ok { IfOk result (λ verdict. IfSome (R.remaining reader.old.inner)
        (λ input. IsVerdict input verdict)
        × Appends (W.contents writer.old.inner) (W.contents writer.new.inner)
        (verdict_line verdict)) }
    ensures failed { IfErr result (FailsCheck (R.remaining reader.old.inner)
        (W.contents writer.old.inner) (W.contents writer.new.inner)
        (HasFailed reader.old.failures reader.new.failures)
        (HasFailed writer.old.failures writer.new.failures)) }
    ensures honest { IsHonest result reader.old.failures reader.new.failures
        writer.old.failures writer.new.failures }
    ensures others { IfErr result (λ e. NoOtherFailed e.kind reader.old.failures
        reader.new.failures writer.old.failures writer.new.failures) }
    ensures end { OnOk result (IsAtEnd (R.remaining reader.new.inner)) }
    ensures most { LosesAtMost (most_in_claim + 1) (R.remaining reader.old.inner)
        (R.remaining reader.new.inner) }
{
    let claim = read_claim(alloc, reader)?;
    let verdict = judge(alloc, &claim.problem, &claim.plan)?;
    write_verdict(alloc, verdict, writer)?;
    Ok(verdict)
}
