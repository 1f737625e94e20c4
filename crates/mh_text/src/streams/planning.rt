//! Planning: reads a problem and writes its plan.
ghost use Rattle.std.specs.Prelude.{◌≡◌, ◌≢◌, ◌+◌, ◌<◌, ◌≤◌, ◌++◌, ◌⊎◌, ℕ, List, true, string_bytes, Ok, Some, IfOk, IfErr, OnOk, IfSome, MatchResult};
ghost use Rattle.serde_json.specs.View.{view};
ghost use Rattle.std.specs.Io.KnownBytes.{Appends, IsAtEnd};
ghost use Rattle.mh_text.specs.Bytes.{HasFailed, LosesAtMost};
ghost use Rattle.mh_json.specs.Inputs.{most_bytes};
ghost use Rattle.mh_json.specs.Gives.{no_memory, IsOfInput, outside};
ghost use Rattle.mh_text.specs.Honest.{IsHonest, IsHonestReading, NoOtherFailed};
ghost use Rattle.mh_text.specs.Output.{IsUnread};
ghost use Rattle.mh_text.specs.Planning.{IsProblemBy, IsProblemInput, IsProblemFault, IsProblemFaultBy, IsPlanOf, IsPlanned, IsPlannedBy, IsCutShort, FailsPlan, FailsPlanBy, line_where, lines_for};
ghost use Rattle.mh_base.specs.Limits.{most_workers};
ghost use Rattle.mh_json.specs.declared.fault.TextFault.TheVariants.{ReadFailed, WriteFailed};

use crate::lines::plans::{phases_line, plan_line};
use crate::streams::input::read_input;
use crate::streams::watched::Watched;
use mh_cert::Plan;
use mh_json::readers::read_problem_at;
use mh_json::{Fault, plan_json, read_problem};
use mh_network::Problem;
use mh_plan::{OpenGate, plan_counted};
use serde_json::Value;
use std::alloc::{AllocError, Global};
use std::io::{Read, Write};
use std::thread::Threads;

/// Options of making a plan, and of what is written of it.
#[derive(Clone, Copy, Debug, PartialEq, Eq)]
pub struct PlanOptions {
    /// The number of workers that plan, 1 to 64. The plan does not depend on it.
    pub workers: usize,
    /// If true, the plan is also written as JSON, with the flow that proves it best.
    pub certificate: bool,
    /// If true, the number of phases of its flow is written, too.
    pub phases: bool,
}

/// Reads the problem in an input.
fn read_bytes(alloc: Global, input: &[u8]) -> Result<Problem, Fault>
    ensures ok { IfOk result (λ problem. IsProblemInput input.now problem) }
    ensures kind { IfErr result (λ e. IsOfInput e.kind) }
    ensures failed { IfErr result (λ e. (e ≡ outside no_memory) ⊎ IsProblemFault input.now e) }
{
    read_problem(alloc, input, None)
}

/// Reads the problem in a JSON value.
fn read_value(alloc: Global, value: &Value) -> Result<Problem, Fault>
    ensures ok { IfOk result (λ problem. IsProblemBy Ok (view value.now) problem) }
    ensures kind { IfErr result (λ e. IsOfInput e.kind) }
    ensures failed { IfErr result (λ e. (e ≡ outside no_memory)
        ⊎ IsProblemFaultBy Ok (view value.now) e) }
{
    read_problem_at(alloc, value, None)
}

/// Reads the problem that the reader contains.
fn read_whole<R: Read>(alloc: Global, reader: &mut Watched<R>) -> Result<Problem, Fault>
    ensures ok { IfOk result (λ problem. IfSome (R.remaining reader.old.inner)
        (λ input. IsProblemInput input problem)) }
    ensures failed { IfErr result (IsUnread IsProblemFault (R.remaining reader.old.inner)
        (HasFailed reader.old.failures reader.new.failures)) }
    ensures honest { IsHonestReading result reader.old.failures reader.new.failures }
    ensures others { IfErr result (λ e. e.kind ≢ ReadFailed
        → reader.new.failures ≡ reader.old.failures) }
    ensures end { OnOk result (IsAtEnd (R.remaining reader.new.inner)) }
    ensures most { LosesAtMost (most_bytes + 1) (R.remaining reader.old.inner)
        (R.remaining reader.new.inner) }
{
    let input = read_input(alloc, reader)?;
    read_bytes(alloc, &input)
}

/// Appends a line and its end.
fn push_line(out: &mut String, line: &str) -> Result<(), AllocError>
    ensures value { OnOk result (string_bytes out.new
        ≡ string_bytes out.old ++ line_where true line.now) }
{
    out.push_str(line)?;
    out.push('\n')?;
    Ok(())
}

/// Returns the lines of a plan.
fn render(
    alloc: Global,
    options: PlanOptions,
    problem: &Problem,
    plan: &Plan,
    phases: &[u64],
) -> Result<String, AllocError>
    ensures value { IfOk result (λ s. string_bytes s
        ≡ lines_for options problem.now plan.now phases.now) }
{
    let mut lines = String::new(alloc);
    push_line(&mut lines, plan_line(alloc, plan)?.as_str())?;
    if options.certificate {
        push_line(&mut lines, plan_json(alloc, plan)?.as_str())?;
    }
    if options.phases {
        push_line(&mut lines, phases_line(alloc, problem, phases)?.as_str())?;
    }
    Ok(lines)
}

/// Plans a problem, and returns the lines of its plan.
fn plan_problem<T: Threads + Sync>(
    rt: &T,
    alloc: Global,
    options: PlanOptions,
    problem: &Problem,
) -> Result<String, Fault>
    requires some { 0 < options.workers }
    requires few { options.workers ≤ most_workers }
    ensures planned { IfOk result (λ s. IsPlanOf options problem.now (string_bytes s)) }
    ensures memory { IfErr result (λ e. e ≡ outside no_memory) }
{
    let (plan, phases) = plan_counted(rt, alloc, problem, options.workers, &OpenGate)?;
    Ok(render(alloc, options, problem, &plan, &phases)?)
}

/// Writes lines to a writer. If a write fails, a prefix of them was written, and the failure is
/// reported at 0.
pub fn write_lines<W: Write>(lines: String, writer: &mut Watched<W>) -> Result<(), Fault>
    ensures lines { MatchResult result
        (λ _. Appends (W.contents writer.old.inner) (W.contents writer.new.inner)
        (string_bytes lines)) (λ e. IsCutShort (W.contents writer.old.inner)
        (W.contents writer.new.inner) (HasFailed writer.old.failures writer.new.failures) e
        (string_bytes lines)) }
    ensures kept { OnOk result (writer.new.failures ≡ writer.old.failures) }
{
    writer.write_all(lines.as_bytes())?;
    Ok(())
}

/// Plans the problem that the reader contains, and writes the line of its plan, by `plan_line`: the
/// best links, and the fewest if several sets are best. If the options ask for them, it then writes
/// the certificate, by `plan_json`, and `phases` with the number of phases of all parts' flows, and
/// `bound` with the sum of their bounds.
///
/// The input is a problem (see `read_problem`). It is read to its end, or to the first byte beyond
/// 1,048,576. If the input has a fault, or memory runs out, nothing is written. If a write fails, a
/// prefix of the lines was written, and the failure is reported at 0.
pub fn plan_bytes<T: Threads + Sync, R: Read, W: Write>(
    rt: &T,
    alloc: Global,
    options: PlanOptions,
    reader: &mut Watched<R>,
    writer: &mut Watched<W>,
) -> Result<(), Fault>
    requires some { 0 < options.workers }
    requires few { options.workers ≤ most_workers }
    ensures ok { OnOk result (IfSome (R.remaining reader.old.inner) (λ input. (text : List ℕ)
        × IsPlanned options input text
        × Appends (W.contents writer.old.inner) (W.contents writer.new.inner) text)) }
    ensures failed { IfErr result (FailsPlan options (R.remaining reader.old.inner)
        (W.contents writer.old.inner) (W.contents writer.new.inner)
        (HasFailed reader.old.failures reader.new.failures)
        (HasFailed writer.old.failures writer.new.failures)) }
    ensures honest { IsHonest result reader.old.failures reader.new.failures
        writer.old.failures writer.new.failures }
    ensures others { IfErr result (λ e. NoOtherFailed e.kind reader.old.failures
        reader.new.failures writer.old.failures writer.new.failures) }
    ensures end { OnOk result (IsAtEnd (R.remaining reader.new.inner)) }
    ensures most { LosesAtMost (most_bytes + 1) (R.remaining reader.old.inner)
        (R.remaining reader.new.inner) }
{
    let problem = read_whole(alloc, reader)?;
    let lines = plan_problem(rt, alloc, options, &problem)?;
    write_lines(lines, writer)?;
    Ok(())
}

/// Plans the problem in a JSON value, and writes its lines, as `plan_bytes` does.
pub fn plan_value<T: Threads + Sync, W: Write>(
    rt: &T,
    alloc: Global,
    options: PlanOptions,
    value: &Value,
    writer: &mut Watched<W>,
) -> Result<(), Fault>
    requires some { 0 < options.workers }
    requires few { options.workers ≤ most_workers }
    ensures ok { OnOk result ((text : List ℕ) × IsPlannedBy Ok options (view value.now) text
        × Appends (W.contents writer.old.inner) (W.contents writer.new.inner) text) }
    ensures failed { IfErr result (λ e. FailsPlanBy Ok options (Some (view value.now))
        (W.contents writer.old.inner) (W.contents writer.new.inner)
        ⊥ (HasFailed writer.old.failures writer.new.failures) e) }
    ensures honest { IsHonest result 0 0 writer.old.failures writer.new.failures }
    ensures others { IfErr result (λ e. e.kind ≢ WriteFailed
        → writer.new.failures ≡ writer.old.failures) }
{
    let problem = read_value(alloc, value)?;
    let lines = plan_problem(rt, alloc, options, &problem)?;
    write_lines(lines, writer)?;
    Ok(())
}
