//! Planning: a profile in, the lines of its plan out.
ghost use Rattle.std.specs.Prelude.{◌≡◌, ◌≢◌, ◌<◌, ◌≤◌, ◌+◌, ℕ, List, string_bytes, IfOk, IfErr, IfSome, OnOk};
ghost use Rattle.std.specs.Io.KnownBytes.{Appends, IsAtEnd};
ghost use Rattle.mh_cert.specs.Plans.{Matches};
ghost use Rattle.mh_base.specs.Limits.{most_workers};
ghost use Rattle.mh_text.specs.Bytes.{HasFailed, LosesAtMost};
ghost use Rattle.mh_text.specs.Honest.{IsHonest, IsHonestReading, NoOtherFailed};
ghost use Rattle.mh_text.specs.Output.{IsUnread};
ghost use Rattle.mh_json.specs.declared.fault.TextFault.TheVariants.{ReadFailed};
ghost use Rattle.mh_profile.specs.Inputs.{IsProfileFault, IsProfileInput};
ghost use Rattle.mh_profile.specs.Limits.{most_at_once, most_in_all};
ghost use Rattle.mh_profile.specs.Planning.{FailsPlan, IsPlanFault, IsPlanOf, IsPlanned, lines_for};
ghost use Rattle.mh_profile.specs.Sweeps.{IsSweepWhere};

use crate::named::NamedProblem;
use crate::plan_lines::{profile_lines, push_line};
use crate::streams::read_profile;
use crate::sweeping::sweep_where;
use mh_base::NoMemory;
use mh_cert::Plan;
use mh_json::{Fault, plan_json};
use mh_plan::{OpenGate, plan};
use mh_sweep::Sweep;
use mh_text::{Watched, write_lines};
use std::alloc::Global;
use std::io::{Read, Write};
use std::thread::Threads;

/// How to plan a profile, and what to write of its plan.
#[derive(Clone, Copy, Debug, PartialEq, Eq)]
pub struct ProfileOptions {
    /// The number of workers that plan, 1 to 64. The plan does not depend on it.
    pub workers: usize,
    /// Whether to write the plan as JSON, too, by number, with the flow that proves it optimal.
    pub certificate: bool,
    /// Whether to write up to which scale of the costs each link is selected.
    pub sweep: bool,
}

/// Reads the problem with names in an input.
fn read_named<R: Read>(alloc: Global, reader: &mut Watched<R>) -> Result<NamedProblem, Fault>
    ensures ok { IfOk result (λ named. IfSome (R.remaining reader.old.inner)
        (λ input. IsProfileInput input named)) }
    ensures failed { IfErr result (IsUnread IsProfileFault (R.remaining reader.old.inner)
        (HasFailed reader.old.failures reader.new.failures)) }
    ensures honest { IsHonestReading result reader.old.failures reader.new.failures }
    ensures others { IfErr result (λ e. e.kind ≢ ReadFailed
        → reader.new.failures ≡ reader.old.failures) }
    ensures end { OnOk result (IsAtEnd (R.remaining reader.new.inner)) }
    ensures most { LosesAtMost (most_in_all + most_at_once) (R.remaining reader.old.inner)
        (R.remaining reader.new.inner) }
{
    read_profile(alloc, reader)?.into_problem()
}

/// A problem with names, and the sweep of its costs, if one was asked for.
#[derive(Drop)]
struct SweptProblem {
    named: NamedProblem,
    sweep: Option<Sweep>,
}

/// Reads the problem with names in an input, and sweeps its costs, if that is asked for.
fn read_swept<R: Read>(
    alloc: Global,
    options: ProfileOptions,
    reader: &mut Watched<R>,
) -> Result<SweptProblem, Fault>
    ensures ok { IfOk result (λ swept. IfSome (R.remaining reader.old.inner)
        (λ input. IsProfileInput input swept.named)) }
    ensures swept { IfOk result (λ swept.
        IsSweepWhere options.sweep swept.named.problem swept.sweep) }
    ensures failed { IfErr result (IsUnread (IsPlanFault options) (R.remaining reader.old.inner)
        (HasFailed reader.old.failures reader.new.failures)) }
    ensures honest { IsHonestReading result reader.old.failures reader.new.failures }
    ensures others { IfErr result (λ e. e.kind ≢ ReadFailed
        → reader.new.failures ≡ reader.old.failures) }
    ensures end { OnOk result (IsAtEnd (R.remaining reader.new.inner)) }
    ensures most { LosesAtMost (most_in_all + most_at_once) (R.remaining reader.old.inner)
        (R.remaining reader.new.inner) }
{
    let named = read_named(alloc, reader)?;
    let sweep = sweep_where(alloc, options.sweep, &named)?;
    Ok(SweptProblem { named, sweep })
}

/// Returns the lines of a plan.
fn render(
    alloc: Global,
    options: ProfileOptions,
    swept: &SweptProblem,
    plan: &Plan,
) -> Result<String, NoMemory>
    requires matching { Matches swept.now.named.problem plan.now }
    requires swept { IsSweepWhere options.sweep swept.now.named.problem swept.now.sweep }
    ensures value { IfOk result (λ s. string_bytes s
        ≡ lines_for options swept.now.named plan.now swept.now.sweep) }
{
    let mut lines = profile_lines(alloc, &swept.named, plan, &swept.sweep)?;
    if options.certificate {
        let certificate = plan_json(alloc, plan)?;
        push_line(&mut lines, certificate.as_str())?;
    }
    Ok(lines)
}

/// Returns the lines of the plan of a problem with names.
fn plan_named<T: Threads + Sync>(
    rt: &T,
    alloc: Global,
    options: ProfileOptions,
    swept: &SweptProblem,
) -> Result<String, NoMemory>
    requires some { 0 < options.workers }
    requires few { options.workers ≤ most_workers }
    requires swept { IsSweepWhere options.sweep swept.now.named.problem swept.now.sweep }
    ensures planned { IfOk result (λ s. IsPlanOf options swept.now.named (string_bytes s)) }
{
    let plan = plan(rt, alloc, &swept.named.problem, options.workers, &OpenGate)?;
    render(alloc, options, swept, &plan)
}

/// Plans the profile in an input, and writes the lines of its plan (`profile_lines`) and, if asked
/// for, its certificate (`mh_json::plan_json`). The plan is optimal; among optimal plans it has the
/// fewest links.
///
/// With `sweep`, the lines also say up to which scale of the costs each link is selected: at each
/// scale below that number it is in the minimal optimum, and at each other scale of the sweep it is
/// not. The input is then refused if a thousand times its gains exceed 2^62.
///
/// The input is read as `read_profile` does. A fault of the input, or running out of memory, writes
/// nothing. If a write fails, the output is a prefix of the lines, and the fault has no line.
pub fn plan_profile<T: Threads + Sync, R: Read, W: Write>(
    rt: &T,
    alloc: Global,
    options: ProfileOptions,
    reader: &mut Watched<R>,
    writer: &mut Watched<W>,
) -> Result<(), Fault>
    requires some { 0 < options.workers }
    requires few { options.workers ≤ most_workers }
    ensures ok { OnOk result (IfSome (R.remaining reader.old.inner) (λ input. (text : List ℕ)
        × IsPlanned options input text
        × Appends (W.contents writer.old.inner) (W.contents writer.new.inner) text)) }
    ensures failed { IfErr result (FailsPlan options (R.remaining reader.old.inner)
        (W.contents writer.old.inner) (W.contents writer.new.inner)
        (HasFailed reader.old.failures reader.new.failures)
        (HasFailed writer.old.failures writer.new.failures)) }
    ensures honest { IsHonest result reader.old.failures reader.new.failures
        writer.old.failures writer.new.failures }
    ensures others { IfErr result (λ e. NoOtherFailed e.kind reader.old.failures
        reader.new.failures writer.old.failures writer.new.failures) }
    ensures end { OnOk result (IsAtEnd (R.remaining reader.new.inner)) }
    ensures most { LosesAtMost (most_in_all + most_at_once) (R.remaining reader.old.inner)
        (R.remaining reader.new.inner) }
{
    let swept = read_swept(alloc, options, reader)?;
    let lines = plan_named(rt, alloc, options, &swept)?;
    write_lines(lines, writer)?;
    Ok(())
}
