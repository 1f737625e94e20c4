//! Stressing scripts: reads a script and writes the sums of its workers.
ghost use Rattle.std.specs.Prelude.{◌≡◌, ◌≢◌, ◌⊎◌, ◌<◌, ◌≤◌, ◌+◌, ℕ, List, Ok, Some, string_bytes, length, IfOk, IfErr, IfSome, IsErrOf, OnOk};
ghost use Rattle.std.specs.Io.KnownBytes.{Appends, IsAtEnd};
ghost use Rattle.serde_json.specs.View.{view};
ghost use Rattle.mh_text.specs.Bytes.{HasFailed, LosesAtMost};
ghost use Rattle.mh_json.specs.Inputs.{most_bytes};
ghost use Rattle.mh_json.specs.Gives.{no_memory, outside};
ghost use Rattle.mh_text.specs.Honest.{IsHonest, NoOtherFailed};
ghost use Rattle.mh_json.specs.declared.fault.TextFault.TheVariants.{NoReader, WriteFailed};
ghost use Rattle.mh_base.specs.Limits.{most_workers};
ghost use Rattle.mh_stress.specs.Stress.{AreLawful, FailsStress, FailsStressBy, cause_of, IsSettledText, IsScript, IsScriptBy, IsSettledTextOf, IsStressed, IsStressedBy, workers_of};
ghost use Rattle.mh_stress.specs.Rounds.{AreFresh};

use crate::division::{Division, divide};
use crate::notes::tell_notes;
use crate::settled::settled_lines;
use crate::stage::{ShowRounds, Stage};
use crate::threads::work_beside;
use mh_json::readers::read_script_value;
use mh_json::{Fault, InputFault, Script, TextFault};
use mh_live::{ListName, Live, MOST_WORKERS, OpenFault, Opening, Pass};
use mh_text::{Watched, read_script_from, write_lines};
use serde_json::Value;
use std::alloc::Global;
use std::io::{Read, Write};
use std::marker::Brand;
use std::sync::Wait;
use std::thread::Threads;

/// The greatest number of rounds of a stress.
pub const MOST_ROUNDS: u32 = 1_000_000;

/// Options of a stress.
#[derive(Clone, Copy, Debug, PartialEq, Eq)]
pub struct StressOptions {
    /// The number of workers that call, 1 to 64; if `None`, as many as the script has.
    pub workers: Option<u32>,
    /// The number of times that each worker makes its calls, 1 to 1,000,000.
    pub rounds: u32,
    /// If true, a line for each point, site and link follows the sums (see `push_tables` of
    /// mh_text).
    pub report: bool,
}

/// Returns the reason why an office was not opened, as a fault outside the events.
fn fault_of(cause: OpenFault) -> Fault
    ensures value { result ≡ outside (cause_of cause) }
    ensures one { (result ≡ outside no_memory) ⊎ (result ≡ outside NoReader) }
{
    match cause {
        OpenFault::NoMemory => Fault::from(InputFault::NoMemory),
        OpenFault::NoReader => Fault::from(TextFault::NoReader),
    }
}

/// Runs the workers' rounds concurrently with the changes, settles, and returns the lines of the
/// result.
fn settle_rounds<N: ListName + Send + Sync, T: Threads + Wait + Sync, S: ShowRounds + Sync>(
    stage: &Stage<'_, T, S>,
    alloc: Global,
    live: Live<N>,
    passes: Vec<Pass<N>>,
    division: Division,
    options: StressOptions,
) -> Result<String, Fault>
    requires fresh { AreFresh N.definition passes.items }
    requires workers { (0 < length passes.items) × (length passes.items ≤ most_workers) }
    requires options { AreLawful options }
    ensures settled { IfOk result (λ text. IsSettledText options.report N.definition N.limits
        division.calls.items (length passes.items) options.rounds (string_bytes text)) }
    ensures told { IfErr result (λ e. e ≡ outside no_memory) }
{
    let workers = passes.len();
    let worked = work_beside(
        stage,
        alloc,
        &live,
        passes,
        division,
        options.rounds,
        workers,
    );
    stage.shows.clear();
    let Some(passes) = worked else {
        return Err(Fault::from(InputFault::NoMemory));
    };
    match live.settle(stage.rt, alloc, passes) {
        Ok(settled) => Ok(settled_lines(alloc, options.report, &settled)?),
        // All passes of the opening are returned, so the failure is that of an allocation.
        Err(_) => Err(Fault::from(InputFault::NoMemory)),
    }
}

/// Opens the office, has the workers make their rounds concurrently with the changes, settles, and
/// returns the lines of the result.
fn run_threads<N: ListName + Send + Sync, T: Threads + Wait + Sync, S: ShowRounds + Sync>(
    stage: &Stage<'_, T, S>,
    alloc: Global,
    opening: Opening,
    division: Division,
    options: StressOptions,
) -> Result<String, Fault>
    requires name { opening.name ≡ N.book }
    requires definition { opening.definition ≡ N.definition }
    requires limits { opening.limits ≡ N.limits }
    requires workers { opening.workers ≡ N.workers }
    requires some { 0 < opening.workers }
    requires few { opening.workers ≤ most_workers }
    requires options { AreLawful options }
    ensures settled { IfOk result (λ text. IsSettledText options.report opening.definition
        opening.limits division.calls.items opening.workers options.rounds (string_bytes text)) }
    ensures told { IfErr result (λ e. (e ≡ outside no_memory) ⊎ (e ≡ outside NoReader)) }
{
    match opening.open::<N>() {
        Ok((live, passes)) => settle_rounds(stage, alloc, live, passes, division, options),
        Err(cause) => Err(fault_of(cause)),
    }
}

/// Returns the number of workers that is asked for, or that of the script.
fn workers_for(options: StressOptions, own: u32) -> u32
    requires options { AreLawful options }
    ensures value { result ≡ workers_of options.workers own }
    ensures some { 0 < result }
    ensures few { result ≤ most_workers }
{
    match options.workers {
        Some(workers) => workers,
        None => own.clamp(1, MOST_WORKERS),
    }
}

/// Stresses a script.
fn stress_script<T: Threads + Wait + Sync, S: ShowRounds + Sync>(
    stage: &Stage<'_, T, S>,
    alloc: Global,
    options: StressOptions,
    script: Script,
) -> Result<String, Fault>
    requires options { AreLawful options }
    ensures settled { IfOk result (λ text. IsSettledTextOf options script (string_bytes text)) }
    ensures told { IfErr result (λ e. (e ≡ outside no_memory) ⊎ (e ≡ outside NoReader)) }
{
    let Script {
        definition,
        workers,
        limits,
        steps,
    } = script;
    let workers = workers_for(options, workers);
    let division = divide(alloc, steps.into_vec())?;
    tell_notes(
        &stage.shows,
        &definition,
        division.calls.as_slice(),
        workers,
    );
    let opening = Opening::new(alloc, &definition, workers, limits).map_err(fault_of)?;
    run_threads::<Brand, T, S>(stage, alloc, opening, division, options)
}

/// Stresses the script that the reader contains, and writes the line of its sums over all links:
/// `settled made 9 totals 9 unflushed 0`.
///
/// Each worker, in a thread of its own if one can be started, makes the script's calls that name
/// it, in their order, and flushes, and repeats this for each round. Meanwhile this thread makes
/// the other events except flushes, once and in their order. A call, a flush or an event that is
/// refused is skipped. The calls of workers that do not exist are not made. Finally the hits of all
/// calls are added up.
///
/// While the first worker makes its rounds, the stage shows how many are done. It also shows how
/// many calls and flushes of each worker were refused, how many workers make no calls, how many
/// calls are of workers that do not exist, and whether the definition has no links.
///
/// The input is read to its end, or to the first byte beyond 1,048,576. If it has a fault, if
/// memory runs out, or if no more readers of the published world can be made (`NoReader`, which is
/// reported only if the input is a script), nothing is written. If a write fails, a prefix of the
/// line was written, and the failure is reported at 0.
pub fn stress_bytes<T: Threads + Wait + Sync, S: ShowRounds + Sync, R: Read, W: Write>(
    stage: &Stage<'_, T, S>,
    alloc: Global,
    options: StressOptions,
    reader: &mut Watched<R>,
    writer: &mut Watched<W>,
) -> Result<(), Fault>
    requires options { AreLawful options }
    ensures ok { OnOk result (IfSome (R.remaining reader.old.inner) (λ input. (text : List ℕ)
        × IsStressed options input text
        × Appends (W.contents writer.old.inner) (W.contents writer.new.inner) text)) }
    ensures failed { IfErr result (FailsStress options (R.remaining reader.old.inner)
        (W.contents writer.old.inner) (W.contents writer.new.inner)
        (HasFailed reader.old.failures reader.new.failures)
        (HasFailed writer.old.failures writer.new.failures)) }
    ensures script { IsErrOf result (outside NoReader) → IfSome (R.remaining reader.old.inner)
        IsScript }
    ensures honest { IsHonest result reader.old.failures reader.new.failures
        writer.old.failures writer.new.failures }
    ensures others { IfErr result (λ e. NoOtherFailed e.kind reader.old.failures
        reader.new.failures writer.old.failures writer.new.failures) }
    ensures end { OnOk result (IsAtEnd (R.remaining reader.new.inner)) }
    ensures most { LosesAtMost (most_bytes + 1) (R.remaining reader.old.inner)
        (R.remaining reader.new.inner) }
{
    let script = read_script_from(alloc, reader)?;
    let lines = stress_script(stage, alloc, options, script)?;
    write_lines(lines, writer)
}

/// Stresses the script in a JSON value, and writes its lines, as `stress_bytes` does.
pub fn stress_value<T: Threads + Wait + Sync, S: ShowRounds + Sync, W: Write>(
    stage: &Stage<'_, T, S>,
    alloc: Global,
    options: StressOptions,
    value: &Value,
    writer: &mut Watched<W>,
) -> Result<(), Fault>
    requires options { AreLawful options }
    ensures ok { OnOk result ((text : List ℕ) × IsStressedBy Ok options (view value.now) text
        × Appends (W.contents writer.old.inner) (W.contents writer.new.inner) text) }
    ensures failed { IfErr result (λ e. FailsStressBy Ok options (Some (view value.now))
        (W.contents writer.old.inner) (W.contents writer.new.inner)
        ⊥ (HasFailed writer.old.failures writer.new.failures) e) }
    ensures script { IsErrOf result (outside NoReader) → IsScriptBy Ok (view value.now) }
    ensures honest { IsHonest result 0 0 writer.old.failures writer.new.failures }
    ensures others { IfErr result (λ e. e.kind ≢ WriteFailed
        → writer.new.failures ≡ writer.old.failures) }
{
    let script = read_script_value(alloc, value)?;
    let lines = stress_script(stage, alloc, options, script)?;
    write_lines(lines, writer)
}
