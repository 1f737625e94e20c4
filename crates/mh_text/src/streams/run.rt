//! Running scripts: reads bytes and writes lines.
ghost use Rattle.std.specs.Prelude.{◌≡◌, ◌≢◌, ◌+◌, ◌↔◌, ℕ, true, Ok, IfOk, IfErr, IsTrue, OnOk, IfSome, MatchResult, List, Some};
ghost use Rattle.serde_json.specs.View.{view};
ghost use Rattle.std.specs.Io.KnownBytes.{Appends, IsAtEnd, Keeps};
ghost use Rattle.mh_json.specs.declared.json.script.Script.{Script};
ghost use Rattle.mh_text.specs.Bytes.{AppendsFront, HasFailed, LosesAtMost};
ghost use Rattle.mh_json.specs.Inputs.{most_bytes};
ghost use Rattle.mh_text.specs.Honest.{IsHonest, IsHonestReading, NoOtherFailed};
ghost use Rattle.mh_text.specs.Lines.{line_of};
ghost use Rattle.mh_text.specs.Refused.{refusal_in};
ghost use Rattle.mh_text.specs.Steps.{Told, Takes};
ghost use Rattle.mh_json.specs.Script.{script_of_input, script_of};
ghost use Rattle.mh_text.specs.Output.{first, report_where, AppendsRun, EndsIn, EndsEarly, EndsReading, FailsReport, IsUnread, Failed, FailedBy, IsEnd, MayEnd, RunsTo};

use crate::lines::line;
use crate::lines::report::report_lines;
use crate::streams::input::read_input;
use crate::streams::planning::write_lines;
use crate::streams::refused::{RefusedEvents, refusal_of};
use crate::streams::stepping::answer;
use crate::streams::watched::Watched;
use mh_core::{Machine, Refusal, Reply};
use mh_json::readers::read_script_value;
use mh_json::{Fault, InputFault, RefusedEvent, Script, Step, TextFault, read_script};
use mh_site::Definition;
use serde_json::Value;
use std::alloc::Global;
use std::io::{Read, Write};
use std::thread::Threads;

/// Options of a run, besides the lines of its replies.
#[derive(Clone, Copy, Debug, PartialEq, Eq)]
pub struct RunOptions {
    /// If true, a report of the machine follows them (see `report_lines`).
    pub report: bool,
}

/// Writes the line of the step with this number.
fn write_text<W: Write>(line: &str, at: u64, writer: &mut Watched<W>) -> Result<(), Fault>
    ensures line { MatchResult result
        (λ _. Appends (W.contents writer.old.inner) (W.contents writer.new.inner) line.now)
        (λ e. (e.at ≡ at) × AppendsFront (W.contents writer.old.inner)
        (W.contents writer.new.inner) line.now) }
    ensures kind { IfErr result (λ e. (e.kind ≡ TextFault.WriteFailed)
        × HasFailed writer.old.failures writer.new.failures) }
    ensures kept { OnOk result (writer.new.failures ≡ writer.old.failures) }
{
    match writer.write_all(line.as_bytes()) {
        Ok(()) => Ok(()),
        Err(kind) => Err(Fault { kind, at }),
    }
}

/// Returns whether an event was refused for lack of memory.
fn is_out_of_memory(reply: &Reply) -> bool
    ensures decides { IsTrue result ↔ reply.now ≡ Reply.Refused Refusal.NoMemory }
{
    matches!(reply, Reply::Refused(Refusal::NoMemory))
}

/// Writes the line of a reply to the step with number `at`, which names the number `named`. The
/// line of an event that found no memory is made without allocating, so that the run continues.
fn write_line<W: Write>(
    alloc: Global,
    definition: &Definition,
    named: usize,
    reply: &Reply,
    at: u64,
    writer: &mut Watched<W>,
) -> Result<(), Fault>
    ensures line { MatchResult result
        (λ _. Appends (W.contents writer.old.inner) (W.contents writer.new.inner)
        (line_of definition.now (named, reply.now))) (λ e. (e.at ≡ at)
        × AppendsFront (W.contents writer.old.inner) (W.contents writer.new.inner)
        (line_of definition.now (named, reply.now))) }
    ensures kind { IfErr result (λ e. IsEnd (HasFailed writer.old.failures writer.new.failures)
        e.kind) }
    ensures spared { IfErr result (λ e. MayEnd e.kind reply.now) }
    ensures kept { OnOk result (writer.new.failures ≡ writer.old.failures) }
    ensures others { IfErr result (λ e. e.kind ≢ TextFault.WriteFailed
        → writer.new.failures ≡ writer.old.failures) }
{
    if is_out_of_memory(reply) {
        return write_text("refused 1 NoMemory\n", at, writer);
    }
    let Ok(text) = line(alloc, definition, named, reply) else {
        return Err(Fault {
            kind: TextFault::Input(InputFault::NoMemory),
            at,
        });
    };
    write_text(text.as_str(), at, writer)
}

/// Runs one step, writes its line, and returns the reason why it was refused, if it was.
fn write_step<T: Threads + Sync, W: Write>(
    rt: &T,
    alloc: Global,
    machine: &mut Machine,
    step: Step,
    at: u64,
    writer: &mut Watched<W>,
) -> Result<Option<Refusal>, Fault>
    ensures step { (told : Told) × Takes machine.old.setting machine.old.history step told
        machine.new.history × MatchResult result
        (λ _. Appends (W.contents writer.old.inner) (W.contents writer.new.inner)
        (line_of machine.old.setting.definition told)) (λ e. (e.at ≡ at)
        × AppendsFront (W.contents writer.old.inner) (W.contents writer.new.inner)
        (line_of machine.old.setting.definition told))
        × (IfErr result (λ e. MayEnd e.kind told.1)
        × IfOk result (λ refusal. refusal ≡ refusal_in told.1)) }
    ensures setting { machine.new.setting ≡ machine.old.setting }
    ensures kind { IfErr result (λ e. IsEnd (HasFailed writer.old.failures writer.new.failures)
        e.kind) }
    ensures kept { OnOk result (writer.new.failures ≡ writer.old.failures) }
    ensures others { IfErr result (λ e. e.kind ≢ TextFault.WriteFailed
        → writer.new.failures ≡ writer.old.failures) }
{
    let named = step.number();
    let reply = answer(rt, alloc, machine, step);
    let definition = machine.book().definition();
    write_line(alloc, definition, named, &reply, at, writer)?;
    Ok(refusal_of(&reply))
}

/// The machine after a run, and the refused events of the run.
#[derive(Drop)]
struct Ran {
    machine: Machine,
    refused: Vec<RefusedEvent>,
}

/// Runs the steps, writes the line of each, and returns the machine after them, and the events that
/// were refused.
fn run_steps<T: Threads + Sync, W: Write>(
    rt: &T,
    alloc: Global,
    machine: Machine,
    steps: Vec<Step>,
    writer: &mut Watched<W>,
) -> Result<Ran, Fault>
    ensures ok { IfOk result (λ ran. RunsTo machine steps.items ran.machine ran.refused.items
        (W.contents writer.old.inner) (W.contents writer.new.inner)) }
    ensures kind { IfErr result (λ e. IsEnd (HasFailed writer.old.failures writer.new.failures)
        e.kind) }
    ensures kept { OnOk result (writer.new.failures ≡ writer.old.failures) }
    ensures others { IfErr result (λ e. e.kind ≢ TextFault.WriteFailed
        → writer.new.failures ≡ writer.old.failures) }
    ensures ends { IfErr result (λ e. EndsIn machine steps.items e (W.contents writer.old.inner)
        (W.contents writer.new.inner)) }
{
    let mut machine = machine;
    let mut refused = RefusedEvents::new(alloc);
    let mut at = 0;
    for step in steps {
        at += 1;
        let refusal = write_step(rt, alloc, &mut machine, step, at, writer)?;
        refused.add(at, refusal);
    }
    Ok(Ran {
        machine,
        refused: refused.into_events(),
    })
}

/// Writes the report of a machine, if the options ask for it.
fn write_report<W: Write>(
    alloc: Global,
    options: RunOptions,
    machine: &Machine,
    writer: &mut Watched<W>,
) -> Result<(), Fault>
    ensures ok { OnOk result (Appends (W.contents writer.old.inner) (W.contents writer.new.inner)
        (report_where options.report machine.now)) }
    ensures kept { OnOk result (writer.new.failures ≡ writer.old.failures) }
    ensures others { IfErr result (λ e. e.kind ≢ TextFault.WriteFailed
        → writer.new.failures ≡ writer.old.failures) }
    ensures failed { IfErr result (FailsReport options machine.now (W.contents writer.old.inner)
        (W.contents writer.new.inner) (HasFailed writer.old.failures writer.new.failures)) }
{
    if options.report {
        write_lines(report_lines(alloc, machine)?, writer)?;
    }
    Ok(())
}

/// Returns the script that the reader contains, or its first fault in the order of reading (see
/// `read_script`).
///
/// The input is read to its end, or to the first byte beyond 1,048,576.
pub fn read_script_from<R: Read>(alloc: Global, reader: &mut Watched<R>) -> Result<Script, Fault>
    ensures ok { IfOk result (λ script. IfSome (R.remaining reader.old.inner)
        (λ input. script_of_input input ≡ Ok script)) }
    ensures failed { IfErr result (IsUnread EndsReading (R.remaining reader.old.inner)
        (HasFailed reader.old.failures reader.new.failures)) }
    ensures honest { IsHonestReading result reader.old.failures reader.new.failures }
    ensures others { IfErr result (λ e. e.kind ≢ TextFault.ReadFailed
        → reader.new.failures ≡ reader.old.failures) }
    ensures end { OnOk result (IsAtEnd (R.remaining reader.new.inner)) }
    ensures most { LosesAtMost (most_bytes + 1) (R.remaining reader.old.inner)
        (R.remaining reader.new.inner) }
{
    let input = read_input(alloc, reader)?;
    read_script(alloc, &input)
}

/// Runs a script, writes the line of each reply and the report that the options ask for, and
/// returns the events that were refused.
fn run_script<T: Threads + Sync, W: Write>(
    rt: &T,
    alloc: Global,
    options: RunOptions,
    script: Script,
    writer: &mut Watched<W>,
) -> Result<Vec<RefusedEvent>, Fault>
    ensures ok { IfOk result (λ refused. AppendsRun options (first script) script.steps
        refused.items (W.contents writer.old.inner) (W.contents writer.new.inner)) }
    ensures kept { OnOk result (writer.new.failures ≡ writer.old.failures) }
    ensures others { IfErr result (λ e. e.kind ≢ TextFault.WriteFailed
        → writer.new.failures ≡ writer.old.failures) }
    ensures failed { IfErr result (EndsEarly options script (W.contents writer.old.inner)
        (W.contents writer.new.inner) (HasFailed writer.old.failures writer.new.failures)) }
{
    let Script {
        definition,
        workers,
        limits,
        steps,
    } = script;
    let machine = Machine::open(alloc, &definition, workers, limits)?;
    let ran = run_steps(rt, alloc, machine, steps.into_vec(), writer)?;
    write_report(alloc, options, &ran.machine, writer)?;
    Ok(ran.refused)
}

/// Runs the script that the reader contains, and writes the line of each reply, followed by the
/// report of the machine if the options ask for it (see `report_lines`).
///
/// The input is read to its end, or to the first byte beyond 1,048,576, before the first event. If
/// it has a fault, nothing is written. An event that finds no memory has its line, and the run
/// continues. If a run ends because the line of another event finds no memory or a write fails, the
/// lines of the events before that one, and a prefix of its own line, were written. A plan that is
/// asked for is made with as many workers as the script has. If lack of memory or a failing write
/// ends the report, this is reported at 0; then the lines of all events, and a prefix of the
/// report, were written.
pub fn run_bytes<T: Threads + Sync, R: Read, W: Write>(
    rt: &T,
    alloc: Global,
    options: RunOptions,
    reader: &mut Watched<R>,
    writer: &mut Watched<W>,
) -> Result<(), Fault>
    ensures ok { OnOk result (IfSome (R.remaining reader.old.inner) (λ input. (script : Script)
        × (refused : List RefusedEvent) × (script_of_input input ≡ Ok script)
        × AppendsRun options (first script) script.steps refused (W.contents writer.old.inner)
        (W.contents writer.new.inner))) }
    ensures failed { IfErr result (λ e. Failed options (R.remaining reader.old.inner)
        (W.contents writer.old.inner) (W.contents writer.new.inner)
        (HasFailed reader.old.failures reader.new.failures)
        (HasFailed writer.old.failures writer.new.failures) e) }
    ensures honest { IsHonest result reader.old.failures reader.new.failures
        writer.old.failures writer.new.failures }
    ensures others { IfErr result (λ e. NoOtherFailed e.kind reader.old.failures
        reader.new.failures writer.old.failures writer.new.failures) }
    ensures end { OnOk result (IsAtEnd (R.remaining reader.new.inner)) }
    ensures most { LosesAtMost (most_bytes + 1) (R.remaining reader.old.inner)
        (R.remaining reader.new.inner) }
{
    let script = read_script_from(alloc, reader)?;
    run_script(rt, alloc, options, script, writer)?;
    Ok(())
}

/// Runs the script in a JSON value, as `run_bytes` does, and returns the events that were refused,
/// in order; or none of them, if memory ran out for one.
pub fn run_value<T: Threads + Sync, W: Write>(
    rt: &T,
    alloc: Global,
    options: RunOptions,
    value: &Value,
    writer: &mut Watched<W>,
) -> Result<Vec<RefusedEvent>, Fault>
    ensures ok { IfOk result (λ refused. (script : Script)
        × (script_of (view value.now) ≡ Ok script)
        × AppendsRun options (first script) script.steps refused.items
        (W.contents writer.old.inner) (W.contents writer.new.inner)) }
    ensures failed { IfErr result (λ e. FailedBy Ok options (Some (view value.now))
        (W.contents writer.old.inner) (W.contents writer.new.inner)
        ⊥ (HasFailed writer.old.failures writer.new.failures) e) }
    ensures honest { IsHonest result 0 0 writer.old.failures writer.new.failures }
    ensures others { IfErr result (λ e. e.kind ≢ TextFault.WriteFailed
        → writer.new.failures ≡ writer.old.failures) }
{
    let script = read_script_value(alloc, value)?;
    run_script(rt, alloc, options, script, writer)
}
