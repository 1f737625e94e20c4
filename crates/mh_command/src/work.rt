//! The work of a request, over an input that is first read into memory if the options for reading
//! ask for it.
ghost use Rattle.std.specs.Prelude.{◌≡◌, ◌≢◌, ◌<◌, ◌≤◌, ◌⊎◌, ◌++◌, ℕ, List, [], None, Some, Ok, false, length, string_bytes, true, IfOk, IfErr, IfSome, OnErr, OnOk};
ghost use Rattle.std.specs.Io.KnownBytes.{IsAtEnd};
ghost use Rattle.serde_json.specs.View.{view};
ghost use Rattle.mh_json.specs.Inputs.{most_bytes, json_of_input};
ghost use Rattle.mh_text.specs.Bytes.{HasFailed};
ghost use Rattle.mh_json.specs.Gives.{no_memory, outside};
ghost use Rattle.mh_text.specs.Honest.{IsHonest, IsHonestReading, NoOtherFailed};
ghost use Rattle.mh_text.specs.Output.{IsUnread};
ghost use Rattle.mh_json.specs.declared.fault.TextFault.TheVariants.{ReadFailed, WriteFailed};
ghost use Rattle.mh_explain.specs.Refused.{NamesRefused};
ghost use Rattle.mh_command.specs.Answers.{fault_at, Works, WorksOn, FailsIn, FailsOn, IsFaultOf, IsHelp};
ghost use Rattle.mh_command.specs.CommandLine.{HasWorkers};
ghost use Rattle.mh_command.specs.Readings.{fault_told, form_of, IsExplained};

use crate::findings::{Findings, findings_in, help_for_text};
use crate::line_reasons::line_reasons;
use crate::notes::{tell_twice, tell_unflushed, tell_unread};
use crate::request::{Asked, Request};
use crate::status::{DONE, status_of_verdict};
use mh_explain::{InputForm, explanation_of_refused};
use mh_json::readers::parse_json;
use mh_json::{Fault, InputFault, RefusedEvent, TextFault};
use mh_profile::{check_profile, keep_claim, keep_profile, plan_profile};
use mh_stress::{ShowRounds, Stage, stress_bytes, stress_value};
use mh_text::{
    Watched, check_bytes, check_value, plan_bytes, plan_value, read_input, run_bytes, run_value,
};
use serde_json::Value;
use std::alloc::Global;
use std::io::{Read, Write};
use std::sync::Wait;
use std::thread::Threads;

/// The end of the work.
#[derive(Drop)]
pub(crate) struct Ending {
    /// The status, or the fault that ended the work.
    pub(crate) end: Result<u8, Fault>,
    /// The notes: lines for standard error, or nothing.
    pub(crate) help: String,
    /// The refused events of a run that the notes describe.
    pub(crate) refused: Vec<RefusedEvent>,
}

impl Ending {
    /// Returns an end without notes.
    fn alone(alloc: Global, end: Result<u8, Fault>) -> Ending
        ensures end { result.end ≡ end }
        ensures alone { string_bytes result.help ≡ [] }
        ensures clear { result.refused.items ≡ [] }
    {
        Ending::beside(alloc, end, String::new(alloc))
    }

    /// Returns an end with notes that describe no refused event.
    fn beside(alloc: Global, end: Result<u8, Fault>, help: String) -> Ending
        ensures end { result.end ≡ end }
        ensures help { result.help ≡ help }
        ensures clear { result.refused.items ≡ [] }
    {
        Ending {
            end,
            help,
            refused: Vec::new(alloc),
        }
    }
}

/// Does the work of a request, up to the last flush, and returns its status.
fn work<T: Threads + Wait + Sync, S: ShowRounds + Sync, R: Read, W: Write>(
    stage: &Stage<'_, T, S>,
    alloc: Global,
    request: Request,
    reader: &mut Watched<R>,
    out: &mut Watched<W>,
) -> Result<u8, Fault>
    requires workers { HasWorkers request }
    ensures works { IfOk result (WorksOn request (R.remaining reader.old.inner) []
        (W.contents out.old.inner) (W.contents out.new.inner)) }
    ensures small { IfOk result (λ status. status < 2) }
    ensures fails { IfErr result (FailsOn request (R.remaining reader.old.inner)
        (W.contents out.old.inner) (W.contents out.new.inner)
        (HasFailed reader.old.failures reader.new.failures)
        (HasFailed out.old.failures out.new.failures)) }
    ensures honest { IsHonest result reader.old.failures reader.new.failures
        out.old.failures out.new.failures }
    ensures others { IfErr result (λ e. NoOtherFailed e.kind reader.old.failures
        reader.new.failures out.old.failures out.new.failures) }
    ensures end { OnOk result (IsAtEnd (R.remaining reader.new.inner)) }
{
    match request {
        Request::Run(options) => {
            run_bytes(stage.rt, alloc, options, reader, out)?;
            Ok(DONE)
        }
        Request::Check => {
            let verdict = check_bytes(alloc, reader, out)?;
            Ok(status_of_verdict(verdict))
        }
        Request::CheckProfile => {
            let verdict = check_profile(alloc, reader, out)?;
            Ok(status_of_verdict(verdict))
        }
        Request::Plan(options) => {
            plan_bytes(stage.rt, alloc, options, reader, out)?;
            Ok(DONE)
        }
        Request::Stress(options) => {
            stress_bytes(stage, alloc, options, reader, out)?;
            Ok(DONE)
        }
        Request::Profile(options) => {
            plan_profile(stage.rt, alloc, options, reader, out)?;
            Ok(DONE)
        }
    }
}

/// Returns the fault of work over an input in memory. No read of that fails, so if one is reported,
/// memory ran out.
fn held(fault: Fault) -> Fault
    ensures read { fault.kind ≡ ReadFailed → result ≡ outside no_memory }
    ensures other { fault.kind ≢ ReadFailed → result ≡ fault }
{
    match fault.kind {
        TextFault::ReadFailed => Fault::from(InputFault::NoMemory),
        TextFault::Input(_) | TextFault::WriteFailed | TextFault::NoReader => fault,
    }
}

/// Does the same over an input in memory.
fn work_over<T: Threads + Wait + Sync, S: ShowRounds + Sync, W: Write>(
    stage: &Stage<'_, T, S>,
    alloc: Global,
    request: Request,
    input: &[u8],
    out: &mut Watched<W>,
) -> Result<u8, Fault>
    requires workers { HasWorkers request }
    ensures works { IfOk result (WorksOn request (Some input.now) []
        (W.contents out.old.inner) (W.contents out.new.inner)) }
    ensures small { IfOk result (λ status. status < 2) }
    ensures fails { IfErr result (FailsOn request (Some input.now)
        (W.contents out.old.inner) (W.contents out.new.inner) ⊥
        (HasFailed out.old.failures out.new.failures)) }
    ensures honest { IsHonest result 0 0 out.old.failures out.new.failures }
    ensures others { IfErr result (λ e. e.kind ≢ WriteFailed
        → out.new.failures ≡ out.old.failures) }
{
    let mut reader = Watched::new(input);
    match work(stage, alloc, request, &mut reader, out) {
        Ok(status) => Ok(status),
        Err(fault) => Err(held(fault)),
    }
}

/// Returns the lines that explain a fault of the lines of a profile, if it is asked for and memory
/// does not run out; otherwise nothing.
fn help_for(alloc: Global, asked: Asked, input: &[u8], fault: Option<InputFault>) -> String
    requires formless { form_of asked.request ≡ None }
    ensures unexplained { asked.reading.explain ≡ false → string_bytes result ≡ [] }
    ensures silent { fault ≡ None → string_bytes result ≡ [] }
    ensures explained { IsExplained asked.request input.now fault (string_bytes result) }
{
    if asked.reading.explain {
        if let Some(fault) = fault {
            if let Ok(lines) = line_reasons(alloc, asked.request, input, fault) {
                return lines;
            }
        }
    }
    String::new(alloc)
}

/// Returns the fault of the input that ended the work, if one did.
fn fault_of(end: Result<u8, Fault>) -> Option<InputFault>
    ensures ok { OnOk end (result ≡ None) }
    ensures value { result ≡ fault_told (fault_at end) }
{
    match end {
        Err(
            Fault {
                kind: TextFault::Input(fault),
                ..
            },
        ) => Some(fault),
        _ => None,
    }
}

/// Does the work over the lines of a profile in memory, and explains their fault.
fn work_on<T: Threads + Wait + Sync, S: ShowRounds + Sync, W: Write>(
    stage: &Stage<'_, T, S>,
    alloc: Global,
    asked: Asked,
    input: &[u8],
    out: &mut Watched<W>,
) -> Ending
    requires formless { form_of asked.request ≡ None }
    requires workers { HasWorkers asked.request }
    ensures works { IfOk result.end (Works asked (Some input.now) result.refused.items
        (W.contents out.old.inner) (W.contents out.new.inner)) }
    ensures small { IfOk result.end (λ status. status < 2) }
    ensures clear { OnErr result.end (result.refused.items ≡ []) }
    ensures fails { IfErr result.end (FailsIn asked (Some input.now)
        (W.contents out.old.inner) (W.contents out.new.inner) ⊥
        (HasFailed out.old.failures out.new.failures)) }
    ensures honest { IsHonest result.end 0 0 out.old.failures out.new.failures }
    ensures others { IfErr result.end (λ e. e.kind ≢ WriteFailed
        → out.new.failures ≡ out.old.failures) }
    ensures help { IsHelp asked (Some input.now) result.end result.refused.items
        (string_bytes result.help) }
{
    let end = work_over(stage, alloc, asked.request, input, out);
    Ending::beside(alloc, end, help_for(alloc, asked, input, fault_of(end)))
}

/// The result of the work: its status, and the refused events of a run.
#[derive(Drop)]
struct Worked {
    status: u8,
    refused: Vec<RefusedEvent>,
}

impl Worked {
    /// Returns the result of work in which no event was refused.
    fn of(alloc: Global, status: u8) -> Worked
        ensures status { result.status ≡ status }
        ensures clear { result.refused.items ≡ [] }
    {
        Worked {
            status,
            refused: Vec::new(alloc),
        }
    }
}

/// An input in memory, its JSON value, and its form.
#[derive(Clone, Copy)]
struct Parsed<'a> {
    input: &'a [u8],
    value: &'a Value,
    form: InputForm,
}

/// Does the work of a request over an input that was parsed, and returns the refused events of a
/// run.
fn work_parsed<T: Threads + Wait + Sync, S: ShowRounds + Sync, W: Write>(
    stage: &Stage<'_, T, S>,
    alloc: Global,
    request: Request,
    parsed: Parsed<'_>,
    out: &mut Watched<W>,
) -> Result<Worked, Fault>
    requires parsed { json_of_input parsed.input.now ≡ Ok (view parsed.value.now) }
    requires workers { HasWorkers request }
    ensures works { IfOk result (λ worked. WorksOn request (Some parsed.entry.input.now)
        worked.refused.items (W.contents out.old.inner) (W.contents out.new.inner) worked.status) }
    ensures small { IfOk result (λ worked. worked.status < 2) }
    ensures fails { IfErr result (FailsOn request (Some parsed.entry.input.now)
        (W.contents out.old.inner) (W.contents out.new.inner) ⊥
        (HasFailed out.old.failures out.new.failures)) }
    ensures honest { IsHonest result 0 0 out.old.failures out.new.failures }
    ensures others { IfErr result (λ e. e.kind ≢ WriteFailed
        → out.new.failures ≡ out.old.failures) }
{
    let value = parsed.value;
    match request {
        Request::Run(options) => Ok(Worked {
            refused: run_value(stage.rt, alloc, options, value, out)?,
            status: DONE,
        }),
        Request::Check => {
            let verdict = check_value(alloc, value, out)?;
            Ok(Worked::of(alloc, status_of_verdict(verdict)))
        }
        Request::Plan(options) => {
            plan_value(stage.rt, alloc, options, value, out)?;
            Ok(Worked::of(alloc, DONE))
        }
        Request::Stress(options) => {
            stress_value(stage, alloc, options, value, out)?;
            Ok(Worked::of(alloc, DONE))
        }
        // A profile is read by its lines.
        Request::CheckProfile | Request::Profile(_) => {
            let status = work_over(stage, alloc, request, parsed.input, out)?;
            Ok(Worked::of(alloc, status))
        }
    }
}

/// Returns the notes, followed by the lines of refused events, if they are asked for and memory
/// does not run out.
fn with_refused(
    alloc: Global,
    asked: Asked,
    help: String,
    script: &Value,
    refused: &[RefusedEvent],
) -> String
    ensures unexplained { asked.reading.explain ≡ false
        → string_bytes result ≡ string_bytes help }
    ensures value { (events : List ℕ) × (string_bytes result ≡ string_bytes help ++ events)
        × ((events ≡ []) ⊎ NamesRefused refused.now events) }
{
    let mut help = help;
    if asked.reading.explain {
        if let Ok(lines) = explanation_of_refused(alloc, script, refused) {
            let _ = help.push_str(lines.as_str());
        }
    }
    help
}

/// Does the work over an input that was parsed, unless a finding prevents it.
fn work_or_refuse<T: Threads + Wait + Sync, S: ShowRounds + Sync, W: Write>(
    stage: &Stage<'_, T, S>,
    alloc: Global,
    asked: Asked,
    parsed: Parsed<'_>,
    out: &mut Watched<W>,
) -> Ending
    requires formed { form_of asked.request ≡ Some parsed.form }
    requires parsed { json_of_input parsed.input.now ≡ Ok (view parsed.value.now) }
    requires workers { HasWorkers asked.request }
    ensures works { IfOk result.end (Works asked (Some parsed.entry.input.now)
        result.refused.items (W.contents out.old.inner) (W.contents out.new.inner)) }
    ensures small { IfOk result.end (λ status. status < 2) }
    ensures clear { OnErr result.end (result.refused.items ≡ []) }
    ensures fails { IfErr result.end (FailsIn asked (Some parsed.entry.input.now)
        (W.contents out.old.inner) (W.contents out.new.inner) ⊥
        (HasFailed out.old.failures out.new.failures)) }
    ensures honest { IsHonest result.end 0 0 out.old.failures out.new.failures }
    ensures others { IfErr result.end (λ e. e.kind ≢ WriteFailed
        → out.new.failures ≡ out.old.failures) }
    ensures help { IsHelp asked (Some parsed.entry.input.now) result.end result.refused.items
        (string_bytes result.help) }
{
    let Findings { fault, help } = findings_in(alloc, asked, parsed.form, parsed.value);
    if let Some(fault) = fault {
        return Ending::beside(alloc, Err(fault), help);
    }
    tell_unflushed(stage, alloc, asked, parsed.value);
    match work_parsed(stage, alloc, asked.request, parsed, out) {
        Ok(Worked { status, refused }) => Ending {
            end: Ok(status),
            help: with_refused(alloc, asked, help, parsed.value, refused.as_slice()),
            refused,
        },
        Err(fault) => Ending::beside(alloc, Err(fault), help),
    }
}

/// Parses an input in memory, and does the work over it.
fn work_read<T: Threads + Wait + Sync, S: ShowRounds + Sync, W: Write>(
    stage: &Stage<'_, T, S>,
    alloc: Global,
    asked: Asked,
    form: InputForm,
    input: &[u8],
    out: &mut Watched<W>,
) -> Ending
    requires formed { form_of asked.request ≡ Some form }
    requires short { length input.now ≤ most_bytes }
    requires workers { HasWorkers asked.request }
    ensures works { IfOk result.end (Works asked (Some input.now) result.refused.items
        (W.contents out.old.inner) (W.contents out.new.inner)) }
    ensures small { IfOk result.end (λ status. status < 2) }
    ensures clear { OnErr result.end (result.refused.items ≡ []) }
    ensures fails { IfErr result.end (FailsIn asked (Some input.now)
        (W.contents out.old.inner) (W.contents out.new.inner) ⊥
        (HasFailed out.old.failures out.new.failures)) }
    ensures honest { IsHonest result.end 0 0 out.old.failures out.new.failures }
    ensures others { IfErr result.end (λ e. e.kind ≢ WriteFailed
        → out.new.failures ≡ out.old.failures) }
    ensures help { IsHelp asked (Some input.now) result.end result.refused.items
        (string_bytes result.help) }
{
    match parse_json(alloc, input) {
        Ok(value) => {
            tell_twice(stage, alloc, asked, input);
            let parsed = Parsed {
                input,
                value: &value,
                form,
            };
            work_or_refuse(stage, alloc, asked, parsed, out)
        }
        Err(misread) => {
            let fault = Fault::from(misread.fault());
            let help = help_for_text(alloc, asked, input, misread);
            Ending::beside(alloc, Err(fault), help)
        }
    }
}

/// Reads the input into memory, and does the work over it.
fn work_whole<T: Threads + Wait + Sync, S: ShowRounds + Sync, R: Read, W: Write>(
    stage: &Stage<'_, T, S>,
    alloc: Global,
    asked: Asked,
    form: InputForm,
    reader: &mut Watched<R>,
    out: &mut Watched<W>,
) -> Ending
    requires formed { form_of asked.request ≡ Some form }
    requires workers { HasWorkers asked.request }
    ensures works { IfOk result.end (Works asked (R.remaining reader.old.inner) result.refused.items
        (W.contents out.old.inner) (W.contents out.new.inner)) }
    ensures small { IfOk result.end (λ status. status < 2) }
    ensures clear { OnErr result.end (result.refused.items ≡ []) }
    ensures fails { IfErr result.end (FailsIn asked (R.remaining reader.old.inner)
        (W.contents out.old.inner) (W.contents out.new.inner)
        (HasFailed reader.old.failures reader.new.failures)
        (HasFailed out.old.failures out.new.failures)) }
    ensures honest { IsHonest result.end reader.old.failures reader.new.failures
        out.old.failures out.new.failures }
    ensures others { IfErr result.end (λ e. NoOtherFailed e.kind reader.old.failures
        reader.new.failures out.old.failures out.new.failures) }
    ensures end { OnOk result.end (IsAtEnd (R.remaining reader.new.inner)) }
    ensures help { IsHelp asked (R.remaining reader.old.inner) result.end
        result.refused.items (string_bytes result.help) }
{
    match read_input(alloc, reader) {
        Ok(input) => work_read(stage, alloc, asked, form, &input, out),
        Err(kind) => Ending::alone(alloc, Err(Fault::from(kind))),
    }
}

/// Reads the lines of a profile into memory, with the plan that follows them if it is to be
/// checked.
fn keep_lines<R: Read>(
    alloc: Global,
    request: Request,
    reader: &mut Watched<R>,
) -> Result<Vec<u8>, Fault>
    requires formless { form_of request ≡ None }
    ensures ok { IfOk result (λ input. IfSome (R.remaining reader.old.inner)
        (λ bytes. input.items ≡ bytes)) }
    ensures failed { IfErr result (IsUnread (IsFaultOf request) (R.remaining reader.old.inner)
        (HasFailed reader.old.failures reader.new.failures)) }
    ensures honest { IsHonestReading result reader.old.failures reader.new.failures }
    ensures others { IfErr result (λ e. e.kind ≢ ReadFailed
        → reader.new.failures ≡ reader.old.failures) }
    ensures end { OnOk result (IsAtEnd (R.remaining reader.new.inner)) }
{
    match request {
        Request::CheckProfile => keep_claim(alloc, reader),
        // Of these only a profile has no form.
        Request::Run(_)
        | Request::Check
        | Request::Plan(_)
        | Request::Stress(_)
        | Request::Profile(_) => keep_profile(alloc, reader),
    }
}

/// Reads the lines of a profile into memory, and does the work over them.
fn work_lines<T: Threads + Wait + Sync, S: ShowRounds + Sync, R: Read, W: Write>(
    stage: &Stage<'_, T, S>,
    alloc: Global,
    asked: Asked,
    reader: &mut Watched<R>,
    out: &mut Watched<W>,
) -> Ending
    requires formless { form_of asked.request ≡ None }
    requires workers { HasWorkers asked.request }
    ensures works { IfOk result.end (Works asked (R.remaining reader.old.inner) result.refused.items
        (W.contents out.old.inner) (W.contents out.new.inner)) }
    ensures small { IfOk result.end (λ status. status < 2) }
    ensures clear { OnErr result.end (result.refused.items ≡ []) }
    ensures fails { IfErr result.end (FailsIn asked (R.remaining reader.old.inner)
        (W.contents out.old.inner) (W.contents out.new.inner)
        (HasFailed reader.old.failures reader.new.failures)
        (HasFailed out.old.failures out.new.failures)) }
    ensures honest { IsHonest result.end reader.old.failures reader.new.failures
        out.old.failures out.new.failures }
    ensures others { IfErr result.end (λ e. NoOtherFailed e.kind reader.old.failures
        reader.new.failures out.old.failures out.new.failures) }
    ensures end { OnOk result.end (IsAtEnd (R.remaining reader.new.inner)) }
    ensures help { IsHelp asked (R.remaining reader.old.inner) result.end
        result.refused.items (string_bytes result.help) }
{
    match keep_lines(alloc, asked.request, reader) {
        Ok(input) => work_on(stage, alloc, asked, &input, out),
        Err(fault) => Ending::alone(alloc, Err(fault)),
    }
}

/// Performs a request, up to the last flush, without a note on a failed read.
fn work_in<T: Threads + Wait + Sync, S: ShowRounds + Sync, R: Read, W: Write>(
    stage: &Stage<'_, T, S>,
    alloc: Global,
    asked: Asked,
    reader: &mut Watched<R>,
    out: &mut Watched<W>,
) -> Ending
    requires workers { HasWorkers asked.request }
    ensures works { IfOk result.end (Works asked (R.remaining reader.old.inner) result.refused.items
        (W.contents out.old.inner) (W.contents out.new.inner)) }
    ensures small { IfOk result.end (λ status. status < 2) }
    ensures clear { OnErr result.end (result.refused.items ≡ []) }
    ensures fails { IfErr result.end (FailsIn asked (R.remaining reader.old.inner)
        (W.contents out.old.inner) (W.contents out.new.inner)
        (HasFailed reader.old.failures reader.new.failures)
        (HasFailed out.old.failures out.new.failures)) }
    ensures honest { IsHonest result.end reader.old.failures reader.new.failures
        out.old.failures out.new.failures }
    ensures others { IfErr result.end (λ e. NoOtherFailed e.kind reader.old.failures
        reader.new.failures out.old.failures out.new.failures) }
    ensures end { OnOk result.end (IsAtEnd (R.remaining reader.new.inner)) }
    ensures help { IsHelp asked (R.remaining reader.old.inner) result.end
        result.refused.items (string_bytes result.help) }
{
    if !asked.reads_whole() {
        return Ending::alone(alloc, work(stage, alloc, asked.request, reader, out));
    }
    match asked.request.form() {
        Some(form) => work_whole(stage, alloc, asked, form, reader, out),
        None => work_lines(stage, alloc, asked, reader, out),
    }
}

/// Does the work of a request, up to the last flush.
pub(crate) fn work_asked<T: Threads + Wait + Sync, S: ShowRounds + Sync, R: Read, W: Write>(
    stage: &Stage<'_, T, S>,
    alloc: Global,
    asked: Asked,
    reader: &mut Watched<R>,
    out: &mut Watched<W>,
) -> Ending
    requires workers { HasWorkers asked.request }
    ensures works { IfOk result.end (Works asked (R.remaining reader.old.inner) result.refused.items
        (W.contents out.old.inner) (W.contents out.new.inner)) }
    ensures small { IfOk result.end (λ status. status < 2) }
    ensures clear { OnErr result.end (result.refused.items ≡ []) }
    ensures fails { IfErr result.end (FailsIn asked (R.remaining reader.old.inner)
        (W.contents out.old.inner) (W.contents out.new.inner)
        (HasFailed reader.old.failures reader.new.failures)
        (HasFailed out.old.failures out.new.failures)) }
    ensures honest { IsHonest result.end reader.old.failures reader.new.failures
        out.old.failures out.new.failures }
    ensures others { IfErr result.end (λ e. NoOtherFailed e.kind reader.old.failures
        reader.new.failures out.old.failures out.new.failures) }
    ensures end { OnOk result.end (IsAtEnd (R.remaining reader.new.inner)) }
    ensures help { IsHelp asked (R.remaining reader.old.inner) result.end
        result.refused.items (string_bytes result.help) }
{
    let ending = work_in(stage, alloc, asked, reader, out);
    tell_unread(stage, &ending.end);
    ending
}
