//! Findings in an input before the work: its first fault, the explanation, and unknown keys.
ghost use Rattle.std.specs.Prelude.{◌≡◌, ◌⊎◌, [], List, ℕ, Ok, Some, false, if◌then◌else◌, nat_lt, None, option_map, string_bytes, IfOk};
ghost use Rattle.serde_json.specs.View.{view};
ghost use Rattle.mh_json.specs.Gives.{no_memory, outside};
ghost use Rattle.mh_json.specs.Inputs.{json_of_input};
ghost use Rattle.mh_json.specs.declared.fault.InputFault.TheVariants.{NoMemory as out_of_memory};
ghost use Rattle.mh_json.specs.declared.fault.TextFault.TheVariants.{Input};
ghost use Rattle.mh_explain.specs.Explanations.{misread_of};
ghost use Rattle.mh_explain.specs.Unread.{first_unread_in};
ghost use Rattle.mh_command.specs.inner.Findings.{event_bound, event_of as number_of_event, fault_in, first_refused, AreFindings, IsExplainedIn, IsFaultBefore};
ghost use Rattle.mh_command.specs.Readings.{form_of, unread_fault as fault_unread};

use crate::request::Asked;
use mh_core::NoMemory;
use mh_explain::{
    FaultyPart, InputForm, UnreadKeys, explanation_of_part, explanation_of_text, faulty_part,
    unread_keys,
};
use mh_json::{Fault, Field, InputFault, Key, Misread, TextFault};
use serde_json::Value;
use std::alloc::Global;

/// Findings in an input before the work.
#[derive(Drop)]
pub(crate) struct Findings {
    /// The fault that prevents the work, if there is one.
    pub(crate) fault: Option<Fault>,
    /// The lines that explain it, followed by those of unknown keys.
    pub(crate) help: String,
}

impl Findings {
    /// Memory ran out.
    fn out_of_memory(alloc: Global) -> Findings
        ensures fault { result.fault ≡ Some (outside no_memory) }
        ensures alone { string_bytes result.help ≡ [] }
    {
        Findings {
            fault: Some(Fault::from(InputFault::NoMemory)),
            help: String::new(alloc),
        }
    }
}

/// Returns the fault of an unknown key in the event of this number, or outside the events at 0.
pub(crate) fn unread_fault(at: u64) -> Fault
    ensures value { result ≡ fault_unread at }
{
    Fault {
        kind: TextFault::Input(InputFault::BadShape),
        at,
    }
}

/// Returns the number of the event that keys lead into, from 1, or 0 if they lead into none; `None`
/// if it would be 2^64, past every event.
fn event_of(path: &[Key]) -> Option<u64>
    ensures value { result ≡ (if nat_lt (number_of_event path.now) event_bound
        then Some (number_of_event path.now) else None) }
{
    match path {
        [Key::Member(Field::Events), Key::Item(item), ..] => (*item as u64).checked_add(1),
        _ => Some(0),
    }
}

/// Returns the fault of a part of an input, with the number of its event.
fn fault_of(part: &FaultyPart) -> Fault
    ensures value { (result ≡ outside no_memory) ⊎ (result ≡ fault_in (misread_of part.now)) }
{
    match event_of(part.path.as_slice()) {
        Some(at) => Fault {
            kind: TextFault::Input(part.fault),
            at,
        },
        None => Fault::from(InputFault::NoMemory),
    }
}

/// Returns the place of the first unknown key, if the input is refused for it.
fn refused_for(asked: Asked, unread: &UnreadKeys) -> Option<u64>
    ensures value { result ≡ first_refused asked unread.now.first }
{
    if asked.reading.strict {
        unread.first
    } else {
        None
    }
}

/// Returns the fault that prevents the work: that of an unknown key, if the input is refused for
/// it, and otherwise that of a part that could not be read.
fn fault_before(refused: Option<u64>, part: &Option<FaultyPart>) -> Option<Fault>
    ensures value { IsFaultBefore refused (option_map misread_of part.now)
        result }
{
    match (refused, part) {
        (Some(at), _) => Some(unread_fault(at)),
        (None, Some(part)) => Some(fault_of(part)),
        (None, None) => None,
    }
}

/// Returns the lines of unknown keys.
fn notes(unread: &UnreadKeys) -> &str
    ensures silent { unread.now.first ≡ None → result.now ≡ [] }
{
    match unread.first {
        Some(_) => unread.notes.as_str(),
        None => "",
    }
}

/// Returns the lines that explain the fault of a part of an input, if one has a fault, followed by
/// those of unknown keys.
fn explain(
    alloc: Global,
    form: InputForm,
    value: &Value,
    part: &Option<FaultyPart>,
    unread: &UnreadKeys,
) -> Result<String, NoMemory>
    ensures explained { IfOk result (λ help. IsExplainedIn
        (option_map misread_of part.now) unread.now.first
        (string_bytes help)) }
{
    let mut help = explanation_of_part(alloc, form, value, part)?;
    help.push_str(notes(unread))?;
    Ok(help)
}

/// Returns the same, and nothing if memory runs out.
fn help_in(
    alloc: Global,
    form: InputForm,
    value: &Value,
    part: &Option<FaultyPart>,
    unread: &UnreadKeys,
) -> String
    ensures explained { IsExplainedIn (option_map misread_of part.now)
        unread.now.first (string_bytes result) }
{
    match explain(alloc, form, value, part, unread) {
        Ok(help) => help,
        Err(NoMemory) => String::new(alloc),
    }
}

/// Returns the findings in an input whose fault is not to be explained: the key for which it is
/// refused.
fn findings_unexplained(alloc: Global, asked: Asked, unread: &UnreadKeys) -> Findings
    ensures fault { result.fault ≡ option_map fault_unread (first_refused asked unread.now.first) }
    ensures alone { string_bytes result.help ≡ [] }
{
    Findings {
        fault: refused_for(asked, unread).map(unread_fault),
        help: String::new(alloc),
    }
}

/// Returns the findings in an input that is this value of JSON, with these unknown keys.
fn findings_beside(
    alloc: Global,
    asked: Asked,
    form: InputForm,
    value: &Value,
    unread: &UnreadKeys,
) -> Findings
    requires formed { form_of asked.request ≡ Some form }
    requires unread { unread.now.first ≡ first_unread_in form (view value.now) }
    ensures findings { (bytes : List ℕ) → json_of_input bytes ≡ Ok (view value.now)
        → AreFindings asked bytes result.fault (string_bytes result.help) }
{
    if !asked.reading.explain {
        return findings_unexplained(alloc, asked, unread);
    }
    match faulty_part(alloc, form, value) {
        Ok(part) => Findings {
            fault: fault_before(refused_for(asked, unread), &part),
            help: help_in(alloc, form, value, &part, unread),
        },
        Err(NoMemory) => Findings::out_of_memory(alloc),
    }
}

/// Returns the findings in an input that is this value of JSON.
pub(crate) fn findings_in(alloc: Global, asked: Asked, form: InputForm, value: &Value) -> Findings
    requires formed { form_of asked.request ≡ Some form }
    ensures findings { (bytes : List ℕ) → json_of_input bytes ≡ Ok (view value.now)
        → AreFindings asked bytes result.fault (string_bytes result.help) }
{
    match unread_keys(alloc, form, value) {
        Ok(unread) => findings_beside(alloc, asked, form, value, &unread),
        Err(NoMemory) => Findings::out_of_memory(alloc),
    }
}

/// Returns the lines that explain why an input is not valid JSON, if that is asked for and memory
/// does not run out.
pub(crate) fn help_for_text(alloc: Global, asked: Asked, input: &[u8], misread: Misread) -> String
    ensures unexplained { asked.reading.explain ≡ false → string_bytes result ≡ [] }
    ensures memory { misread.fault ≡ out_of_memory → string_bytes result ≡ [] }
{
    if asked.reading.explain {
        if let Ok(help) = explanation_of_text(alloc, input, misread) {
            return help;
        }
    }
    String::new(alloc)
}
