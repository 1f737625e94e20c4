//! Lines that say where a fault of an input is, what was found there, and why it is a fault.
ghost use Rattle.std.specs.Prelude.{◌≡◌, ◌≢◌, ◌⊎◌, [], option_map, string_bytes, IfOk};
ghost use Rattle.serde_json.specs.View.{view};
ghost use Rattle.mh_json.specs.declared.fault.InputFault.TheVariants.{NoMemory as out_of_memory};
ghost use Rattle.mh_json.specs.Forms.{misread_by};
ghost use Rattle.mh_explain.specs.Explanations.{misread_of, place_text, script_around as script_with, Explains, ExplainsDefinition, ExplainsMisread, NamesPlace};

use crate::faulty::{FaultyPart, faulty_part};
use crate::found::found;
use crate::no_json::Text;
use crate::path::ShownPath;
use crate::spot::Spot;
use crate::values::value_at;
use crate::why::why;
use mh_base::NoMemory;
use mh_json::readers::parse_json;
use mh_json::{InputFault, InputForm, Key, Misread, Wanted};
use serde_json::{Value, json};
use std::alloc::{AllocError, Global};

/// Returns a path as text; the empty path has words of its own.
fn path_text(alloc: Global, keys: &[Key]) -> Result<String, NoMemory>
    ensures value { IfOk result (λ s. string_bytes s ≡ place_text keys.now) }
{
    if keys.is_empty() {
        return Ok(String::from_str(alloc, "the input itself")?);
    }
    let path = ShownPath { keys };
    Ok(format!(in alloc; "{path}")?)
}

/// Returns a line with the value at the place of a fault, and a line with the reason why it is a
/// fault.
fn reasons(alloc: Global, fault: InputFault, spot: &Spot<'_>) -> Result<String, NoMemory> {
    let found = found(alloc, spot)?;
    let why = why(alloc, fault, spot)?;
    Ok(format!(in alloc; "  found: {found}\n  why:   {why}\n")?)
}

/// Returns the explanation of the fault of a part of a value that is read as a form.
fn of_part(
    alloc: Global,
    form: InputForm,
    input: &Value,
    part: &FaultyPart,
) -> Result<String, NoMemory>
    ensures place { IfOk result (λ lines. NamesPlace part.now.path.items (string_bytes lines)) }
{
    let path = part.path.as_slice();
    let place = path_text(alloc, path)?;
    let reasons = match value_at(input, path) {
        Some(value) => {
            let spot = Spot {
                form,
                input,
                path,
                value,
                wanted: part.wanted,
            };
            reasons(alloc, part.fault, &spot)?
        }
        None => String::new(alloc),
    };
    Ok(format!(in alloc; "  where: {place}\n{reasons}")?)
}

/// Returns the lines that explain the fault of a part of a value (see `faulty_part`), as
/// `explanation` does, or none if no part has a fault.
///
/// Fails only if memory runs out.
pub fn explanation_of_part(
    alloc: Global,
    form: InputForm,
    value: &Value,
    part: &Option<FaultyPart>,
) -> Result<String, NoMemory>
    ensures explains { IfOk result (λ lines. ExplainsMisread
        (option_map misread_of part.now) (string_bytes lines)) }
{
    match part {
        Some(part) => of_part(alloc, form, value, part),
        None => Ok(String::new(alloc)),
    }
}

/// Returns the explanation of the first fault of a JSON value.
fn of_value(alloc: Global, form: InputForm, value: &Value) -> Result<String, NoMemory>
    ensures explains { IfOk result (λ lines. ExplainsMisread (misread_by form (view value.now))
        (string_bytes lines)) }
{
    let part = faulty_part(alloc, form, value)?;
    explanation_of_part(alloc, form, value, &part)
}

/// Returns the lines that explain why a text is not valid JSON, given how it was misread, as
/// `explanation` does.
///
/// Fails only if memory runs out, now or when it was misread.
pub fn explanation_of_text(
    alloc: Global,
    input: &[u8],
    misread: Misread,
) -> Result<String, NoMemory>
    ensures memory { IfOk result (λ _. misread.fault ≢ out_of_memory) }
{
    match (misread.fault(), misread.wanted()) {
        (InputFault::NoMemory, _) => Err(NoMemory),
        (
            _,
            Wanted::Json {
                line,
                column,
                is_cut,
            },
        ) => Text {
            input,
            line,
            column,
            is_cut,
        }
        .explanation(alloc),
        _ => Ok(String::new(alloc)),
    }
}

/// Returns the lines that explain a fault of an input: where it is, what was found there, and why
/// it is a fault.
///
/// Each line begins with two spaces and a word, `where:`, `found:` or `why:`, and ends with a
/// newline. The first line names the place of the first fault found when the input is read as this
/// form. There are no lines if there is no such fault, or if no part of the input has it, because
/// memory ran out or the input is too long. Fails only if memory runs out.
pub fn explanation(
    alloc: Global,
    form: InputForm,
    input: &[u8],
    fault: InputFault,
) -> Result<String, NoMemory>
    ensures place { IfOk result (λ lines. Explains form input.now fault (string_bytes lines)) }
    ensures none { (fault ≡ InputFault.NoMemory) ⊎ (fault ≡ InputFault.TooLong)
        → IfOk result (λ lines. string_bytes lines ≡ []) }
{
    match fault {
        InputFault::NoMemory | InputFault::TooLong => Ok(String::new(alloc)),
        _ => match parse_json(alloc, input) {
            Ok(value) => of_value(alloc, form, &value),
            Err(misread) => explanation_of_text(alloc, input, misread),
        },
    }
}

/// Returns the script of a definition, with one worker and without events.
fn script_around(alloc: Global, definition: Value) -> Result<Value, AllocError>
    ensures value { IfOk result (λ v. view v ≡ script_with (view definition)) }
{
    json!(in alloc; {"definition": definition, "events": [], "workers": 1})
}

/// Returns the lines that explain the fault of a definition that is not part of a script, as a host
/// opens one.
///
/// They are those of the script of this definition, so that each place in it begins with
/// `definition`. There are none if it has no fault. Fails only if memory runs out.
pub fn definition_explanation(alloc: Global, input: &[u8]) -> Result<String, NoMemory>
    ensures place { IfOk result (λ lines. ExplainsDefinition input.now (string_bytes lines)) }
{
    match parse_json(alloc, input) {
        Ok(definition) => {
            let script = script_around(alloc, definition)?;
            of_value(alloc, InputForm::Script, &script)
        }
        Err(misread) => explanation_of_text(alloc, input, misread),
    }
}
