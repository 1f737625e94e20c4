//! Explanations of why a text cannot be read.

ghost use Rattle.std.specs.Prelude.{◌≡◌, ◌≢◌, None, drop, string_bytes, IfErr, IfOk, OnErr, OnOk};
ghost use Rattle.std.specs.List.{slice_get};
ghost use Rattle.mhlink_c.specs.Explaining.{Copies, IsExplanation, RefusesLines, forms};
ghost use Rattle.mhlink_c.specs.Statuses.{no_memory, status_of as number_of};
ghost use Rattle.mhlink_c.specs.declared.failure.Failure.{Failure as FaultOf};
ghost use Rattle.mhlink_c.specs.declared.failure.Failure.TheVariants.{Short, Unknown};

use crate::buffers::copy;
use crate::failure::{Failure, status};
use mh_explain::{InputFault, InputForm, definition_explanation, explanation};
use std::alloc::Global;

/// The forms of texts.
#[derive(Clone, Copy, Debug)]
pub(crate) enum TextForm {
    /// A definition on its own, as `mhlink_open` reads it.
    Definition,
    /// An input of the program `mhlink`.
    Input(InputForm),
}

// All forms, each at its number in C.
const FORMS: [TextForm; 4] = [
    TextForm::Definition,
    TextForm::Input(InputForm::Script),
    TextForm::Input(InputForm::Problem),
    TextForm::Input(InputForm::Claim),
];

fn form_of(number: u32) -> Option<TextForm>
    ensures value { result ≡ slice_get forms number }
{
    form_at(&FORMS, number as usize)
}

fn form_at(all: &[TextForm], place: usize) -> Option<TextForm>
    ensures value { result ≡ slice_get all.now place }
{
    let form = all.get(place)?;
    Some(*form)
}

// Returns the lines that explain the fault of a text. Call it for any fault but NoMemory.
fn explained(alloc: Global, form: TextForm, text: &[u8]) -> Result<String, Failure>
    ensures value { IfOk result (λ lines. IsExplanation form text.now (string_bytes lines)) }
    ensures refused { IfErr result (λ e. e ≡ no_memory) }
{
    match form {
        TextForm::Definition => Ok(definition_explanation(alloc, text)?),
        TextForm::Input(form) => Ok(explanation(alloc, form, text, InputFault::NotJson)?),
    }
}

/// Copies to `buffer` the lines that explain why a text cannot be read as a form, as
/// `mhlink --explain` prints them: the place of its first fault, what was found there, and the
/// reason. There are none if it can be read. `count` gets the number of bytes, also if `buffer` is
/// too short. The rest of `buffer` is left unmodified. A number of no form is unknown.
#[unsafe(no_mangle)]
pub extern "C" fn mhlink_explain(
    alloc: Global,
    form: u32,
    text: &[u8],
    buffer: &mut [u8],
    count: &mut usize,
) -> u32
    ensures told { result ≡ 0 → Copies form text.now count.new buffer.new }
    ensures refused { result ≢ 0 → (e : FaultOf) × ((result ≡ number_of e)
        × RefusesLines form text.now count.new buffer.old e) }
    ensures untouched { result ≢ 0 → buffer.new ≡ buffer.old }
    ensures rest { result ≡ 0 → drop count.new buffer.new ≡ drop count.new buffer.old }
    ensures uncounted { result ≢ 0 → result ≢ number_of Short → count.new ≡ count.old }
{
    status(explain(alloc, form, text, buffer, count))
}

fn explain(
    alloc: Global,
    form: u32,
    text: &[u8],
    buffer: &mut [u8],
    count: &mut usize,
) -> Result<(), Failure>
    ensures told { OnOk result (Copies form text.now count.new buffer.new) }
    ensures refused { IfErr result (RefusesLines form text.now count.new buffer.old) }
    ensures untouched { OnErr result (buffer.new ≡ buffer.old) }
    ensures rest { OnOk result (drop count.new buffer.new ≡ drop count.new buffer.old) }
    ensures uncounted { IfErr result (λ e. e ≢ Short → count.new ≡ count.old) }
{
    let form = form_of(form).ok_or(Failure::Unknown)?;
    let lines = explained(alloc, form, text)?;
    copy(lines.as_bytes(), buffer, count)
}
