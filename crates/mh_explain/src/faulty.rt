//! The part of an input that has its first fault.
ghost use Rattle.std.specs.Prelude.{◌≡◌, option_map, IfOk};
ghost use Rattle.serde_json.specs.View.{view};
ghost use Rattle.mh_json.specs.Forms.{misread_by};
ghost use Rattle.mh_explain.specs.Explanations.{misread_of};

use mh_base::NoMemory;
use mh_json::{InputFault, InputForm, Key, Misread, Wanted, first_misread};
use serde_json::Value;
use std::alloc::Global;

/// The part of an input that has its first fault, with that fault.
#[derive(Drop)]
pub struct FaultyPart {
    /// The fault.
    pub fault: InputFault,
    /// The keys that lead to the part, from the outermost on.
    pub path: Vec<Key>,
    /// The form that was expected there, for explanations only.
    pub wanted: Wanted,
}

impl FaultyPart {
    /// Returns the part of a misread.
    fn of(alloc: Global, misread: Misread) -> FaultyPart
        ensures value { misread_of result ≡ misread }
    {
        FaultyPart {
            fault: misread.fault(),
            wanted: misread.wanted(),
            path: misread.into_path(alloc),
        }
    }
}

/// Returns the first fault found when a value is read as this form, with the part that has it;
/// `None` if there is no fault.
///
/// Fails only if memory runs out.
pub fn faulty_part(
    alloc: Global,
    form: InputForm,
    value: &Value,
) -> Result<Option<FaultyPart>, NoMemory>
    ensures value { IfOk result (λ part. option_map misread_of part
        ≡ misread_by form (view value.now)) }
{
    match first_misread(alloc, form, value)? {
        Some(misread) => Ok(Some(FaultyPart::of(alloc, misread))),
        None => Ok(None),
    }
}
