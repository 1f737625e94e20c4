//! The forms of inputs.
ghost use Rattle.std.specs.Prelude.{◌≡◌, IfOk};
ghost use Rattle.serde_json.specs.View.{view};
ghost use Rattle.mh_json.specs.Forms.{misread_by};

use crate::json::claim::read_placed_claim;
use crate::json::problem::read_problem_value;
use crate::json::script::read_placed_script;
use crate::misread::{Misread, misread_of};
use mh_core::NoMemory;
use serde_json::Value;
use std::alloc::Global;

/// The forms of inputs.
#[derive(Clone, Copy, Debug, PartialEq, Eq)]
pub enum InputForm {
    /// A script, for `mhlink run` and `mhlink stress`.
    Script,
    /// A problem, for `mhlink plan`.
    Problem,
    /// A problem and a plan for it, for `mhlink check`.
    Claim,
}

/// Returns the first fault found when `value` is read as this form, with the path of the offending
/// part, or `None` if there is no fault.
///
/// If links and costs do not make a problem, the part is the problem itself. Fails only if memory
/// runs out.
pub fn first_misread(
    alloc: Global,
    form: InputForm,
    value: &Value,
) -> Result<Option<Misread>, NoMemory>
    ensures value { IfOk result (λ found. found ≡ misread_by form (view value.now)) }
{
    match form {
        InputForm::Script => misread_of(read_placed_script(alloc, value)),
        InputForm::Problem => misread_of(read_problem_value(alloc, value)),
        InputForm::Claim => misread_of(read_placed_claim(alloc, value)),
    }
}
