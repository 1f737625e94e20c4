//! The JSON value of an input.
ghost use Rattle.std.specs.Prelude.{IfErr};
ghost use Rattle.serde_json.specs.View.{view};
ghost use Rattle.mh_json.specs.Gives.{Gives, GivesAt, IsOfInput};
ghost use Rattle.mh_json.specs.Inputs.{json_in, json_of_input};

pub(crate) mod certificate;
pub(crate) mod claim;
pub(crate) mod declarations;
pub(crate) mod events;
pub(crate) mod form;
pub(crate) mod leaves;
pub(crate) mod limits;
pub(crate) mod links;
pub(crate) mod plan;
pub(crate) mod points;
pub(crate) mod problem;
pub(crate) mod scope;
pub(crate) mod script;
pub(crate) mod shape;
pub(crate) mod shared;
pub(crate) mod sites;
pub(crate) mod step;
pub(crate) mod trees;
pub(crate) mod values;
pub(crate) mod versions;
pub(crate) mod wanted;

use crate::fault::{Fault, InputFault};
use crate::json::wanted::Wanted;
use crate::misread::Misread;
use serde_json::Value;
use std::alloc::Global;

/// The most bytes that an input may have.
pub const LONGEST_INPUT: usize = 1_048_576;

/// Parses bytes as JSON, without a limit.
pub fn parse_json(alloc: Global, input: &[u8]) -> Result<Value, Misread>
    ensures value { Gives view result (json_in input.now) }
{
    match Value::from_slice(alloc, input) {
        Ok(value) => Ok(value),
        Err(error) => {
            if error.is_memory() {
                return Err(Misread::of(InputFault::NoMemory));
            }
            let wanted = Wanted::Json {
                line: error.line(),
                column: error.column(),
                is_cut: error.is_eof(),
            };
            Err(Misread::wanting(InputFault::NotJson, wanted))
        }
    }
}

/// Parses an input as JSON, after a test of its length.
pub fn read_json(alloc: Global, input: &[u8]) -> Result<Value, Fault>
    ensures value { GivesAt view result (json_of_input input.now) }
    ensures kind { IfErr result (λ e. IsOfInput e.kind) }
{
    if input.len() > LONGEST_INPUT {
        return Err(Fault::from(InputFault::TooLong));
    }
    Ok(parse_json(alloc, input)?)
}
