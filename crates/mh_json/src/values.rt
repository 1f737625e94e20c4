//! Values, kinds and places as JSON.

ghost use Rattle.std.specs.Prelude.{◌≡◌, IfOk};
ghost use Rattle.serde_json.specs.View.{view};
ghost use Rattle.mh_json.specs.ValueData.{value_data, values_data, kinds_data, places_data};

use mh_type::{Kind, Value as Constant};
use serde_json::Value;
use std::alloc::{AllocError, Global};

/// Returns a value as a number, `true` or `false`, or a string.
pub(crate) fn value_json(alloc: Global, value: &Constant) -> Result<Value, AllocError>
    ensures value { IfOk result (λ v. view v ≡ value_data value.now) }
{
    match value {
        Constant::Int(number) => Ok(Value::from(*number)),
        Constant::Long(number) => Ok(Value::from(*number)),
        Constant::Boolean(truth) => Ok(Value::from(*truth)),
        Constant::Text(text) => Value::try_from_str(alloc, text.as_str()),
    }
}

/// Returns a JSON array of values.
pub(crate) fn values_json(alloc: Global, values: &[Constant]) -> Result<Value, AllocError>
    ensures value { IfOk result (λ v. view v ≡ values_data values.now) }
{
    let mut list = Vec::new(alloc);
    for value in values {
        list.push(value_json(alloc, value)?)?;
    }
    Ok(Value::Array(list))
}

/// Returns a JSON array of the names of kinds.
pub(crate) fn kinds_json(alloc: Global, kinds: &[Kind]) -> Result<Value, AllocError>
    ensures value { IfOk result (λ v. view v ≡ kinds_data kinds.now) }
{
    let mut list = Vec::new(alloc);
    for kind in kinds {
        list.push(Value::try_from_str(alloc, kind.name())?)?;
    }
    Ok(Value::Array(list))
}

/// Returns a JSON array of indices of parameters.
pub(crate) fn places_json(alloc: Global, places: &[usize]) -> Result<Value, AllocError>
    ensures value { IfOk result (λ v. view v ≡ places_data places.now) }
{
    let mut list = Vec::new(alloc);
    for place in places {
        list.push(Value::from(*place))?;
    }
    Ok(Value::Array(list))
}
