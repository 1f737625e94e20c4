//! Kinds, types, operations and values in JSON.
ghost use Rattle.std.specs.Prelude.{◌≡◌, map, Some, None, slice_get, if◌then◌else◌};
ghost use Rattle.serde_json.specs.View.{view};
ghost use Rattle.mh_json.specs.Gives.{Gives};
ghost use Rattle.mh_json.specs.Values.{kind_of, kinds_of, type_of, op_of, long_of, is_int, text_value, value_of_kind, value_by_form, value_for, values_for};

use crate::fault::InputFault;
use crate::json::shape::{each, list, text};
use crate::json::wanted::Wanted;
use crate::key::Key;
use crate::misread::{Misread, at};
use mh_site::Listing;
use mh_type::{Kind, MethodType, Op, Text, TypeFault, Value};
use serde_json::Value as Json;
use std::alloc::Global;

/// Reads the name of a kind.
pub fn read_kind(value: &Json) -> Result<Kind, Misread>
    ensures value { Gives (λ x. x) result (kind_of (view value.now)) }
{
    Kind::from_name(text(value, Wanted::Kind)?).ok_or(Misread::bad_shape(Wanted::Kind))
}

/// Reads a list of kinds.
pub fn read_kinds(alloc: Global, value: &Json) -> Result<Listing<Kind>, Misread>
    ensures value { Gives (λ x. x) result (kinds_of (view value.now)) }
{
    each(alloc, value, read_kind)
}

/// Reads the text of a method type.
pub fn read_type(value: &Json) -> Result<MethodType, Misread>
    ensures value { Gives (λ x. x) result (type_of (view value.now)) }
{
    Ok(MethodType::parse(text(value, Wanted::MethodType)?)?)
}

/// Reads the name of an operation.
pub fn read_op(value: &Json) -> Result<Op, Misread>
    ensures value { Gives (λ x. x) result (op_of (view value.now)) }
{
    Op::from_name(text(value, Wanted::Operation)?).ok_or(Misread::bad_shape(Wanted::Operation))
}

/// Reads a signed whole number of 64 bits.
fn read_long(value: &Json, wanted: Wanted) -> Result<i64, Misread>
    ensures value { Gives (λ x. x) result (long_of (view value.now)) }
{
    value.as_i64().ok_or(Misread::bad_value(wanted))
}

/// Returns the number in 32 bits, or `None` if it does not fit.
fn int(number: i64) -> Option<i32>
    ensures value { result ≡ (if is_int number then Some number else None) }
{
    i32::try_from(number).ok()
}

/// Reads a text of at most 65,536 bytes of printable ASCII.
fn read_text(alloc: Global, bytes: &str, wanted: Wanted) -> Result<Value, Misread>
    ensures value { Gives (λ x. x) result (text_value bytes.now) }
{
    match Text::new(alloc, bytes) {
        Ok(text) => Ok(Value::Text(text)),
        Err(TypeFault::NoMemory) => Err(Misread::of(InputFault::NoMemory)),
        Err(_) => Err(Misread::bad_value(wanted)),
    }
}

/// Reads a value of a kind.
pub fn read_constant(alloc: Global, kind: Kind, value: &Json) -> Result<Value, Misread>
    ensures value { Gives (λ x. x) result (value_of_kind kind (view value.now)) }
{
    let wanted = Wanted::Constant(kind);
    match kind {
        Kind::Int => match int(read_long(value, wanted)?) {
            Some(number) => Ok(Value::Int(number)),
            None => Err(Misread::bad_value(wanted)),
        },
        Kind::Long => Ok(Value::Long(read_long(value, wanted)?)),
        Kind::Boolean => match value.as_bool() {
            Some(truth) => Ok(Value::Boolean(truth)),
            None => Err(Misread::bad_value(wanted)),
        },
        Kind::Text => match value.as_str() {
            Some(bytes) => read_text(alloc, bytes, wanted),
            None => Err(Misread::bad_value(wanted)),
        },
    }
}

/// Reads a value whose kind follows from its form.
fn read_by_form(alloc: Global, value: &Json) -> Result<Value, Misread>
    ensures value { Gives (λ x. x) result (value_by_form (view value.now)) }
{
    if let Some(bytes) = value.as_str() {
        return read_text(alloc, bytes, Wanted::Value);
    }
    if let Some(truth) = value.as_bool() {
        return Ok(Value::Boolean(truth));
    }
    let number = read_long(value, Wanted::Value)?;
    match int(number) {
        Some(number) => Ok(Value::Int(number)),
        None => Ok(Value::Long(number)),
    }
}

/// Reads a value of the given kind, or, without one, a value whose kind follows from its form.
pub fn read_value(alloc: Global, kind: Option<Kind>, value: &Json) -> Result<Value, Misread>
    ensures value { Gives (λ x. x) result (value_for kind (view value.now)) }
{
    let Some(kind) = kind else {
        return read_by_form(alloc, value);
    };
    match read_constant(alloc, kind, value) {
        Ok(constant) => Ok(constant),
        Err(misread) => {
            if let InputFault::NoMemory = misread.fault() {
                return Err(misread);
            }
            read_by_form(alloc, value)
        }
    }
}

/// Returns the kind at an index, or `None` past the last.
pub fn kind_at(kinds: &[Kind], place: usize) -> Option<Kind>
    ensures value { result ≡ slice_get kinds.now place }
{
    kinds.get(place).copied()
}

/// Reads values for parameters of these kinds, in order. The kind of a further value follows from
/// its form.
#[tactic(auto, unfolding(crate::specs::Values::values_for))]
pub fn read_values(alloc: Global, kinds: &[Kind], value: &Json) -> Result<Listing<Value>, Misread>
    ensures value { Gives (λ x. x) result (values_for kinds.now (view value.now)) }
{
    let values = list(value, Wanted::List)?;
    let mut read = Vec::new(alloc);
    for (i, value) in values.iter().enumerate() {
        read.push(at(
            alloc,
            Key::Item(i),
            read_value(alloc, kind_at(kinds, i), value),
        )?)?;
    }
    Ok(Listing::from_vec(read))
}
