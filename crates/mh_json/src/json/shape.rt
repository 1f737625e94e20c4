//! Readers of the parts of a JSON value. Each fails if the part does not have its form.
ghost use Rattle.std.specs.Prelude.{◌≡◌, ◌^◌, ◌-◌, map, option_map, Result};
ghost use Rattle.std.specs.Fn.{FnReturnsAt};
ghost use Rattle.serde_json.specs.Data.{Data};
ghost use Rattle.serde_json.specs.declared.value.Value.{Value};
ghost use Rattle.mh_json.specs.Misreads.{MisreadData};
ghost use Rattle.serde_json.specs.View.{view};
ghost use Rattle.mh_json.specs.Gives.{Gives};
ghost use Rattle.mh_json.specs.Shape.{list_of, text_of, part_at as part_of_value, part_of, member_of, member_or, count_of, counts_of, each_of};

use crate::json::wanted::{Numbered, Wanted};
use crate::key::{Field, Key};
use crate::misread::{Misread, at};
use mh_site::Listing;
use mh_type::MOST_PARAMETERS;
use serde_json::Value;
use std::alloc::Global;

/// The greatest number in a script: counts are 0 to 2^63 - 1.
pub(crate) const MOST: u64 = 0x7fff_ffff_ffff_ffff;

/// The greatest number of a worker, a link or a point that an input can name.
const LAST_NUMBER: u64 = 0xffff_ffff;

/// Returns the items of an array.
#[tactic(auto, using(crate::proofs::Shapes::list_of_array))]
pub fn list(value: &Value, wanted: Wanted) -> Result<&[Value], Misread>
    ensures value { Gives (λ x. map view x.now) result (list_of (view value.now)) }
{
    match value {
        Value::Array(items) => Ok(items.as_slice()),
        _ => Err(Misread::bad_shape(wanted)),
    }
}

/// Returns the text of a string.
pub fn text(value: &Value, wanted: Wanted) -> Result<&str, Misread>
    ensures value { Gives (λ x. x.now) result (text_of (view value.now)) }
{
    value.as_str().ok_or(Misread::bad_shape(wanted))
}

/// Returns the member of an object at a required key.
pub fn part(value: &Value, field: Field) -> Result<&Value, Misread>
    ensures value { Gives (λ x. view x.now) result (part_of field (view value.now)) }
{
    value
        .get(field.name())
        .ok_or(Misread::bad_shape(Wanted::Missing(field)))
}

/// Returns a value, or its member at a required key.
pub(crate) fn part_at<'a>(value: &'a Value, key: Option<&str>) -> Result<&'a Value, Misread>
    ensures value { Gives (λ x. view x.now) result
        (part_of_value (option_map (λ k. k.now) key.entry) (view value.now)) }
{
    match key {
        Some(key) => value.get(key).ok_or(Misread::bad_shape(Wanted::Nothing)),
        None => Ok(value),
    }
}

/// Reads the member of an object at a required key.
pub fn member<T: Drop, F: Fn(&Value) -> Result<T, Misread>>(
    alloc: Global,
    value: &Value,
    field: Field,
    read: F,
) -> Result<T, Misread>
    requires callable { F.IsAlwaysCallable read }
    ensures value { (f : Data → Result T MisreadData)
        → ((v : Value) (r : Result T MisreadData) → FnReturnsAt F.Fn read v r
        → Gives (λ x. x) r (f (view v)))
        → Gives (λ x. x) result (member_of field f (view value.now)) }
{
    let part = part(value, field)?;
    at(alloc, Key::Member(field), read(part))
}

/// Reads the member of an object at a key, or returns `absent` if there is none.
pub fn member_or<T: Drop, F: Fn(&Value) -> Result<T, Misread>>(
    alloc: Global,
    value: &Value,
    field: Field,
    absent: T,
    read: F,
) -> Result<T, Misread>
    requires callable { F.IsAlwaysCallable read }
    ensures value { (f : Data → Result T MisreadData)
        → ((v : Value) (r : Result T MisreadData) → FnReturnsAt F.Fn read v r
        → Gives (λ x. x) r (f (view v)))
        → Gives (λ x. x) result (member_or absent field f (view value.now)) }
{
    match value.get(field.name()) {
        Some(part) => at(alloc, Key::Member(field), read(part)),
        None => Ok(absent),
    }
}

/// Reads a whole number from 0 to a bound.
pub fn count(value: &Value, bound: u64, wanted: Wanted) -> Result<u64, Misread>
    ensures value { Gives (λ x. x) result (count_of bound (view value.now)) }
{
    match value.as_u64() {
        Some(number) if number <= bound => Ok(number),
        _ => Err(Misread::bad_shape(wanted)),
    }
}

/// Reads a cost, a weight, a charge or a level: 0 to 2^63 - 1. More than `lawful` is not lawful.
pub(crate) fn amount(value: &Value, lawful: u64) -> Result<u64, Misread>
    ensures value { Gives (λ x. x) result (count_of (2 ^ 63 - 1) (view value.now)) }
{
    count(value, MOST, Wanted::up_to(lawful))
}

/// Reads an index: 0 to 2^63 - 1.
pub fn place(value: &Value, wanted: Wanted) -> Result<usize, Misread>
    ensures value { Gives (λ x. x) result (count_of (2 ^ 63 - 1) (view value.now)) }
{
    Ok(count(value, MOST, wanted)? as usize)
}

/// Reads the index of a parameter.
pub(crate) fn parameter(value: &Value) -> Result<usize, Misread>
    ensures value { Gives (λ x. x) result (count_of (2 ^ 63 - 1) (view value.now)) }
{
    place(value, Wanted::up_to(MOST_PARAMETERS as u64))
}

/// Reads a list of indices of parameters.
pub(crate) fn read_places(alloc: Global, value: &Value) -> Result<Listing<usize>, Misread>
    ensures value { Gives (λ x. x) result (counts_of (2 ^ 63 - 1) (view value.now)) }
{
    each(alloc, value, parameter)
}

/// Reads the number of a thing: a whole number of 32 bits.
pub(crate) fn number(value: &Value, numbered: Numbered) -> Result<u32, Misread>
    ensures value { Gives (λ x. x) result (count_of (2 ^ 32 - 1) (view value.now)) }
{
    Ok(count(value, LAST_NUMBER, Wanted::NumberOf(numbered))? as u32)
}

/// Reads each item of a list, up to the first fault.
pub fn each<T: Drop, F: Fn(&Value) -> Result<T, Misread>>(
    alloc: Global,
    value: &Value,
    read: F,
) -> Result<Listing<T>, Misread>
    requires callable { F.IsAlwaysCallable read }
    ensures value { (f : Data → Result T MisreadData)
        → ((v : Value) (r : Result T MisreadData) → FnReturnsAt F.Fn read v r
        → Gives (λ x. x) r (f (view v)))
        → Gives (λ x. x) result (each_of f (view value.now)) }
{
    let values = list(value, Wanted::List)?;
    let mut items = Vec::new(alloc);
    for (i, value) in values.iter().enumerate() {
        items.push(at(alloc, Key::Item(i), read(value))?)?;
    }
    Ok(Listing::from_vec(items))
}
