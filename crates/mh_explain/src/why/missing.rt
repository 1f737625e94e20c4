//! Explanations of objects that lack a key, and of other values in place of an object.
use crate::near::nearest;
use crate::objects::{Object, is_profile_line};
use crate::spot::Spot;
use crate::unread::{is_read, version_of_input};
use crate::words::{quoted, wanted};
use mh_base::NoMemory;
use mh_json::{Field, InputForm};
use serde_json::{Map, Value};
use std::alloc::Global;

/// Explains why there is no such key.
pub(crate) fn why_missing(
    alloc: Global,
    field: Field,
    spot: &Spot<'_>,
) -> Result<String, NoMemory> {
    let Some(object) = spot.object() else {
        return Ok(String::new(alloc));
    };
    match spot.value {
        Value::Object(members) => why_lacking(alloc, field, object, spot, members),
        _ => why_no_object(alloc, object, spot.value),
    }
}

/// Explains that another value was found in place of an object.
fn why_no_object(alloc: Global, object: Object, value: &Value) -> Result<String, NoMemory> {
    let noun = object.noun();
    let what = format!(in alloc; "{noun} (an object)")?;
    let why = wanted(alloc, what.as_str(), value)?;
    let example = object.example();
    Ok(format!(in alloc; "{why}; for example {example}")?)
}

/// Explains that an object lacks a key, with the key that it has instead.
fn why_lacking(
    alloc: Global,
    field: Field,
    object: Object,
    spot: &Spot<'_>,
    members: &Map<String, Value>,
) -> Result<String, NoMemory> {
    let name = field.name();
    let keys = object.keys(version_of_input(spot.form, spot.input)?);
    let others = other_keys(alloc, keys, members)?;
    if let Some(other) = nearest(alloc, name, &others)? {
        let other = quoted(alloc, other)?;
        return Ok(format!(in alloc; "found the key {other}; did you mean \"{name}\"?")?);
    }
    if spot.path.is_empty() {
        if let Some(command) = other_command(spot.form, spot.value) {
            return Ok(format!(in alloc; "the key \"{name}\" is missing; {command}")?);
        }
    }
    let (noun, example) = (object.noun(), object.example());
    Ok(format!(in alloc; "the key \"{name}\" is missing; {noun} is {example}")?)
}

/// Returns the keys of an object that are not among these.
fn other_keys<'a>(
    alloc: Global,
    keys: &[Field],
    members: &'a Map<String, Value>,
) -> Result<Vec<&'a str>, NoMemory> {
    let mut others = Vec::new(alloc);
    for (key, _member) in members.iter() {
        if !is_read(keys, key.as_str()) {
            others.push(key.as_str())?;
        }
    }
    Ok(others)
}

/// Returns the form of input that a value is of.
fn form_of(value: &Value) -> Option<InputForm> {
    if value.get(Field::Definition.name()).is_some() {
        return Some(InputForm::Script);
    }
    if value.get(Field::Problem.name()).is_some() {
        return Some(InputForm::Claim);
    }
    if value.get(Field::Costs.name()).is_some() {
        return Some(InputForm::Problem);
    }
    None
}

/// Returns the sentence that says which command reads a value, if it is not an input of this form.
fn other_command(form: InputForm, value: &Value) -> Option<&'static str> {
    match form_of(value) {
        Some(other) if other == form => None,
        Some(InputForm::Script) => Some("this is a script, which mhlink run reads"),
        Some(InputForm::Claim) => Some("this is a problem with a plan, which mhlink check reads"),
        Some(InputForm::Problem) => Some("this is a problem, which mhlink plan reads"),
        None if is_profile_line(value) => {
            Some("this is a line of a profile, which mhlink profile reads")
        }
        None => None,
    }
}
