//! Parts of a JSON value that may be missing.
ghost use Rattle.std.specs.Prelude.{◌≡◌, map, option_map, IfOk};
ghost use Rattle.serde_json.specs.View.{view};
ghost use Rattle.mh_explain.specs.Unread.{items_in, version_at};

use mh_base::NoMemory;
use mh_json::readers::read_version;
use mh_json::{Field, InputFault, Key, Misread};
use mh_site::Version;
use serde_json::Value;
use std::alloc::Global;

/// Returns the items of an array, or none for any other value.
pub(crate) fn items(value: &Value) -> &[Value]
    ensures value { map view result.now ≡ items_in (view value.now) }
{
    match value {
        Value::Array(items) => items.as_slice(),
        _ => &[],
    }
}

/// Returns the items of the value of a key.
pub(crate) fn items_at(value: &Value, field: Field) -> &[Value] {
    match value.get(field.name()) {
        Some(list) => items(list),
        None => &[],
    }
}

/// Returns the value at the end of a path.
pub(crate) fn value_at<'a>(value: &'a Value, path: &[Key]) -> Option<&'a Value> {
    let mut value = value;
    for key in path {
        value = match key {
            Key::Member(field) => value.get(field.name())?,
            Key::Item(item) => value.get(*item)?,
        };
    }
    Some(value)
}

/// Returns the version of an object that may be missing, or 2 if none is read.
pub(crate) fn version_of(object: Option<&Value>) -> Result<Version, NoMemory>
    ensures value { IfOk result (λ v. v ≡ version_at (option_map (λ v. view v.now) object.entry)) }
{
    let Some(object) = object else {
        return Ok(Version::Two);
    };
    let Some(version) = object.get(Field::Version.name()) else {
        return Ok(Version::Two);
    };
    match read_version(version) {
        Ok(version) => Ok(version),
        Err(misread) => match misread.fault() {
            InputFault::NoMemory => Err(NoMemory),
            _ => Ok(Version::Two),
        },
    }
}

/// Returns the value that was read, if it has no fault.
pub(crate) fn known<T: Drop>(read: Result<T, Misread>) -> Result<Option<T>, NoMemory> {
    match read {
        Ok(value) => Ok(Some(value)),
        Err(misread) => match misread.fault() {
            InputFault::NoMemory => Err(NoMemory),
            _ => Ok(None),
        },
    }
}

/// Adds the names that follow a word in a tree.
fn push_named<'a>(names: &mut Vec<&'a str>, word: &str, tree: &'a Value) -> Result<(), NoMemory> {
    let Value::Array(items) = tree else {
        return Ok(());
    };
    if let [head, name, ..] = items.as_slice() {
        if let (Some(head), Some(name)) = (head.as_str(), name.as_str()) {
            if head == word {
                names.push(name)?;
            }
        }
    }
    for item in items.as_slice() {
        push_named(names, word, item)?;
    }
    Ok(())
}

/// Returns the names that follow a word in a tree.
pub(crate) fn named_behind<'a>(
    alloc: Global,
    word: &str,
    tree: &'a Value,
) -> Result<Vec<&'a str>, NoMemory> {
    let mut names = Vec::new(alloc);
    push_named(&mut names, word, tree)?;
    Ok(names)
}
