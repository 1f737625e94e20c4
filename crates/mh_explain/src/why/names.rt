//! Explanations of names that are unknown, or not allowed at their place.
use crate::values::items_at;
use crate::words::{meant, quoted, wanted};
use mh_base::NoMemory;
use mh_json::{Field, Named};
use serde_json::Value;
use std::alloc::Global;

/// Returns the names of the shared trees of a script.
pub(crate) fn shared_names(alloc: Global, script: &Value) -> Result<Vec<&str>, NoMemory> {
    let mut names = Vec::new(alloc);
    let Some(definition) = script.get(Field::Definition.name()) else {
        return Ok(names);
    };
    for pair in items_at(definition, Field::Shared) {
        if let Some(name) = pair.get(0).and_then(Value::as_str) {
            names.push(name)?;
        }
    }
    Ok(names)
}

/// Returns the names of the points, or of the sites, of a definition.
pub(crate) fn names_in(
    alloc: Global,
    definition: &Value,
    list: Field,
) -> Result<Vec<&str>, NoMemory> {
    let mut names = Vec::new(alloc);
    for item in items_at(definition, list) {
        if let Some(name) = item.get(Field::Name.name()).and_then(Value::as_str) {
            names.push(name)?;
        }
    }
    Ok(names)
}

/// Returns the names of the points, or of the sites, of a script.
pub(crate) fn names_of(alloc: Global, script: &Value, list: Field) -> Result<Vec<&str>, NoMemory> {
    match script.get(Field::Definition.name()) {
        Some(definition) => names_in(alloc, definition, list),
        None => Ok(Vec::new(alloc)),
    }
}

/// Explains that a name is expected, with the name of the thing whose number was found.
pub(crate) fn why_no_name(
    alloc: Global,
    named: Named,
    script: &Value,
    value: &Value,
) -> Result<String, NoMemory> {
    let (what, names) = match named {
        Named::Point => (
            "the name of a point",
            names_of(alloc, script, Field::Points)?,
        ),
        Named::Site => ("the name of a site", names_of(alloc, script, Field::Sites)?),
        Named::Shared => ("the name of a shared tree", shared_names(alloc, script)?),
    };
    let why = wanted(alloc, what, value)?;
    let number = value
        .as_u64()
        .and_then(|number| usize::try_from(number).ok());
    match number.and_then(|number| names.get(number)) {
        Some(name) => {
            let name = quoted(alloc, name)?;
            Ok(format!(in alloc; "{why}; did you mean {name}?")?)
        }
        None => Ok(why),
    }
}

/// Returns whether a name is among some.
pub(crate) fn is_among(name: &str, names: &[&str]) -> bool {
    for other in names {
        if name == *other {
            return true;
        }
    }
    false
}

/// Explains why a name is not that of a shared tree.
pub(crate) fn why_unknown_shared(
    alloc: Global,
    script: &Value,
    value: &Value,
) -> Result<String, NoMemory> {
    let name = value.as_str().unwrap_or("");
    let names = shared_names(alloc, script)?;
    let shown = quoted(alloc, name)?;
    if is_among(name, &names) {
        return Ok(format!(in alloc; "the shared tree {shown} is not declared before this tree")?);
    }
    let others = meant(alloc, name, &names, "shared tree", "shared trees")?;
    Ok(format!(in alloc; "no shared tree has the name {shown}; {others}")?)
}

/// Explains why a name is not that of a site that a tree may invoke.
pub(crate) fn why_unknown_site(
    alloc: Global,
    script: &Value,
    value: &Value,
) -> Result<String, NoMemory> {
    let name = value.as_str().unwrap_or("");
    let names = names_of(alloc, script, Field::Sites)?;
    let shown = quoted(alloc, name)?;
    if is_among(name, &names) {
        return Ok(format!(in alloc; "the site {shown} is not declared before this tree")?);
    }
    let others = meant(alloc, name, &names, "site", "sites")?;
    Ok(format!(in alloc; "no site has the name {shown}; {others}")?)
}

/// Explains why a name is not allowed for a shared tree.
pub(crate) fn why_not_new(
    alloc: Global,
    script: &Value,
    value: &Value,
) -> Result<String, NoMemory> {
    let Some(name) = value.as_str() else {
        return wanted(alloc, "a name", value);
    };
    let shown = quoted(alloc, name)?;
    if is_lawful(name) && is_among(name, &shared_names(alloc, script)?) {
        return Ok(format!(in alloc; "an earlier shared tree has the name {shown}")?);
    }
    why_unlawful(alloc, name)
}

/// Returns whether a name has 1 to 64 bytes: a letter or `_`, then letters, digits, `_`, `.` and
/// `-`.
pub(crate) fn is_lawful(name: &str) -> bool {
    let [first, rest @ ..] = name.as_bytes() else {
        return false;
    };
    if !first.is_ascii_alphabetic() && *first != b'_' {
        return false;
    }
    for byte in rest {
        let is_sign = *byte == b'_' || *byte == b'.' || *byte == b'-';
        if !byte.is_ascii_alphanumeric() && !is_sign {
            return false;
        }
    }
    name.len() <= 64
}

/// Explains why a name is not lawful.
pub(crate) fn why_unlawful(alloc: Global, name: &str) -> Result<String, NoMemory> {
    let length = name.len();
    if length == 0 || length > 64 {
        return Ok(format!(in alloc; "a name has 1 to 64 bytes, and this one {length}")?);
    }
    let shown = quoted(alloc, name)?;
    Ok(format!(in alloc; "{shown} is not a letter or _ and then letters, digits, _, . and -")?)
}
