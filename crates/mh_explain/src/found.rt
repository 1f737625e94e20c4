//! The value found at the place of a fault, as a line shows it.
use crate::spot::Spot;
use crate::words::quoted;
use mh_base::NoMemory;
use mh_json::Wanted;
use serde_json::{Map, Value};
use std::alloc::Global;

/// The greatest number of bytes of a part that a line shows.
const LONGEST: usize = 120;

/// Returns the text, cut if it is too long, with `..` at its end.
pub(crate) fn cut(alloc: Global, text: String) -> Result<String, NoMemory> {
    if text.len() <= LONGEST {
        return Ok(text);
    }
    let mut shown = String::new(alloc);
    for letter in text.as_str().chars() {
        if shown.len() + letter.len_utf8() + 2 > LONGEST {
            break;
        }
        shown.push(letter)?;
    }
    shown.push_str("..")?;
    Ok(shown)
}

/// Returns the keys of an object: `{"name","cst"}`.
fn keys(alloc: Global, members: &Map<String, Value>) -> Result<String, NoMemory> {
    let mut text = String::new(alloc);
    let mut before = '{';
    for (key, _member) in members.iter() {
        text.push(before)?;
        text.push_str(quoted(alloc, key.as_str())?.as_str())?;
        before = ',';
    }
    if before == '{' {
        text.push(before)?;
    }
    text.push('}')?;
    Ok(text)
}

/// Returns the value at the place of a fault: the keys of an object that lacks one, and otherwise
/// the part as JSON, cut if it is too long.
pub(crate) fn found(alloc: Global, spot: &Spot<'_>) -> Result<String, NoMemory> {
    match (spot.wanted, spot.value) {
        (Wanted::Missing(_), Value::Object(members)) => cut(alloc, keys(alloc, members)?),
        _ => cut(alloc, spot.value.to_string(alloc)?),
    }
}
