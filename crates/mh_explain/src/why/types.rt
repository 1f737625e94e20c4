//! Explanations of texts that are not method types.
use crate::words::why_no_kind;
use mh_base::NoMemory;
use mh_type::{Kind, MOST_PARAMETERS};
use serde_json::Value;
use std::alloc::Global;

/// Explains why a text is not a method type.
pub(crate) fn why_none(alloc: Global, value: &Value) -> Result<String, NoMemory> {
    let text = value.as_str().unwrap_or("");
    if text.contains(' ') {
        return Ok(String::from_str(
            alloc,
            "write a method type without spaces, such as (int,String)boolean",
        )?);
    }
    let Some((parameters, returned)) = parts_of(text) else {
        return Ok(String::from_str(alloc, "a method type is written as (int,String)boolean")?);
    };
    match unknown_kind(parameters, returned) {
        Some(word) => why_no_kind(alloc, word),
        None => why_too_many(alloc, parameters),
    }
}

/// Returns the texts of the parameters and of the result.
fn parts_of(text: &str) -> Option<(&str, &str)> {
    let inner = text.strip_prefix('(')?;
    inner.split_once(')')
}

/// Returns the first word of a method type that is not a kind.
fn unknown_kind<'a>(parameters: &'a str, returned: &'a str) -> Option<&'a str> {
    if !parameters.is_empty() {
        for word in parameters.split(',') {
            if Kind::from_name(word).is_none() {
                return Some(word);
            }
        }
    }
    match Kind::from_name(returned) {
        Some(_) => None,
        None => Some(returned),
    }
}

fn why_too_many(alloc: Global, parameters: &str) -> Result<String, NoMemory> {
    let count = words_of_list(alloc, parameters)?;
    Ok(format!(in alloc; "{count} parameters are more than {MOST_PARAMETERS}")?)
}

/// Returns the number of words between commas.
fn words_of_list(alloc: Global, text: &str) -> Result<usize, NoMemory> {
    let mut words = Vec::new(alloc);
    for word in text.split(',') {
        words.push(word)?;
    }
    Ok(words.len())
}
