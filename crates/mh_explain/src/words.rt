//! Words and phrases of several sentences.
ghost use Rattle.std.specs.Prelude.{◌≡◌, IfOk, string_bytes};
ghost use Rattle.serde_json.specs.Data.{string};
ghost use Rattle.serde_json.specs.Written.{compact_text};

use crate::found::cut;
use crate::near::nearest;
use mh_base::NoMemory;
use serde_json::Value;
use std::alloc::Global;

/// Returns a text as a JSON string.
///
/// Fails only if memory runs out.
pub fn quoted(alloc: Global, text: &str) -> Result<String, NoMemory>
    ensures value { IfOk result (λ s. string_bytes s ≡ compact_text (string text.now)) }
{
    let value = Value::String(String::from_str(alloc, text)?);
    Ok(value.to_string(alloc)?)
}

/// Returns the name of the form of a JSON value.
pub(crate) fn kind_word(value: &Value) -> &'static str {
    match value {
        Value::Null => "null",
        Value::Bool(true) => "true",
        Value::Bool(false) => "false",
        Value::Number(_) => "a number",
        Value::String(_) => "a string",
        Value::Array(_) => "a list",
        Value::Object(_) => "an object",
    }
}

/// Explains that a part of another form is expected: `expected a tree, found a number`.
pub(crate) fn wanted(alloc: Global, what: &str, value: &Value) -> Result<String, NoMemory> {
    if let Value::Number(number) = value {
        return Ok(format!(in alloc; "expected {what}, found {number}")?);
    }
    let kind = kind_word(value);
    Ok(format!(in alloc; "expected {what}, found {kind}")?)
}

/// Returns the question of whether a similar name is meant, or the list of the names of such
/// things.
pub(crate) fn meant(
    alloc: Global,
    name: &str,
    known: &[&str],
    one: &str,
    many: &str,
) -> Result<String, NoMemory> {
    if let Some(near) = nearest(alloc, name, known)? {
        return Ok(format!(in alloc; "did you mean \"{near}\"?")?);
    }
    match known {
        [] => Ok(format!(in alloc; "there is no {one}")?),
        [only] => Ok(format!(in alloc; "the only {one} is \"{only}\"")?),
        _ => {
            let names = cut(alloc, listed(alloc, known)?)?;
            Ok(format!(in alloc; "the {many} are {names}")?)
        }
    }
}

/// Returns names with commas between them.
fn listed(alloc: Global, names: &[&str]) -> Result<String, NoMemory> {
    let mut text = String::new(alloc);
    for name in names {
        if !text.is_empty() {
            text.push_str(", ")?;
        }
        text.push_str(name)?;
    }
    Ok(text)
}

/// Returns the question of whether a similar word is meant, or the list of all known words, which
/// `before` introduces.
pub(crate) fn meant_of(
    alloc: Global,
    word: &str,
    known: &str,
    before: &str,
) -> Result<String, NoMemory> {
    match nearest(alloc, word, &words_of(alloc, known)?)? {
        Some(near) => Ok(format!(in alloc; "did you mean \"{near}\"?")?),
        None => Ok(format!(in alloc; "{before} {known}")?),
    }
}

/// Returns a count and its noun.
pub(crate) fn counted(
    alloc: Global,
    count: usize,
    one: &str,
    many: &str,
) -> Result<String, NoMemory> {
    let noun = if count == 1 { one } else { many };
    Ok(format!(in alloc; "{count} {noun}")?)
}

/// Returns the numbers that things of a sort have: `the points are 0 to 2`.
pub(crate) fn numbered(
    alloc: Global,
    count: usize,
    one: &str,
    many: &str,
) -> Result<String, NoMemory> {
    let last = count.saturating_sub(1);
    Ok(match count {
        0 => format!(in alloc; "there is no {one}")?,
        1 => format!(in alloc; "the only {one} is 0")?,
        _ => format!(in alloc; "the {many} are 0 to {last}")?,
    })
}

/// Returns the words of a text, between spaces.
pub(crate) fn words_of<'a>(alloc: Global, text: &'a str) -> Result<Vec<&'a str>, NoMemory> {
    let mut words = Vec::new(alloc);
    for word in text.split(' ') {
        words.push(word)?;
    }
    Ok(words)
}

/// Returns bytes as text, with `?` for each that is not printable ASCII, or `nothing` if there are
/// none.
pub(crate) fn printable(alloc: Global, bytes: &[u8]) -> Result<String, NoMemory> {
    if bytes.is_empty() {
        return Ok(String::from_str(alloc, "nothing")?);
    }
    let mut text = String::new(alloc);
    for byte in bytes {
        if byte.is_ascii_graphic() || *byte == b' ' {
            text.push(char::from(*byte))?;
        } else {
            text.push('?')?;
        }
    }
    Ok(text)
}

/// Explains that a word is not a kind, and what the kinds are.
pub(crate) fn why_no_kind(alloc: Global, word: &str) -> Result<String, NoMemory> {
    if word.is_empty() {
        return Ok(String::from_str(
            alloc,
            "a kind is missing here: int, long, boolean or String",
        )?);
    }
    let shown = quoted(alloc, word)?;
    let known = ["int", "long", "boolean", "String"];
    Ok(match nearest(alloc, word, &known)? {
        Some(near) => format!(in alloc; "{shown} is not a kind; did you mean \"{near}\"?")?,
        None => format!(in alloc;
            "{shown} is not a kind; the kinds are int, long, boolean and String"
        )?,
    })
}

/// Explains that there are more of a thing than a version allows, and how many version 2 allows.
pub(crate) fn why_too_many(
    alloc: Global,
    what: &str,
    found: usize,
    most: usize,
    later: usize,
) -> Result<String, NoMemory> {
    if most == later {
        return Ok(format!(in alloc; "there are {found} {what}, and this version allows {most}")?);
    }
    Ok(format!(in alloc;
        "there are {found} {what}, and this version allows {most}; version 2 allows {later}"
    )?)
}
