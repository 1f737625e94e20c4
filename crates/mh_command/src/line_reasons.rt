//! Explanations of the faults of lines of a profile.
ghost use Rattle.std.specs.Prelude.{string_bytes, IfOk};
ghost use Rattle.mh_command.specs.Readings.{ExplainsProfile, IsProfileIn, NamesNeed};

use crate::request::Request;
use mh_core::NoMemory;
use mh_explain::{foreign_format, nearest};
use mh_json::InputFault;
use mh_profile::{FaultyLine, PointNames, claimed_lines, faulty_line, quoted};
use serde_json::Value;
use std::alloc::Global;
use std::str;

/// The number of characters of a line that are shown.
const MOST_SHOWN: usize = 120;

/// The greatest difference in length between a name and one that is suggested for it.
const MOST_BYTES: usize = 8;

/// The greatest number of pairs of bytes that are compared.
const MOST_PAIRS: u64 = 1 << 28;

/// The form of an amount.
const AMOUNT: &str = "must be a whole number from 0 to 9223372036854775807";

/// Returns the lines of the profile in the input of a request.
fn profile_in(request: Request, input: &[u8]) -> &[u8]
    ensures value { IsProfileIn request input.now result.now }
{
    match request {
        Request::CheckProfile => claimed_lines(input),
        _ => input,
    }
}

/// Returns a text with `?` for each control character, shortened if it is long.
fn cut(alloc: Global, text: &str) -> Result<String, NoMemory> {
    let mut shown = String::new(alloc);
    for (i, character) in text.chars().enumerate() {
        if i >= MOST_SHOWN {
            shown.push_str("..")?;
            break;
        }
        shown.push(if character.is_control() {
            '?'
        } else {
            character
        })?;
    }
    Ok(shown)
}

/// Returns the beginning of a line.
fn beginning(alloc: Global, bytes: &[u8]) -> Result<String, NoMemory> {
    match str::from_utf8(bytes) {
        Ok(text) => cut(alloc, text),
        Err(_) => Ok(String::from_str(alloc, "bytes that are not UTF-8")?),
    }
}

/// Returns the names that a name may be misspelt for: those of about its length, as many as can be
/// compared soon.
fn names_like<'a>(
    alloc: Global,
    points: &'a PointNames,
    name: &str,
) -> Result<Vec<&'a str>, NoMemory> {
    let bytes = name.len() as u64;
    let most = MOST_PAIRS / bytes.saturating_mul(bytes).max(1);
    let mut names = Vec::new(alloc);
    for point in 0..points.len() {
        let other = points.name(point);
        if (names.len() as u64) < most && other.len().abs_diff(name.len()) <= MOST_BYTES {
            names.push(other)?;
        }
    }
    Ok(names)
}

/// Returns the question of whether a similar name is meant, or where a point has to be if there is
/// none.
fn meant(alloc: Global, points: &PointNames, name: &str) -> Result<String, NoMemory> {
    let names = names_like(alloc, points, name)?;
    match nearest(alloc, name, names.as_slice())? {
        Some(near) => {
            let near = quoted(alloc, near)?;
            Ok(format!(in alloc; "; did you mean {near}?")?)
        }
        None => Ok(String::from_str(alloc, "; a point comes before the links that need it")?),
    }
}

/// Returns the lines for a need that names no earlier point.
fn unknown_reasons(alloc: Global, line: &FaultyLine) -> Result<String, NoMemory>
    ensures named { IfOk result (λ text. NamesNeed line.now (string_bytes text)) }
{
    let Some(name) = line.unknown_need(alloc) else {
        return Err(NoMemory);
    };
    let found = quoted(alloc, name.as_str())?;
    let meant = meant(alloc, &line.points, name.as_str())?;
    Ok(format!(in alloc; "  found: {found}\n  why:   no earlier line has this point{meant}\n")?)
}

/// Returns the reason for a line that does not begin with an object, or ends with a comma after one.
fn why_no_object(alloc: Global, bytes: &[u8]) -> Option<&'static str> {
    match bytes {
        [b'{', front @ .., b','] if !front.is_empty() => {
            let object = &bytes[..bytes.len() - 1];
            match Value::from_slice(alloc, object) {
                Ok(_) => Some("remove the comma at the end; each object is on a line of its own"),
                Err(_) => None,
            }
        }
        [b'{' | b'[' | b' ' | b'\t', ..] => None,
        _ => Some(r#"expected a JSON object, such as {"point":"A","cost":1}"#),
    }
}

/// Returns the reason why a line is not JSON.
fn why_no_json(alloc: Global, bytes: &[u8]) -> Result<String, NoMemory> {
    if let Some(why) = foreign_format(bytes) {
        return Ok(String::from_str(alloc, why)?);
    }
    if let Some(why) = why_no_object(alloc, bytes) {
        return Ok(String::from_str(alloc, why)?);
    }
    match Value::from_slice(alloc, bytes) {
        Ok(_) => Ok(String::new(alloc)),
        Err(error) if error.is_eof() => Ok(String::from_str(
            alloc,
            "the line ends within a value; write each object on one line",
        )?),
        Err(error) => {
            let column = error.column();
            Ok(format!(in alloc; "this is not valid JSON from column {column} on")?)
        }
    }
}

/// Returns whether a value has a whole number in range at a key.
fn is_amount(value: &Value, key: &str) -> bool {
    match value.get(key) {
        Some(amount) => matches!(amount.as_u64(), Some(number) if number <= 0x7fff_ffff_ffff_ffff),
        None => false,
    }
}

/// Returns the reason why the value of a key is not an amount.
fn why_no_amount(alloc: Global, value: &Value, key: &str) -> Result<String, NoMemory> {
    match value.get(key) {
        Some(_) => Ok(format!(in alloc; "\"{key}\" {AMOUNT}")?),
        None => why_missing(alloc, value, key),
    }
}

/// Returns the reason for a key that is missing, with the key that may stand for it.
fn why_missing(alloc: Global, value: &Value, key: &str) -> Result<String, NoMemory> {
    let others = keys_of(alloc, value)?;
    Ok(match nearest(alloc, key, others.as_slice())? {
        Some(other) => {
            let other = quoted(alloc, other)?;
            format!(in alloc; "found the key {other}; did you mean \"{key}\"?")?
        }
        None => format!(in alloc; "\"{key}\" is missing")?,
    })
}

/// Returns the keys of an object.
fn keys_of(alloc: Global, value: &Value) -> Result<Vec<&str>, NoMemory> {
    let mut keys = Vec::new(alloc);
    if let Value::Object(members) = value {
        for (key, _member) in members.iter() {
            keys.push(key.as_str())?;
        }
    }
    Ok(keys)
}

/// Returns why a line with a link does not have the form of one.
fn why_no_link(alloc: Global, value: &Value) -> Result<String, NoMemory> {
    if !is_amount(value, "gain") {
        return why_no_amount(alloc, value, "gain");
    }
    if value.get("charge").is_some() && !is_amount(value, "charge") {
        return why_no_amount(alloc, value, "charge");
    }
    if let Some(eligible) = value.get("eligible") {
        if eligible.as_bool().is_none() {
            return Ok(String::from_str(alloc, "\"eligible\" must be true or false")?);
        }
    }
    Ok(String::from_str(alloc, "\"needs\" must be a list of names, such as [\"A\"]")?)
}

/// Returns which command reads a value that is not a line of a profile, or an example of a line.
fn other_input(value: &Value) -> &'static str {
    if value.is_array() {
        return "; write each object on a line of its own, and no list";
    }
    if value.get("definition").is_some() {
        return "; this is a script, which mhlink run reads";
    }
    if value.get("problem").is_some() {
        return "; this is a problem with a plan, which mhlink check reads";
    }
    if value.get("costs").is_some() {
        return "; this is a problem, which mhlink plan reads";
    }
    if value.get("flow").is_some() {
        return "; this is a plan, which mhlink check --profile reads on the last line";
    }
    r#", such as {"point":"A","cost":1}"#
}

/// Returns why a line has neither form.
fn why_bad(alloc: Global, value: &Value) -> Result<String, NoMemory> {
    let Some(name) = value.get("point").or(value.get("link")) else {
        let other = other_input(value);
        return Ok(format!(in alloc; "expected an object with \"point\" or \"link\"{other}")?);
    };
    if name.as_str().is_none() {
        return Ok(String::from_str(alloc, "a name must be a string")?);
    }
    match value.get("point") {
        Some(_) => why_no_amount(alloc, value, "cost"),
        None => why_no_link(alloc, value),
    }
}

/// Returns why a line has a fault that does not concern a name.
fn why(alloc: Global, bytes: &[u8], fault: InputFault) -> Result<String, NoMemory> {
    match fault {
        InputFault::NotJson => why_no_json(alloc, bytes),
        InputFault::BadShape => match Value::from_slice(alloc, bytes) {
            Ok(value) => why_bad(alloc, &value),
            Err(_) => Err(NoMemory),
        },
        InputFault::PointTwice => Ok(String::from_str(
            alloc,
            "an earlier line has a point of this name",
        )?),
        InputFault::NeedTwice => Ok(String::from_str(alloc, "it needs a point twice")?),
        _ => Ok(String::from_str(
            alloc,
            "there are 1048576 of these already, the most that may be",
        )?),
    }
}

/// Returns the lines for any other fault of a line.
fn other_reasons(alloc: Global, bytes: &[u8], fault: InputFault) -> Result<String, NoMemory> {
    let found = beginning(alloc, bytes)?;
    let why = why(alloc, bytes, fault)?;
    Ok(format!(in alloc; "  found: {found}\n  why:   {why}\n")?)
}

/// Returns the lines that explain the fault of a line of a profile: what the line contains there,
/// and why it is a fault. There are none for a fault that has no line of the profile.
pub(crate) fn line_reasons(
    alloc: Global,
    request: Request,
    input: &[u8],
    fault: InputFault,
) -> Result<String, NoMemory>
    ensures explained { IfOk result (λ text. ExplainsProfile request input.now fault
        (string_bytes text)) }
{
    let Some(line) = faulty_line(alloc, profile_in(request, input), fault) else {
        return Ok(String::new(alloc));
    };
    match fault {
        InputFault::UnknownPoint => unknown_reasons(alloc, &line),
        _ => other_reasons(alloc, line.bytes.as_slice(), fault),
    }
}
