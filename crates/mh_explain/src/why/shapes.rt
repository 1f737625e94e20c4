//! Explanations of parts that are not of the form that is read there.
use crate::objects::{Object, object_at};
use crate::spot::Spot;
use crate::values::{items, value_at};
use crate::why::forms::{
    EVENT_WORDS, TREE_WORDS, form_of, hint_of, is_tree_word, java_event, java_form,
};
use crate::why::missing::why_missing;
use crate::why::names::{shared_names, why_no_name, why_not_new};
use crate::why::numbers::{why_no_number, why_not_numbered};
use crate::words::{counted, meant_of, quoted, wanted, why_no_kind, words_of};
use mh_base::NoMemory;
use mh_core::{LARGEST_LEDGER, LARGEST_TOTAL, LONGEST_HISTORY};
use mh_json::{Field, Key, Wanted, Word};
use mh_type::{Kind, Op};
use serde_json::Value;
use std::alloc::Global;

/// The names of operations.
const OPERATION_NAMES: &str =
    "iadd isub imul idiv irem ineg ieq ilt ladd lsub lmul ldiv lrem lneg leq llt i2l l2i not beq concat seq len";

/// Explains why a part is not of the form that is read there.
pub(crate) fn why_other(alloc: Global, spot: &Spot<'_>) -> Result<String, NoMemory> {
    let value = spot.value;
    match spot.wanted {
        Wanted::Nothing | Wanted::Json { .. } => Ok(String::new(alloc)),
        Wanted::Missing(field) => why_missing(alloc, field, spot),
        Wanted::List => wanted(alloc, list_at(spot), value),
        Wanted::Tree if is_filter_alone(spot) => Ok(String::from_str(
            alloc,
            "expected a list of filters, found a tree; write [TREE]",
        )?),
        Wanted::Tree if is_position_first(spot) => Ok(String::from_str(
            alloc,
            "expected a tree and then a position, found a position and then a tree",
        )?),
        Wanted::Tree => why_no_tree(alloc, spot.input, value),
        Wanted::TreeWord => why_no_tree_word(alloc, value),
        Wanted::Event => why_no_event(alloc, value),
        Wanted::EventWord => why_no_event_word(alloc, value),
        Wanted::PartsOf(word) => why_other_parts(alloc, word, value),
        Wanted::Number { least, most } => why_no_number(alloc, least, most, value),
        Wanted::NumberOf(numbered) => why_not_numbered(alloc, numbered, spot),
        Wanted::NameOf(named) => why_no_name(alloc, named, spot.input, value),
        Wanted::NewName => why_not_new(alloc, spot.input, value),
        Wanted::Kind => why_not_kind(alloc, value),
        Wanted::Operation => why_no_operation(alloc, value),
        Wanted::Limits => why_no_limits(alloc, value),
        Wanted::SharedPair => why_other_length(alloc, "[name, tree]", value),
        Wanted::FlowRow => why_other_length(alloc, "[link, point, amount]", value),
        Wanted::ChargeRow => why_other_length(alloc, "[link, amount]", value),
        other => wanted(alloc, plain_form(other), value),
    }
}

/// Describes the list that is read at a place.
fn list_at(spot: &Spot<'_>) -> &'static str {
    let [parent @ .., Key::Member(field)] = spot.path else {
        return list_in(head_around(spot));
    };
    match (object_at(spot.form, parent), field) {
        (Some(Object::Script), Field::Events) => r#"a list of events, such as [["flush",0]]"#,
        (Some(Object::Definition), Field::Points) => {
            r#"a list of points, such as [{"name":"p","cost":1}]"#
        }
        (Some(Object::Definition), Field::Sites) => {
            r#"a list of sites, such as [{"name":"f","type":"(int)int","target":["op","ineg"]}]"#
        }
        (Some(Object::Definition), Field::Shared) => {
            r#"a list of [name, tree], such as [["neg",["op","ineg"]]]"#
        }
        (Some(Object::Site), Field::Links) => {
            r#"a list of links, such as [{"when":1,"weight":1,"needs":["p"]}]"#
        }
        (Some(Object::Link), Field::Needs) => r#"a list of names of points, such as ["p"]"#,
        (Some(Object::Problem), Field::Links) =>
            r#"a list of links, such as [{"gain":1,"needs":[0]}]"#,
        (Some(Object::Problem), Field::Costs) => "a list of costs, one per point, such as [5]",
        (Some(Object::Row), Field::Needs) | (Some(Object::Plan), Field::Points) => {
            "a list of numbers of points, such as [0]"
        }
        (Some(Object::Plan), Field::Links) => "a list of numbers of links, such as [0]",
        (Some(Object::Plan), Field::Flow) => {
            "a list of [link, point, amount], such as [[0,0,5]]"
        }
        (Some(Object::Plan), Field::Charges) => { "a list of [link, amount], such as [[0,5]]" }
        _ => "a list",
    }
}

/// Returns the word with which the list around a part begins.
fn head_around<'a>(spot: &Spot<'a>) -> Option<&'a str> {
    let [parent @ .., Key::Item(_)] = spot.path else {
        return None;
    };
    value_at(spot.input, parent).and_then(head_of)
}

/// Returns whether a tree with this first word has a position after its first tree.
fn has_position(head: Option<&str>) -> bool {
    matches!(head, Some("insert" | "drop" | "filter"))
}

/// Describes the list that a list with this first word contains.
fn list_in(head: Option<&str>) -> &'static str {
    match head {
        Some("call") => "a list of arguments, such as [1]",
        Some("insert") => "a list of values, such as [1]",
        Some("drop") => r#"a list of kinds, such as ["int"]"#,
        Some("permute") => "a list of positions, such as [0]",
        Some("filter") => r#"a list of filters, such as [["op","ineg"]]"#,
        Some("invalidate") => r#"a list of names of points, such as ["p"]"#,
        _ => "a list",
    }
}

/// Describes a form by a fixed phrase.
fn plain_form(form: Wanted) -> &'static str {
    match form {
        Wanted::Text => "a string",
        Wanted::Truth => "true or false",
        Wanted::Signed => "a whole number of 64 bits",
        Wanted::MethodType => "a method type, such as \"(int,String)boolean\"",
        Wanted::Version => "version 1 or 2",
        Wanted::Workers => "a number of workers from 1 to 64",
        Wanted::KeyPlace => "the index of a parameter, from 0, or null",
        Wanted::Constant(kind) => constant_of(kind),
        _ => {
            "a value (a whole number of 64 bits, true, false, or a string of at most 65536 bytes of printable ASCII)"
        }
    }
}

/// Describes the values of a kind.
fn constant_of(kind: Kind) -> &'static str {
    match kind {
        Kind::Int => "an int (-2147483648 to 2147483647)",
        Kind::Long => "a long (a whole number of 64 bits)",
        Kind::Boolean => "a boolean (true or false)",
        Kind::Text => "a String of at most 65536 bytes of printable ASCII",
    }
}

/// Returns whether a part is the word of a tree that is written in place of a list of filters.
fn is_filter_alone(spot: &Spot<'_>) -> bool {
    let [form @ .., Key::Item(3), Key::Item(0)] = spot.path else {
        return false;
    };
    let is_filter = value_at(spot.input, form).and_then(head_of) == Some("filter");
    is_filter && matches!(spot.value.as_str(), Some(word) if is_tree_word(word))
}

/// Returns whether a part is the position of a form whose tree comes after it.
fn is_position_first(spot: &Spot<'_>) -> bool {
    let [form @ .., Key::Item(1)] = spot.path else {
        return false;
    };
    let second = value_at(spot.input, form).and_then(|form| form.get(2));
    let is_tree = matches!(second.and_then(head_of), Some(word) if is_tree_word(word));
    is_tree && spot.value.is_number() && has_position(head_around(spot))
}

/// Explains why a value is not a tree, with the tree that may have been meant.
fn why_no_tree(alloc: Global, input: &Value, value: &Value) -> Result<String, NoMemory> {
    let meant = tree_meant(alloc, input, value)?;
    let why = why_no_list(alloc, "a tree", value)?;
    Ok(format!(in alloc; "{why}{meant}")?)
}

/// Returns the question of whether the leaf that a value names is meant.
fn tree_meant(alloc: Global, input: &Value, value: &Value) -> Result<String, NoMemory> {
    let form = match value {
        Value::Number(number) => match number.as_i64() {
            Some(_) => format!(in alloc; "[\"const\",\"int\",{value}]")?,
            None => return Ok(String::new(alloc)),
        },
        Value::Bool(_) => format!(in alloc; "[\"const\",\"boolean\",{value}]")?,
        Value::String(name) if Op::from_name(name.as_str()).is_some() => {
            format!(in alloc; "[\"op\",{value}]")?
        }
        Value::String(name) if shared_names(alloc, input)?.contains(&name.as_str()) => {
            format!(in alloc; "[\"ref\",{value}]")?
        }
        _ => return Ok(String::new(alloc)),
    };
    Ok(format!(in alloc; "; did you mean {form}?")?)
}

/// Explains why a value is not an event, with an event that may have been meant.
fn why_no_event(alloc: Global, value: &Value) -> Result<String, NoMemory> {
    let why = why_no_list(alloc, "an event", value)?;
    match value.as_str() {
        Some("snapshot") => Ok(format!(in alloc; "{why}; did you mean [\"snapshot\"]?")?),
        _ => Ok(format!(in alloc; "{why}; for example [\"flush\",0]")?),
    }
}

/// Explains why a value is not a list that begins with a word.
fn why_no_list(alloc: Global, noun: &str, value: &Value) -> Result<String, NoMemory> {
    match value {
        Value::Array(_) => Ok(format!(in alloc;
            "expected {noun} (a list that begins with a word), found an empty list"
        )?),
        _ => wanted(alloc, noun, value),
    }
}

/// Returns the word with which a list begins.
fn head_of(value: &Value) -> Option<&str> {
    value.get(0)?.as_str()
}

/// Returns the operation with a name, or for which other languages have this sign.
fn operation_meant(word: &str) -> Option<&str> {
    match word {
        "+" => Some("iadd"),
        "-" => Some("isub"),
        "*" => Some("imul"),
        "/" => Some("idiv"),
        "%" => Some("irem"),
        "<" => Some("ilt"),
        "==" => Some("ieq"),
        "!" => Some("not"),
        _ if Op::from_name(word).is_some() => Some(word),
        _ => None,
    }
}

/// Explains why the first item of a list is not a word with which trees begin.
fn why_no_tree_word(alloc: Global, value: &Value) -> Result<String, NoMemory> {
    let Some(word) = head_of(value) else {
        return why_no_head(alloc, "a tree", TREE_WORDS, value);
    };
    if let Some(form) = java_form(word) {
        return Ok(format!(in alloc; "\"{word}\" does not begin a tree; {form}")?);
    }
    match operation_meant(word) {
        Some(name) => {
            let arguments = if items(value).len() > 1 {
                format!(in alloc;
                    " [\"insert\",[\"op\",\"{name}\"],pos,[VALUE..]] binds arguments"
                )?
            } else {
                String::new(alloc)
            };
            Ok(format!(in alloc;
                "\"{word}\" does not begin a tree; did you mean [\"op\",\"{name}\"]?{arguments}"
            )?)
        }
        None => why_no_head(alloc, "a tree", TREE_WORDS, value),
    }
}

/// Explains why the first item of a list is not a word with which events begin.
fn why_no_event_word(alloc: Global, value: &Value) -> Result<String, NoMemory> {
    match head_of(value).and_then(java_event) {
        Some(form) => {
            let word = head_of(value).unwrap_or("");
            Ok(format!(in alloc; "\"{word}\" does not begin an event; write {form}")?)
        }
        None => why_no_head(alloc, "an event", EVENT_WORDS, value),
    }
}

/// Explains why the first item of a list is not one of these words. The explanation is of the list
/// if the item is a word, and otherwise of the item in place of a word.
fn why_no_head(alloc: Global, noun: &str, words: &str, value: &Value) -> Result<String, NoMemory> {
    let known = words_of(alloc, words)?;
    match head_of(value) {
        Some(word) if !known.contains(&word) => {
            let shown = quoted(alloc, word)?;
            let others = meant_of(alloc, word, words, "these words do:")?;
            Ok(format!(in alloc; "{shown} does not begin {noun}; {others}")?)
        }
        _ => {
            let what = format!(in alloc; "a word that begins {noun}")?;
            wanted(alloc, what.as_str(), value)
        }
    }
}

/// Explains why a word is not followed by this number of parts.
fn why_other_parts(alloc: Global, word: Word, value: &Value) -> Result<String, NoMemory> {
    let form = form_of(word);
    let (Some(head), Value::Array(items)) = (head_of(value), value) else {
        return Ok(String::new(alloc));
    };
    let parts = counted(alloc, items.len().saturating_sub(1), "part", "parts")?;
    let hint = hint_of(word);
    Ok(format!(in alloc; "expected {form}, found {parts} after \"{head}\"{hint}")?)
}

/// Explains why a value is not the name of a kind.
fn why_not_kind(alloc: Global, value: &Value) -> Result<String, NoMemory> {
    match value.as_str() {
        Some(word) => why_no_kind(alloc, word),
        None => wanted(alloc, "a kind (int, long, boolean or String)", value),
    }
}

/// Explains why a value is not the name of an operation.
fn why_no_operation(alloc: Global, value: &Value) -> Result<String, NoMemory> {
    let Some(word) = value.as_str() else {
        return wanted(alloc, "the name of an operation, such as \"iadd\"", value);
    };
    let shown = quoted(alloc, word)?;
    let others = match operation_meant(word) {
        Some(name) => format!(in alloc; "did you mean \"{name}\"?")?,
        None => meant_of(alloc, word, OPERATION_NAMES, "the operations are")?,
    };
    Ok(format!(in alloc; "{shown} is not an operation; {others}")?)
}

/// Explains that a list does not have the expected number of items.
fn why_other_length(alloc: Global, form: &str, value: &Value) -> Result<String, NoMemory> {
    let Value::Array(items) = value else {
        return wanted(alloc, form, value);
    };
    let found = counted(alloc, items.len(), "item", "items")?;
    Ok(format!(in alloc; "expected {form}, found a list of {found}")?)
}

/// Explains why an object is not the limits of a script.
fn why_no_limits(alloc: Global, value: &Value) -> Result<String, NoMemory> {
    if !value.is_object() {
        return wanted(
            alloc,
            "an object of limits, such as {\"history\":100}",
            value,
        );
    }
    Ok(format!(in alloc;
        "history is 0 to {LONGEST_HISTORY}, ledger 1 to {LARGEST_LEDGER}, total 0 to {LARGEST_TOTAL}"
    )?)
}
