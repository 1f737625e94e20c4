//! Values at the boundary to C.

ghost use Rattle.std.specs.Prelude.{◌≡◌, ◌≢◌, ◌⊎◌, ◌≤◌, Some, length, pos, take, vec_capacity, IfErr, IfOk, OnOk};
ghost use Rattle.mhlink_c.specs.Crossing.{AreNoValues, AreValues, HaveNoText, IsNoText, IsOfItsKind, IsValue, bytes_of, reply_kind, reply_number, reply_steps, text_of_outcome, value_kind};
ghost use Rattle.mh_core.specs.Value.{Value as AnyValue};
ghost use Rattle.mhlink_c.specs.Statuses.{no_memory};
ghost use Rattle.mhlink_c.specs.Texts.{HasNoText};
ghost use Rattle.mhlink_c.specs.declared.failure.Failure.TheVariants.{BadValue};

use crate::failure::Failure;
use mh_core::{LONGEST_TEXT, NoMemory, Outcome, Refusal, Text, Throw, TypeFault, Value};
use std::alloc::Global;

/// A value. Its kind is 1 for an int, 2 for a long, 3 for a boolean, whose number is 0 or 1, and 4
/// for a String, whose number is its length in bytes among the texts of the call.
#[repr(C)]
#[derive(Clone, Copy, Debug)]
pub struct MhlinkValue {
    /// The kind.
    pub kind: u32,
    /// The number.
    pub number: i64,
}

/// The outcome of a call. Its kind is that of the value, or 5 for a throw: the number is then 1 for
/// an ArithmeticException, and 2 for a text that grew too long.
#[repr(C)]
#[derive(Clone, Copy, Debug)]
pub struct MhlinkReply {
    /// The kind.
    pub kind: u32,
    /// The number, or the length in bytes of a text, which `mhlink_text` copies.
    pub number: i64,
    /// The number of nodes evaluated, or 2^64 - 1 if there are more.
    pub steps: u64,
}

/// Replaces the contents of a list by the arguments from C, whose texts are in order. If none is a
/// text and the list has room for all, this does not allocate.
#[inline(always)]
pub(crate) fn read_values(
    values: &mut Vec<Value>,
    alloc: Global,
    given: &[MhlinkValue],
    texts: &[u8],
) -> Result<(), Failure>
    ensures values { OnOk result (AreValues given.now texts.now values.new.items) }
    ensures room { vec_capacity values.old ≤ vec_capacity values.new }
    ensures refused { IfErr result (λ e. ((e ≡ BadValue) × AreNoValues given.now texts.now)
        ⊎ (e ≡ no_memory)) }
    ensures memory { HaveNoText given.now → length given.now ≤ vec_capacity values.old
        → IfErr result (λ e. e ≡ BadValue) }
{
    values.clear();
    let mut rest = texts;
    for one in given {
        let value = value(alloc, one, rest)?;
        let used = text_length(&value).min(rest.len());
        rest = &rest[used..];
        values.push(value)?;
    }
    Ok(())
}

// Returns the number of bytes that a value has among the texts.
fn text_length(value: &Value) -> usize
    ensures value { result ≡ length (bytes_of value.now) }
{
    match value {
        Value::Text(text) => text.as_str().len(),
        _ => 0,
    }
}

/// Reads a value, whose text is at the beginning of the texts.
#[inline(always)]
pub(crate) fn value(alloc: Global, given: &MhlinkValue, texts: &[u8]) -> Result<Value, Failure>
    ensures value { IfOk result (IsValue given.now texts.now) }
    ensures refused { IfErr result (λ e. ((e ≡ BadValue)
        × ((x : AnyValue) → IsValue given.now texts.now x → ⊥)) ⊎ (e ≡ no_memory)) }
    ensures memory { given.now.kind ≢ 4 → IfErr result (λ e. e ≡ BadValue) }
{
    let number = given.number;
    match given.kind {
        1 => match i32::try_from(number) {
            Ok(number) => Ok(Value::Int(number)),
            Err(_) => Err(Failure::BadValue),
        },
        2 => Ok(Value::Long(number)),
        3 if number == 0 => Ok(Value::Boolean(false)),
        3 if number == 1 => Ok(Value::Boolean(true)),
        4 => text(alloc, number, texts),
        _ => Err(Failure::BadValue),
    }
}

// Returns the text of this many bytes at the beginning of the texts.
fn text(alloc: Global, count: i64, texts: &[u8]) -> Result<Value, Failure>
    ensures value { IfOk result (λ x. (count ≡ pos (length (bytes_of x)))
        × ((take (length (bytes_of x)) texts.now ≡ bytes_of x) × (value_kind x ≡ 4))) }
    ensures lawful { IfOk result IsOfItsKind }
    ensures refused { IfErr result (λ e. ((e ≡ BadValue) × IsNoText count texts.now)
        ⊎ (e ≡ no_memory)) }
{
    if count < 0 || count > LONGEST_TEXT as i64 {
        return Err(Failure::BadValue);
    }
    let count = count as usize;
    if count > texts.len() {
        return Err(Failure::BadValue);
    }
    let Ok(text) = str::from_utf8(&texts[..count]) else {
        return Err(Failure::BadValue);
    };
    match Text::new(alloc, text) {
        Ok(text) => Ok(Value::Text(text)),
        Err(TypeFault::NoMemory) => Err(Failure::Refused(Refusal::NoMemory)),
        Err(_) => Err(Failure::BadValue),
    }
}

/// Returns the reply for an outcome.
pub(crate) fn reply_of(outcome: &Outcome, steps: u128) -> MhlinkReply
    ensures kind { result.kind ≡ reply_kind outcome.now }
    ensures number { result.number ≡ reply_number outcome.now }
    ensures steps { result.steps ≡ reply_steps steps }
{
    let (kind, number) = match outcome {
        Outcome::Value(Value::Int(number)) => (1, i64::from(*number)),
        Outcome::Value(Value::Long(number)) => (2, *number),
        Outcome::Value(Value::Boolean(truth)) => (3, i64::from(*truth)),
        Outcome::Value(Value::Text(text)) => (4, text.as_str().len() as i64),
        Outcome::Thrown(Throw::ArithmeticException) => (5, 1),
        Outcome::Thrown(Throw::TextTooLong) => (5, 2),
    };
    let steps = steps.min(u128::from(u64::MAX)) as u64;
    MhlinkReply {
        kind,
        number,
        steps,
    }
}

/// Returns the text of an outcome, if it is one.
pub(crate) fn text_of(outcome: Outcome) -> Option<Text>
    ensures value { result ≡ text_of_outcome outcome }
{
    match outcome {
        Outcome::Value(Value::Text(text)) => Some(text),
        _ => None,
    }
}

/// Returns another owner of the text that the last call returned.
pub(crate) fn share_text(given: &Option<Text>) -> Result<Text, Failure>
    ensures value { IfOk result (λ text. given.now ≡ Some text) }
    ensures refused { IfErr result (HasNoText given.now) }
{
    match given {
        Some(text) => text.share().map_err(|_| Failure::from(NoMemory)),
        None => Err(Failure::Unknown),
    }
}
