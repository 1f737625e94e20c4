//! Words of values.

ghost use Rattle.std.specs.Prelude.{◌≡◌, IfSome, IfNone};
ghost use Rattle.mh_type.specs.Kinds.{kind_of};
ghost use Rattle.mh_words.specs.Running.{outcome_of};
ghost use Rattle.mh_words.specs.Values.{IsWord, value_of_word as value_of};

use mh_type::{Kind, Outcome, Throw, Value};

/// Returns the word of a value, or `None` for a text.
#[inline(always)]
pub fn word_of(value: &Value) -> Option<i64>
    ensures word { IfSome result (λ w. IsWord value.now w) }
    ensures text { IfNone result (kind_of value.now ≡ Kind.Text) }
{
    match value {
        Value::Int(number) => Some(i64::from(*number)),
        Value::Long(number) => Some(*number),
        Value::Boolean(truth) => Some(i64::from(*truth)),
        Value::Text(_) => None,
    }
}

/// Returns the value of this kind that a word represents. Returns `None` if the kind is `Text`, or
/// if the kind is `Int` and the word is not an int.
#[inline(always)]
pub fn value_of_word(kind: Kind, word: i64) -> Option<Value>
    ensures value { IfSome result (λ x. x ≡ value_of kind word) }
{
    match kind {
        Kind::Int => Some(Value::Int(i32::try_from(word).ok()?)),
        Kind::Long => Some(Value::Long(word)),
        Kind::Boolean => Some(Value::Boolean(word != 0)),
        Kind::Text => None,
    }
}

/// Returns the outcome that the word of an answer represents, or the throw of an
/// `ArithmeticException` if there is no word. Returns `None` if `value_of_word` does.
#[inline(always)]
pub fn outcome_of_word(kind: Kind, word: Option<i64>) -> Option<Outcome>
    ensures value { IfSome result (λ o. o ≡ outcome_of kind word) }
{
    match word {
        Some(word) => Some(Outcome::Value(value_of_word(kind, word)?)),
        None => Some(Outcome::Thrown(Throw::ArithmeticException)),
    }
}
