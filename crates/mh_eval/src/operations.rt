//! The results of the leaf operations on two values, of which some read only the first.

ghost use Rattle.std.specs.Prelude.{◌≡◌, ◌∷◌, [], pos, length as list_length, IfSome};
ghost use Rattle.std.specs.Option.{is_some};
ghost use Rattle.std.specs.Int.{int_wrap, int_wrapping_div, w32, w64};
ghost use Rattle.std.specs.Int.RustNames.{int_rem};
ghost use Rattle.mh_type.specs.Operations.{operate as outcome_of, divided, joined};
ghost use Rattle.mh_type.specs.declared.outcome.Outcome.{Outcome};
ghost use Rattle.mh_type.specs.declared.outcome.Throw.{Throw as ThrowOf};
ghost use Rattle.mh_type.specs.Kinds.{kind_of};
ghost use Rattle.mh_eval.specs.Answers.{Gives};
ghost use Rattle.mh_eval.specs.Numbers.{is_number, compares_ints, compares_longs, compares_numbers};
ghost use Rattle.mh_eval.specs.Quiet.{IsAnswered};

use crate::answer::Answer;
use mh_type::{Kind, Op, Outcome, Text, Throw, TypeFault, Value};
use std::alloc::Global;

const TWO_TO_THE_32: i64 = 0x1_0000_0000;

// Returns whether two ints are equal.
#[inline(always)]
fn int_equal(first: &Value, second: &Value) -> bool
    ensures value { outcome_of Op.Ieq (first.now ∷ second.now ∷ [])
        ≡ Outcome.Value (Value.Boolean result) }
{
    match (first, second) {
        (Value::Int(x), Value::Int(y)) => *x == *y,
        _ => false,
    }
}

// Returns whether an int is less than another.
#[inline(always)]
fn int_less(first: &Value, second: &Value) -> bool
    ensures value { outcome_of Op.Ilt (first.now ∷ second.now ∷ [])
        ≡ Outcome.Value (Value.Boolean result) }
{
    match (first, second) {
        (Value::Int(x), Value::Int(y)) => *x < *y,
        _ => false,
    }
}

// Returns whether two longs are equal.
#[inline(always)]
fn long_equal(first: &Value, second: &Value) -> bool
    ensures value { outcome_of Op.Leq (first.now ∷ second.now ∷ [])
        ≡ Outcome.Value (Value.Boolean result) }
{
    match (first, second) {
        (Value::Long(x), Value::Long(y)) => *x == *y,
        _ => false,
    }
}

// Returns whether a long is less than another.
#[inline(always)]
fn long_less(first: &Value, second: &Value) -> bool
    ensures value { outcome_of Op.Llt (first.now ∷ second.now ∷ [])
        ≡ Outcome.Value (Value.Boolean result) }
{
    match (first, second) {
        (Value::Long(x), Value::Long(y)) => *x < *y,
        _ => false,
    }
}

// Returns the negation of a boolean.
#[inline(always)]
fn negate(first: &Value, second: &Value) -> bool
    ensures value { outcome_of Op.Not (first.now ∷ second.now ∷ [])
        ≡ Outcome.Value (Value.Boolean result) }
{
    match first {
        Value::Boolean(x) => !*x,
        _ => false,
    }
}

// Returns whether two booleans are equal.
#[inline(always)]
fn truth_equal(first: &Value, second: &Value) -> bool
    ensures value { outcome_of Op.Beq (first.now ∷ second.now ∷ [])
        ≡ Outcome.Value (Value.Boolean result) }
{
    match (first, second) {
        (Value::Boolean(x), Value::Boolean(y)) => *x == *y,
        _ => false,
    }
}

// Returns whether two texts are equal.
#[inline(always)]
fn text_equal(first: &Value, second: &Value) -> bool
    ensures value { outcome_of Op.Seq (first.now ∷ second.now ∷ [])
        ≡ Outcome.Value (Value.Boolean result) }
{
    match (first, second) {
        (Value::Text(s), Value::Text(t)) => s.as_str() == t.as_str(),
        _ => false,
    }
}

/// Returns the truth of an operation that compares two numbers, if both are of its kind, and
/// otherwise `None`.
#[inline(always)]
pub fn truth(op: Op, first: &Value, second: &Value) -> Option<bool>
    ensures value { IfSome result (λ b. outcome_of op (first.now ∷ second.now ∷ [])
        ≡ Outcome.Value (Value.Boolean b)) }
    ensures some { is_some result
        ≡ compares_numbers op (kind_of first.now) (kind_of second.now) }
{
    match (first, second) {
        (Value::Int(_), Value::Int(_)) => int_truth(op, first, second),
        (Value::Long(_), Value::Long(_)) => long_truth(op, first, second),
        _ => None,
    }
}

// Returns the truth of an operation that compares ints, or `None` for any other operation.
#[inline(always)]
fn int_truth(op: Op, first: &Value, second: &Value) -> Option<bool>
    ensures value { IfSome result (λ b. outcome_of op (first.now ∷ second.now ∷ [])
        ≡ Outcome.Value (Value.Boolean b)) }
    ensures some { is_some result ≡ compares_ints op }
{
    match op {
        Op::Ieq => Some(int_equal(first, second)),
        Op::Ilt => Some(int_less(first, second)),
        _ => None,
    }
}

// Returns the truth of an operation that compares longs, or `None` for any other operation.
#[inline(always)]
fn long_truth(op: Op, first: &Value, second: &Value) -> Option<bool>
    ensures value { IfSome result (λ b. outcome_of op (first.now ∷ second.now ∷ [])
        ≡ Outcome.Value (Value.Boolean b)) }
    ensures some { is_some result ≡ compares_longs op }
{
    match op {
        Op::Leq => Some(long_equal(first, second)),
        Op::Llt => Some(long_less(first, second)),
        _ => None,
    }
}

// Evaluates the answer for two operands of a kind; the answer for operands of other kinds is false.
macro_rules! two {
    ($kind:ident, $some:expr, $more:expr, ($x:ident, $y:ident) => $answer:expr) => {
        match ($some, $more) {
            (Value::$kind($x), Value::$kind($y)) => $answer,
            _ => Answer::Boolean(false),
        }
    };
}

// Evaluates the answer for one operand of a kind; the answer for an operand of another kind is
// false.
macro_rules! one {
    ($kind:ident, $operand:expr, $x:ident => $answer:expr) => {
        match $operand {
            Value::$kind($x) => $answer,
            _ => Answer::Boolean(false),
        }
    };
}

/// Returns the answer of an operation on two operands, of which some read only the first. Only
/// joining two texts allocates, and only if the joined text is not too long.
#[inline(always)]
#[tactic(auto, using(std::proofs::lemmas::Int::wraps))]
pub fn operate(alloc: Global, op: Op, first: &Value, second: &Value) -> Answer
    ensures value { Gives result (outcome_of op (first.now ∷ second.now ∷ [])) }
    ensures quiet { (op ≡ Op.Concat → ⊥) → IsAnswered result }
    ensures thrown { (t : ThrowOf) → outcome_of op (first.now ∷ second.now ∷ []) ≡ Outcome.Thrown t
        → IsAnswered result }
{
    match op {
        Op::Iadd => two!(Int, first, second, (x, y) => Answer::Int(x.wrapping_add(*y))),
        Op::Isub => two!(Int, first, second, (x, y) => Answer::Int(x.wrapping_sub(*y))),
        Op::Imul => two!(Int, first, second, (x, y) => Answer::Int(x.wrapping_mul(*y))),
        Op::Idiv => two!(Int, first, second, (x, y) => int_quotient(*x, *y)),
        Op::Irem => two!(Int, first, second, (x, y) => int_remainder(*x, *y)),
        Op::Ineg => one!(Int, first, x => Answer::Int(x.wrapping_neg())),
        Op::Ladd => two!(Long, first, second, (x, y) => Answer::Long(x.wrapping_add(*y))),
        Op::Lsub => two!(Long, first, second, (x, y) => Answer::Long(x.wrapping_sub(*y))),
        Op::Lmul => two!(Long, first, second, (x, y) => Answer::Long(x.wrapping_mul(*y))),
        Op::Ldiv => two!(Long, first, second, (x, y) => long_quotient(*x, *y)),
        Op::Lrem => two!(Long, first, second, (x, y) => long_remainder(*x, *y)),
        Op::Lneg => one!(Long, first, x => Answer::Long(x.wrapping_neg())),
        Op::I2l => one!(Int, first, x => Answer::Long(i64::from(*x))),
        Op::L2i => one!(Long, first, x => Answer::Int(low_bits(*x))),
        Op::Len => one!(Text, first, s => length(s)),
        Op::Concat => two!(Text, first, second, (s, t) => concat(alloc, s, t)),
        Op::Ieq => Answer::Boolean(int_equal(first, second)),
        Op::Ilt => Answer::Boolean(int_less(first, second)),
        Op::Leq => Answer::Boolean(long_equal(first, second)),
        Op::Llt => Answer::Boolean(long_less(first, second)),
        Op::Not => Answer::Boolean(negate(first, second)),
        Op::Beq => Answer::Boolean(truth_equal(first, second)),
        Op::Seq => Answer::Boolean(text_equal(first, second)),
    }
}

// Returns the quotient of ints, truncated towards zero, or a throw if the divisor is zero (JLS SE
// 17, 15.17.2).
fn int_quotient(x: i32, y: i32) -> Answer
    ensures value { Gives result (divided Value.Int (int_wrapping_div w32) x y) }
    ensures quiet { IsAnswered result }
{
    if y == 0 {
        return Answer::Thrown(Throw::ArithmeticException);
    }
    Answer::Int(x.wrapping_div(y))
}

// Returns the remainder of ints, with the dividend's sign, or a throw if the divisor is zero (JLS
// SE 17, 15.17.3).
fn int_remainder(x: i32, y: i32) -> Answer
    ensures value { Gives result (divided Value.Int int_rem x y) }
    ensures quiet { IsAnswered result }
{
    if y == 0 {
        return Answer::Thrown(Throw::ArithmeticException);
    }
    Answer::Int(x.wrapping_rem(y))
}

// Returns the quotient of longs, or a throw if the divisor is zero.
fn long_quotient(x: i64, y: i64) -> Answer
    ensures value { Gives result (divided Value.Long (int_wrapping_div w64) x y) }
    ensures quiet { IsAnswered result }
{
    if y == 0 {
        return Answer::Thrown(Throw::ArithmeticException);
    }
    Answer::Long(x.wrapping_div(y))
}

// Returns the remainder of longs, or a throw if the divisor is zero.
fn long_remainder(x: i64, y: i64) -> Answer
    ensures value { Gives result (divided Value.Long int_rem x y) }
    ensures quiet { IsAnswered result }
{
    if y == 0 {
        return Answer::Thrown(Throw::ArithmeticException);
    }
    Answer::Long(x.wrapping_rem(y))
}

// Returns the low 32 bits of a long (JLS SE 17, 5.1.3).
fn low_bits(number: i64) -> i32
    ensures value { result ≡ int_wrap w32 number }
{
    let low = number.rem_euclid(TWO_TO_THE_32).unsigned_abs() as u32;
    low.cast_signed()
}

// Returns the number of bytes of a text.
fn length(text: &Text) -> Answer
    ensures value { Gives result (Outcome.Value (Value.Int (pos (list_length text.now)))) }
    ensures quiet { IsAnswered result }
{
    Answer::Int(text.as_str().len() as i32)
}

// Returns the concatenation of two texts, or a throw if it would be too long (JLS SE 17, 15.18.1).
#[inline(never)]
fn concat(alloc: Global, some: &Text, more: &Text) -> Answer
    ensures value { Gives result (joined some.now more.now) }
    ensures long { (t : ThrowOf) → joined some.now more.now ≡ Outcome.Thrown t → IsAnswered result }
{
    match Text::concat(alloc, some, more) {
        Ok(text) => Answer::Text(text),
        Err(TypeFault::BadText) => Answer::Thrown(Throw::TextTooLong),
        Err(_) => Answer::NoMemory,
    }
}

/// Returns the outcome of a number, or `None` for any other value.
#[inline(always)]
pub fn outcome_of_number(value: &Value) -> Option<Outcome>
    ensures value { IfSome result (λ o. o ≡ Outcome.Value value.now) }
    ensures some { is_some result ≡ is_number (kind_of value.now) }
{
    match value {
        Value::Int(number) => Some(Outcome::Value(Value::Int(*number))),
        Value::Long(number) => Some(Outcome::Value(Value::Long(*number))),
        _ => None,
    }
}

/// Returns another owner of a value, as an answer. Only a text may be refused.
#[inline(always)]
pub fn share(value: &Value) -> Answer
    ensures value { Gives result (Outcome.Value value.now) }
    ensures quiet { (kind_of value.now ≡ Kind.Text → ⊥) → IsAnswered result }
{
    match value {
        Value::Int(number) => Answer::Int(*number),
        Value::Long(number) => Answer::Long(*number),
        Value::Boolean(truth) => Answer::Boolean(*truth),
        Value::Text(text) => share_text(text),
    }
}

// Returns another owner of a text.
#[inline(never)]
fn share_text(text: &Text) -> Answer
    ensures value { Gives result (Outcome.Value (Value.Text text.now)) }
{
    match text.share() {
        Ok(text) => Answer::Text(text),
        Err(_) => Answer::NoMemory,
    }
}
