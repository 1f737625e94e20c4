//! Computes operations and tests on words.

ghost use Rattle.std.specs.Prelude.{◌≡◌, not};
ghost use Rattle.std.specs.Int.{int_wrapping_div, w32, w64};
ghost use Rattle.std.specs.Int.RustNames.{int_rem};
ghost use Rattle.mh_type.specs.Operations.{is_zero};
ghost use Rattle.mh_words.specs.Operations.{divided, low as low_bits, result as result_of};
ghost use Rattle.mh_words.specs.Running.{holds as test_holds, source_word};

use crate::operation::WordOperation;
use crate::slot::FRAME_LENGTH;
use crate::word_source::WordSource;
use crate::word_test::WordTest;

const TWO_TO_THE_32: i64 = 0x1_0000_0000;

// Returns the int of the low 32 bits.
#[inline(always)]
fn low(word: i64) -> i32
    ensures value { result ≡ low_bits word }
{
    let low = word.rem_euclid(TWO_TO_THE_32).unsigned_abs() as u32;
    low.cast_signed()
}

// Returns the result of an operation on two words, or `None` if it throws.
#[inline(always)]
#[tactic(auto, using(std::proofs::lemmas::Int::wraps))]
pub(crate) fn calculate(operation: WordOperation, first: i64, second: i64) -> Option<i64>
    ensures value { result ≡ result_of operation first second }
{
    match operation {
        WordOperation::IntAdd => Some(i64::from(low(first).wrapping_add(low(second)))),
        WordOperation::IntSubtract => Some(i64::from(low(first).wrapping_sub(low(second)))),
        WordOperation::IntMultiply => Some(i64::from(low(first).wrapping_mul(low(second)))),
        WordOperation::IntDivide => int_quotient(low(first), low(second)),
        WordOperation::IntRemainder => int_remainder(low(first), low(second)),
        WordOperation::LongAdd => Some(first.wrapping_add(second)),
        WordOperation::LongSubtract => Some(first.wrapping_sub(second)),
        WordOperation::LongMultiply => Some(first.wrapping_mul(second)),
        WordOperation::LongDivide => long_quotient(first, second),
        WordOperation::LongRemainder => long_remainder(first, second),
        WordOperation::LongToInt => Some(i64::from(low(first))),
        WordOperation::Equal => Some(i64::from(first == second)),
        WordOperation::Less => Some(i64::from(first < second)),
    }
}

// Returns the quotient of ints, or `None` if the divisor is zero.
#[inline(always)]
fn int_quotient(x: i32, y: i32) -> Option<i64>
    ensures value { result ≡ divided (int_wrapping_div w32) x y }
{
    if y == 0 {
        return None;
    }
    Some(i64::from(x.wrapping_div(y)))
}

// Returns the remainder of ints, or `None` if the divisor is zero.
#[inline(always)]
fn int_remainder(x: i32, y: i32) -> Option<i64>
    ensures value { result ≡ divided int_rem x y }
{
    if y == 0 {
        return None;
    }
    Some(i64::from(x.wrapping_rem(y)))
}

// Returns the quotient of longs, or `None` if the divisor is zero.
#[inline(always)]
fn long_quotient(x: i64, y: i64) -> Option<i64>
    ensures value { result ≡ divided (int_wrapping_div w64) x y }
{
    if y == 0 {
        return None;
    }
    Some(x.wrapping_div(y))
}

// Returns the remainder of longs, or `None` if the divisor is zero.
#[inline(always)]
fn long_remainder(x: i64, y: i64) -> Option<i64>
    ensures value { result ≡ divided int_rem x y }
{
    if y == 0 {
        return None;
    }
    Some(x.wrapping_rem(y))
}

// Returns a source's word, or `None` if the source throws.
#[inline(always)]
pub(crate) fn word_from(frame: &[i64; FRAME_LENGTH], source: &WordSource) -> Option<i64>
    ensures value { result ≡ source_word frame.now source.now }
{
    match source {
        WordSource::Constant(word) => Some(*word),
        WordSource::Copy(slot) => Some(frame[slot.place()]),
        WordSource::Apply {
            operation,
            first,
            second,
        } => calculate(*operation, frame[first.place()], frame[second.place()]),
        WordSource::ApplyRight {
            operation,
            first,
            second,
        } => calculate(*operation, frame[first.place()], *second),
        WordSource::ApplyLeft {
            operation,
            first,
            second,
        } => calculate(*operation, *first, frame[second.place()]),
    }
}

// Returns whether a word is that of `true`.
#[inline(always)]
pub(crate) fn is_true(word: i64) -> bool
    ensures value { result ≡ not (is_zero word) }
{
    word != 0
}

// Returns whether a test holds.
#[inline(always)]
pub(crate) fn holds(frame: &[i64; FRAME_LENGTH], test: &WordTest) -> bool
    ensures value { result ≡ test_holds frame.now test.now }
{
    match test {
        WordTest::True(slot) => is_true(frame[slot.place()]),
        WordTest::Equal(first, second) => frame[first.place()] == frame[second.place()],
        WordTest::Is(slot, word) => frame[slot.place()] == *word,
        WordTest::Less(first, second) => frame[first.place()] < frame[second.place()],
        WordTest::Below(slot, word) => frame[slot.place()] < *word,
        WordTest::Above(slot, word) => *word < frame[slot.place()],
    }
}
