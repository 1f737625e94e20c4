//! Operations on words.

/// An operation on two words. An operation on ints reads the low 32 bits of its words. Division and
/// remainder throw if the divisor is zero.
#[derive(Clone, Copy, Debug)]
pub enum WordOperation {
    IntAdd,
    IntSubtract,
    IntMultiply,
    IntDivide,
    IntRemainder,
    LongAdd,
    LongSubtract,
    LongMultiply,
    LongDivide,
    LongRemainder,
    /// The low 32 bits of the first word, as an int.
    LongToInt,
    /// 1 if the words are equal, and 0 otherwise.
    Equal,
    /// 1 if the first word is less than the second, and 0 otherwise.
    Less,
}
