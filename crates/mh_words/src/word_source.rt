//! The origin of a word.

use crate::operation::WordOperation;
use crate::slot::Slot;

/// A word, or an operation on words of the frame and constants.
#[derive(Clone, Copy, Debug)]
pub enum WordSource {
    /// A constant.
    Constant(i64),
    /// The word in a slot.
    Copy(Slot),
    /// An operation on two slots.
    Apply {
        operation: WordOperation,
        first: Slot,
        second: Slot,
    },
    /// An operation with a constant on the right.
    ApplyRight {
        operation: WordOperation,
        first: Slot,
        second: i64,
    },
    /// An operation with a constant on the left.
    ApplyLeft {
        operation: WordOperation,
        first: i64,
        second: Slot,
    },
}
