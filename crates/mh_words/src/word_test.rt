//! Tests of words.

use crate::slot::Slot;

/// A test that compares a word of the frame.
#[derive(Clone, Copy, Debug)]
pub enum WordTest {
    /// A slot's word is not 0.
    True(Slot),
    /// Two slots have the same word.
    Equal(Slot, Slot),
    /// A slot has this word.
    Is(Slot, i64),
    /// The first slot's word is less than the second's.
    Less(Slot, Slot),
    /// A slot's word is less than this one.
    Below(Slot, i64),
    /// A slot's word is greater than this one.
    Above(Slot, i64),
}
