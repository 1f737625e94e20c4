//! Words known at lowering: a slot or a constant.

use crate::slot::Slot;

/// A slot, or a constant.
#[derive(Clone, Copy, Debug)]
pub(crate) enum Input {
    /// The word in a slot.
    Read(Slot),
    /// A constant.
    Constant(i64),
}
