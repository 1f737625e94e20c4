//! Operands of a piece of code.

use mh_type::Value;

/// The origin of a value.
#[derive(Debug, Drop)]
pub enum Operand {
    /// An argument of the call.
    Argument(u32),
    /// A local: a result that the call stores, numbered from 0.
    Local(u32),
    /// A constant.
    Constant(Value),
}
