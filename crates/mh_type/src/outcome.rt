//! Outcomes of a call.

use crate::value::Value;

/// An exception that a call throws, modelled on the exceptions of Java SE 17.
#[derive(Clone, Copy, Debug, PartialEq, Eq)]
pub enum Throw {
    /// An integer was divided by zero (JLS SE 17, 15.17.2).
    ArithmeticException,
    /// A joined text would be longer than 65,536 bytes.
    TextTooLong,
}

/// The outcome of a call: a value or a throw.
#[derive(Debug, PartialEq, Eq, Drop)]
pub enum Outcome {
    Value(Value),
    Thrown(Throw),
}
