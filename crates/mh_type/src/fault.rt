//! Faults of making values, texts and types.

ghost use Rattle.std.specs.Prelude.{◌≡◌};
ghost use Rattle.mh_type.specs.Faults.{fault_number};

use thiserror::Error;

/// The reason why a value, a text or a type was not made.
#[derive(Clone, Copy, Debug, PartialEq, Eq, Error)]
pub enum TypeFault {
    /// An allocation was refused, or the reference count of a text.
    #[error("1 NoMemory")]
    NoMemory,
    /// A type would have more than 16 parameters.
    #[error("2 TooManyParameters")]
    TooManyParameters,
    /// A text is too long, has a byte that is not printable, or does not denote a type.
    #[error("3 BadText")]
    BadText,
}

impl TypeFault {
    /// Returns the fault's number, 1 to 3.
    pub fn number(self) -> u8
        ensures value { result ≡ fault_number self }
    {
        match self {
            TypeFault::NoMemory => 1,
            TypeFault::TooManyParameters => 2,
            TypeFault::BadText => 3,
        }
    }
}
