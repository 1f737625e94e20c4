//! Faults of constructors.

ghost use Rattle.std.specs.Prelude.{◌≡◌};
ghost use Rattle.mh_tree.specs.Faults.{fault_number};

use mh_base::NoMemory;
use thiserror::Error;

/// The reason why a handle was not made. The tests of a constructor run in the order 2, 4, 5, 6, 3,
/// 7, 8, 9, each over the whole call, and the first that fails is reported. `NoMemory` comes last.
#[derive(Clone, Copy, Debug, PartialEq, Eq, Error)]
pub enum TreeFault {
    /// An allocation was refused, or the reference count of a text or a tree.
    #[error("1 NoMemory")]
    NoMemory,
    /// The positions from the given one on are not all positions of the target's parameters.
    #[error("2 BadPosition")]
    BadPosition,
    /// The kinds of the parts do not agree.
    #[error("3 TypeMismatch")]
    TypeMismatch,
    /// A filter does not have exactly one parameter.
    #[error("4 NotUnary")]
    NotUnary,
    /// A test does not return boolean.
    #[error("5 NotBoolean")]
    NotBoolean,
    /// A reordering names a parameter that does not exist, or does not have exactly one entry for
    /// each parameter of the target.
    #[error("6 BadReorder")]
    BadReorder,
    /// The type would have more than 16 parameters.
    #[error("7 TooManyParameters")]
    TooManyParameters,
    /// The tree would be deeper than 96.
    #[error("8 TooDeep")]
    TooDeep,
    /// The tree would have more than 262,144 nodes.
    #[error("9 TooLarge")]
    TooLarge,
}

impl From<NoMemory> for TreeFault {
    ghost use Rattle.mh_tree.specs.declared.fault.TreeFault.{TreeFault};

    ghost from_gives = { λ _ fault. fault ≡ TreeFault.NoMemory };

    fn from(_refused: NoMemory) -> TreeFault {
        TreeFault::NoMemory
    }
}

impl TreeFault {
    /// Returns the fault's number, 1 to 9.
    pub fn number(self) -> u8
        ensures value { result ≡ fault_number self }
    {
        match self {
            TreeFault::NoMemory => 1,
            TreeFault::BadPosition => 2,
            TreeFault::TypeMismatch => 3,
            TreeFault::NotUnary => 4,
            TreeFault::NotBoolean => 5,
            TreeFault::BadReorder => 6,
            TreeFault::TooManyParameters => 7,
            TreeFault::TooDeep => 8,
            TreeFault::TooLarge => 9,
        }
    }
}
