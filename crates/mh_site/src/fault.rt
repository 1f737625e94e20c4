//! Faults of definitions.

ghost use Rattle.std.specs.Prelude.{◌≡◌};
ghost use Rattle.mh_site.specs.Definitions.{fault_number};

use mh_base::NoMemory;
use thiserror::Error;

/// The reason why points and sites do not make a definition. Tests 2 and 3 come first, then the
/// points in order, then the sites in order. Within a point or a site, the tests run in the order
/// of their numbers, each over the whole of it, and the first that fails is reported. `NoMemory`
/// comes last.
#[derive(Clone, Copy, Debug, PartialEq, Eq, Error)]
pub enum DefinitionFault {
    /// An allocation was refused.
    #[error("1 NoMemory")]
    NoMemory,
    /// There are more points than the version allows: 1,024, or 4,096 in version 2.
    #[error("2 TooManyPoints")]
    TooManyPoints,
    /// There are more sites than the version allows: 1,024, or 4,096 in version 2.
    #[error("3 TooManySites")]
    TooManySites,
    /// A site has more than 4 links.
    #[error("4 TooManyLinks")]
    TooManyLinks,
    /// A link has more than 8 needs.
    #[error("5 TooManyNeeds")]
    TooManyNeeds,
    /// A name is empty, is longer than 64 bytes, does not begin with a letter or `_`, or has a byte
    /// other than letters, digits, `_`, `.` and `-`.
    #[error("6 BadName")]
    BadName,
    /// A point has the name of an earlier point, or a site that of an earlier site.
    #[error("7 NameTwice")]
    NameTwice,
    /// A cost exceeds 2^40.
    #[error("8 CostTooLarge")]
    CostTooLarge,
    /// A weight exceeds 2^20.
    #[error("9 WeightTooLarge")]
    WeightTooLarge,
    /// The key position is not that of a parameter, even if the site has no links; or the site has
    /// links but no key position.
    #[error("10 BadKeyPlace")]
    BadKeyPlace,
    /// A key is not of the kind of the parameter at the key position.
    #[error("11 KeyMismatch")]
    KeyMismatch,
    /// Two keys of a site are equal.
    #[error("12 KeyTwice")]
    KeyTwice,
    /// A need, or a point that the target names, does not exist.
    #[error("13 NoPoint")]
    NoPoint,
    /// A link lists a need twice.
    #[error("14 NeedTwice")]
    NeedTwice,
    /// The target is not of its site's type.
    #[error("15 TypeMismatch")]
    TypeMismatch,
    /// A level exceeds 3.
    #[error("16 BadLevel")]
    BadLevel,
    /// The target invokes a site that does not exist.
    #[error("17 NoSite")]
    NoSite,
    /// An invocation in the target does not have the type of the site that it invokes.
    #[error("18 InvokeMismatch")]
    InvokeMismatch,
    /// The target invokes a site whose level is not lower than that of its own site.
    #[error("19 WrongLevel")]
    WrongLevel,
    /// A charge exceeds 2^40.
    #[error("20 ChargeTooLarge")]
    ChargeTooLarge,
}

impl From<NoMemory> for DefinitionFault {
    ghost use Rattle.mh_site.specs.declared.fault.DefinitionFault.{DefinitionFault};

    ghost from_gives = { λ _ fault. fault ≡ DefinitionFault.NoMemory };

    fn from(_refused: NoMemory) -> DefinitionFault {
        DefinitionFault::NoMemory
    }
}

impl DefinitionFault {
    /// Returns the fault's number, 1 to 20.
    pub fn number(self) -> u8
        ensures value { result ≡ fault_number self }
    {
        match self {
            DefinitionFault::NoMemory => 1,
            DefinitionFault::TooManyPoints => 2,
            DefinitionFault::TooManySites => 3,
            DefinitionFault::TooManyLinks => 4,
            DefinitionFault::TooManyNeeds => 5,
            DefinitionFault::BadName => 6,
            DefinitionFault::NameTwice => 7,
            DefinitionFault::CostTooLarge => 8,
            DefinitionFault::WeightTooLarge => 9,
            DefinitionFault::BadKeyPlace => 10,
            DefinitionFault::KeyMismatch => 11,
            DefinitionFault::KeyTwice => 12,
            DefinitionFault::NoPoint => 13,
            DefinitionFault::NeedTwice => 14,
            DefinitionFault::TypeMismatch => 15,
            DefinitionFault::BadLevel => 16,
            DefinitionFault::NoSite => 17,
            DefinitionFault::InvokeMismatch => 18,
            DefinitionFault::WrongLevel => 19,
            DefinitionFault::ChargeTooLarge => 20,
        }
    }
}
