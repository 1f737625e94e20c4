//! Why an input could not be read, or output not be written.
ghost use Rattle.std.specs.Prelude.{◌≡◌};
ghost use Rattle.mh_json.specs.declared.fault.TextFault.TheVariants as text;
ghost use Rattle.mh_json.specs.Faults.{is_nowhere};
ghost use Rattle.mh_json.specs.Gives.{of_tree, of_type, of_definition, of_problem, no_memory};

use mh_core::NoMemory;
use mh_network::ProblemFault;
use mh_site::DefinitionFault;
use mh_tree::TreeFault;
use mh_type::TypeFault;
use std::alloc::{AllocError, AllocFailed};
use std::error::Error;
use std::fmt;

/// A fault of an input, or lack of memory.
#[derive(Clone, Copy, Debug, PartialEq, Eq)]
pub enum InputFault {
    /// Memory ran out.
    NoMemory,
    /// The input has more than 1,048,576 bytes.
    TooLong,
    /// The input is not JSON.
    NotJson,
    /// A part is missing, has another form or another length, or is out of range.
    BadShape,
    /// A value is not an int, a long, a boolean or a text.
    BadValue,
    /// A tree refers to a shared tree that is not declared earlier.
    UnknownShared,
    /// A constructor of trees failed.
    Tree(TreeFault),
    /// The definition is not lawful.
    Definition(DefinitionFault),
    /// The links and costs do not make a problem.
    Problem(ProblemFault),
    /// A text is not a method type.
    BadType(TypeFault),
    /// A tree invokes a site that is not declared earlier.
    UnknownSite,
    /// A link of a profile needs a point that no earlier line declares.
    UnknownPoint,
    /// A point of a profile has the name of an earlier point.
    PointTwice,
    /// A link of a profile names a need twice.
    NeedTwice,
}

impl fmt::Display for InputFault {
    ghost use Rattle.mh_json.specs.Faults.{input_text};
    ghost use Rattle.std.specs.Prelude.{Some};

    ghost output = { λ kind. Some (input_text kind) };

    fn fmt<W: fmt::Write>(&self, f: &mut fmt::Formatter<W>) -> fmt::Result {
        match self {
            InputFault::NoMemory => write!(f, "1 NoMemory"),
            InputFault::TooLong => write!(f, "2 TooLong"),
            InputFault::NotJson => write!(f, "3 NotJson"),
            InputFault::BadShape => write!(f, "4 BadShape"),
            InputFault::BadValue => write!(f, "5 BadValue"),
            InputFault::UnknownShared => write!(f, "6 UnknownShared"),
            InputFault::Tree(cause) => write!(f, "7 Tree {}", cause.number()),
            InputFault::Definition(cause) => write!(f, "8 Definition {}", cause.number()),
            InputFault::Problem(cause) => write!(f, "9 Problem {}", cause.number()),
            InputFault::BadType(cause) => write!(f, "12 BadType {}", cause.number()),
            InputFault::UnknownSite => write!(f, "13 UnknownSite"),
            InputFault::UnknownPoint => write!(f, "14 UnknownPoint"),
            InputFault::PointTwice => write!(f, "15 PointTwice"),
            InputFault::NeedTwice => write!(f, "16 NeedTwice"),
        }
    }
}

impl Error for InputFault {}

impl From<AllocError> for InputFault {
    ghost use Rattle.std.specs.Prelude.{◌≡◌};
    ghost use Rattle.mh_json.specs.declared.fault.InputFault.TheVariants.{NoMemory};

    ghost from_gives = { λ _ e. e ≡ NoMemory };

    fn from(_e: AllocError) -> InputFault {
        InputFault::NoMemory
    }
}

impl<T: Drop> From<AllocFailed<T>> for InputFault {
    ghost use Rattle.std.specs.Prelude.{◌≡◌};
    ghost use Rattle.mh_json.specs.declared.fault.InputFault.TheVariants.{NoMemory};

    ghost from_gives = { λ _ e. e ≡ NoMemory };

    fn from(_e: AllocFailed<T>) -> InputFault {
        InputFault::NoMemory
    }
}

impl From<NoMemory> for InputFault {
    ghost use Rattle.std.specs.Prelude.{◌≡◌};
    ghost use Rattle.mh_json.specs.declared.fault.InputFault.TheVariants.{NoMemory};

    ghost from_gives = { λ _ e. e ≡ NoMemory };

    fn from(_e: NoMemory) -> InputFault {
        InputFault::NoMemory
    }
}

impl From<TreeFault> for InputFault {
    ghost from_gives = { λ cause e. e ≡ of_tree cause };

    fn from(cause: TreeFault) -> InputFault {
        match cause {
            TreeFault::NoMemory => InputFault::NoMemory,
            _ => InputFault::Tree(cause),
        }
    }
}

impl From<DefinitionFault> for InputFault {
    ghost from_gives = { λ cause e. e ≡ of_definition cause };

    fn from(cause: DefinitionFault) -> InputFault {
        match cause {
            DefinitionFault::NoMemory => InputFault::NoMemory,
            _ => InputFault::Definition(cause),
        }
    }
}

impl From<ProblemFault> for InputFault {
    ghost from_gives = { λ cause e. e ≡ of_problem cause };

    fn from(cause: ProblemFault) -> InputFault {
        match cause {
            ProblemFault::NoMemory => InputFault::NoMemory,
            _ => InputFault::Problem(cause),
        }
    }
}

impl From<TypeFault> for InputFault {
    ghost from_gives = { λ cause e. e ≡ of_type cause };

    fn from(cause: TypeFault) -> InputFault {
        match cause {
            TypeFault::NoMemory => InputFault::NoMemory,
            _ => InputFault::BadType(cause),
        }
    }
}

/// Why a run ended early: a fault of the input, memory that ran out, or a fault of a stream.
#[derive(Clone, Copy, Debug, PartialEq, Eq)]
pub enum TextFault {
    /// The input has a fault, or memory ran out.
    Input(InputFault),
    /// A read failed.
    ReadFailed,
    /// A write or a flush failed, or a write accepted no byte.
    WriteFailed,
    /// No more readers of a published world can be made. This is not a fault of an input, and has
    /// no number.
    NoReader,
}

impl TextFault {
    /// Returns whether the fault is not of an event or a part of an input.
    fn is_nowhere(self) -> bool
        ensures value { result ≡ is_nowhere self }
    {
        matches!(self, TextFault::NoReader)
    }
}

impl fmt::Display for TextFault {
    ghost use Rattle.mh_json.specs.Faults.{kind_text};
    ghost use Rattle.std.specs.Prelude.{Some};

    ghost output = { λ kind. Some (kind_text kind) };

    fn fmt<W: fmt::Write>(&self, f: &mut fmt::Formatter<W>) -> fmt::Result {
        match self {
            TextFault::Input(cause) => write!(f, "{cause}"),
            TextFault::ReadFailed => write!(f, "10 ReadFailed"),
            TextFault::WriteFailed => write!(f, "11 WriteFailed"),
            TextFault::NoReader => write!(f, "NoReader"),
        }
    }
}

impl Error for TextFault {}

impl From<InputFault> for TextFault {
    ghost from_gives = { λ cause e. e ≡ text.Input cause };

    fn from(cause: InputFault) -> TextFault {
        TextFault::Input(cause)
    }
}

impl From<AllocError> for TextFault {
    ghost from_gives = { λ _ e. e ≡ no_memory };

    fn from(_e: AllocError) -> TextFault {
        TextFault::Input(InputFault::NoMemory)
    }
}

/// A fault, with the number of its event or, in a profile, of its line, counted from 1; 0 outside
/// of these.
#[derive(Clone, Copy, Debug, PartialEq, Eq)]
pub struct Fault {
    pub kind: TextFault,
    pub at: u64,
}

impl fmt::Display for Fault {
    ghost use Rattle.mh_json.specs.Faults.{fault_text};
    ghost use Rattle.std.specs.Prelude.{Some};

    ghost output = { λ fault. Some (fault_text fault) };

    fn fmt<W: fmt::Write>(&self, f: &mut fmt::Formatter<W>) -> fmt::Result {
        if self.kind.is_nowhere() {
            write!(f, "fault {}", self.kind)
        } else {
            write!(f, "fault {} at {}", self.kind, self.at)
        }
    }
}

impl Error for Fault {}

impl From<TextFault> for Fault {
    ghost from_gives = { λ kind e. e ≡ record { kind = kind; at = 0 } };

    fn from(kind: TextFault) -> Fault {
        Fault { kind, at: 0 }
    }
}

impl From<InputFault> for Fault {
    ghost from_gives = { λ cause e. e ≡ record { kind = text.Input cause; at = 0 } };

    fn from(cause: InputFault) -> Fault {
        Fault {
            kind: TextFault::from(cause),
            at: 0,
        }
    }
}

impl From<AllocError> for Fault {
    ghost from_gives = { λ _ e. e ≡ record { kind = no_memory; at = 0 } };

    fn from(_e: AllocError) -> Fault {
        Fault {
            kind: TextFault::Input(InputFault::NoMemory),
            at: 0,
        }
    }
}

impl From<NoMemory> for Fault {
    ghost from_gives = { λ _ e. e ≡ record { kind = no_memory; at = 0 } };

    fn from(_e: NoMemory) -> Fault {
        Fault {
            kind: TextFault::Input(InputFault::NoMemory),
            at: 0,
        }
    }
}
