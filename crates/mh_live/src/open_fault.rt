//! Reasons for which an opening fails.

ghost use Rattle.std.specs.Prelude.{◌≡◌};
ghost use Rattle.mh_live.specs.Faults.{open_fault_number};

use mh_base::NoMemory;
use std::alloc::{AllocError, AllocFailed};
use thiserror::Error;

/// The reason why an office was not opened.
#[derive(Clone, Copy, Debug, PartialEq, Eq, Error)]
pub enum OpenFault {
    /// Out of memory: an allocation or a reference count was refused.
    #[error("1 NoMemory")]
    NoMemory,
    /// No more readers of the published world can be made.
    #[error("2 NoReader")]
    NoReader,
}

impl OpenFault {
    /// Returns the fault's number.
    pub fn number(self) -> u8
        ensures value { result ≡ open_fault_number self }
    {
        match self {
            OpenFault::NoMemory => 1,
            OpenFault::NoReader => 2,
        }
    }
}

impl From<AllocError> for OpenFault {
    ghost use Rattle.std.specs.Prelude.{◌≡◌};
    ghost use Rattle.mh_live.specs.declared.open_fault.OpenFault.{OpenFault};

    ghost from_gives = { λ _ fault. fault ≡ OpenFault.NoMemory };

    fn from(_refused: AllocError) -> OpenFault {
        OpenFault::NoMemory
    }
}

impl<T: Drop> From<AllocFailed<T>> for OpenFault {
    ghost use Rattle.std.specs.Prelude.{◌≡◌};
    ghost use Rattle.mh_live.specs.declared.open_fault.OpenFault.{OpenFault};

    ghost from_gives = { λ _ fault. fault ≡ OpenFault.NoMemory };

    fn from(_refused: AllocFailed<T>) -> OpenFault {
        OpenFault::NoMemory
    }
}

impl From<NoMemory> for OpenFault {
    ghost use Rattle.std.specs.Prelude.{◌≡◌};
    ghost use Rattle.mh_live.specs.declared.open_fault.OpenFault.{OpenFault};

    ghost from_gives = { λ _ fault. fault ≡ OpenFault.NoMemory };

    fn from(_refused: NoMemory) -> OpenFault {
        OpenFault::NoMemory
    }
}
