//! Reasons to refuse calls.

ghost use Rattle.std.specs.Prelude.{◌≡◌};
ghost use Rattle.mh_live.specs.Faults.{call_fault_number};

use mh_core::CalleeFault;
use thiserror::Error;

/// The reason why a call was refused: the first test that failed, in the order of their numbers,
/// but with `NoMemory` last. A refused call counts no hit.
#[derive(Clone, Copy, Debug, PartialEq, Eq, Error)]
pub enum CallFault {
    /// Out of memory: an allocation or a reference count was refused.
    #[error("1 NoMemory")]
    NoMemory,
    /// The site does not exist.
    #[error("3 NoSite")]
    NoSite,
    /// The arguments do not fit the site's type.
    #[error("5 WrongType")]
    WrongType,
    /// The call hits a link of which the pass holds as many unflushed hits as its limit allows.
    #[error("11 LedgerFull")]
    LedgerFull,
    /// The office has ended, or the published world was behind the list that the pass has seen.
    #[error("15 NotEntered")]
    NotEntered,
}

impl CallFault {
    /// Returns the fault's number.
    pub fn number(self) -> u8
        ensures value { result ≡ call_fault_number self }
    {
        match self {
            CallFault::NoMemory => 1,
            CallFault::NoSite => 3,
            CallFault::WrongType => 5,
            CallFault::LedgerFull => 11,
            CallFault::NotEntered => 15,
        }
    }
}

impl From<CalleeFault> for CallFault {
    ghost use Rattle.std.specs.Prelude.{◌≡◌};
    ghost use Rattle.mh_live.specs.Faults.{fault_of_callee};

    ghost from_gives = { λ cause e. e ≡ fault_of_callee cause };

    fn from(cause: CalleeFault) -> CallFault {
        match cause {
            CalleeFault::NoSite => CallFault::NoSite,
            CalleeFault::WrongType => CallFault::WrongType,
        }
    }
}
