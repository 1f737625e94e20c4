//! Reasons to refuse a settlement.

ghost use Rattle.std.specs.Prelude.{◌≡◌};
ghost use Rattle.mh_live.specs.Faults.{settle_fault_number};

use thiserror::Error;

/// The reason why running threads were not settled.
#[derive(Clone, Copy, Debug, PartialEq, Eq, Error)]
pub enum SettleFault {
    /// An allocation was refused.
    #[error("1 NoMemory")]
    NoMemory,
    /// The pass of a worker is missing, is there twice, or has a ledger that the totals do not
    /// hold.
    #[error("2 MissingPass")]
    MissingPass,
}

impl SettleFault {
    /// Returns the fault's number.
    pub fn number(self) -> u8
        ensures value { result ≡ settle_fault_number self }
    {
        match self {
            SettleFault::NoMemory => 1,
            SettleFault::MissingPass => 2,
        }
    }
}
