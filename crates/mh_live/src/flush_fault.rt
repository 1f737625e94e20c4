//! Reasons to refuse flushes.

ghost use Rattle.std.specs.Prelude.{◌≡◌};
ghost use Rattle.mh_live.specs.Faults.{flush_fault_number};

use mh_core::Refusal;
use thiserror::Error;

/// The reason why the hits of a pass were not flushed. Nothing changed.
#[derive(Clone, Copy, Debug, PartialEq, Eq, Error)]
pub enum FlushFault {
    /// The totals do not hold the ledger. This is tested first.
    #[error("16 NotHeld")]
    NotHeld,
    /// The book refused the flush.
    #[error("{0}")]
    Refused(Refusal),
}

impl FlushFault {
    /// Returns the fault's number: 16, or that of the refusal.
    pub fn number(self) -> u8
        ensures value { result ≡ flush_fault_number self }
    {
        match self {
            FlushFault::NotHeld => 16,
            FlushFault::Refused(refusal) => refusal.number(),
        }
    }
}
