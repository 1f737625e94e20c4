//! Faults of a sweep.

ghost use Rattle.std.specs.Prelude.{◌≡◌};

use mh_network::NoMemory;
use thiserror::Error;

/// Why a problem cannot be swept.
#[derive(Clone, Copy, Debug, PartialEq, Eq, Error)]
pub enum SweepFault {
    /// An allocation was refused.
    #[error("out of memory")]
    NoMemory,
    /// A thousand times the gains exceed 2^62.
    #[error("a thousand times the gains exceed 2^62")]
    GainsTooLarge,
}

impl From<NoMemory> for SweepFault {
    ghost use Rattle.mh_sweep.specs.declared.fault.SweepFault.{SweepFault};

    ghost from_gives = { λ _ fault. fault ≡ SweepFault.NoMemory };

    fn from(_: NoMemory) -> SweepFault {
        SweepFault::NoMemory
    }
}
