//! Reasons not to lower prepared code.

use mh_base::NoMemory;

/// The reason why prepared code was not lowered.
#[derive(Clone, Copy, Debug)]
pub(crate) enum Stop {
    /// An allocation failed.
    NoMemory,
    /// The code has a part that code over words does not have, or is too large.
    Unfit,
}

impl From<NoMemory> for Stop {
    fn from(_error: NoMemory) -> Stop {
        Stop::NoMemory
    }
}
