//! Exit statuses.
ghost use Rattle.std.specs.Prelude.{◌≡◌};
ghost use Rattle.mh_command.specs.Statuses.{status_told, status_found};

use mh_json::{InputFault, TextFault};
use mh_text::Verdict;

/// The exit status of success, and of help and the version.
pub const DONE: u8 = 0;

/// The exit status if the input is refused, or its plan.
pub const REFUSED: u8 = 1;

/// The exit status of a wrong command line.
pub const COMMAND_LINE: u8 = 2;

/// The exit status if a read, a write or a flush failed.
pub const IO_FAILED: u8 = 3;

/// The exit status if memory ran out outside an event, or readers of a published world did.
pub const NO_MEMORY: u8 = 4;

/// Returns the exit status of a fault.
pub(crate) fn status_of_fault(kind: TextFault) -> u8
    ensures value { result ≡ status_told kind }
{
    match kind {
        TextFault::Input(InputFault::NoMemory) | TextFault::NoReader => NO_MEMORY,
        TextFault::ReadFailed | TextFault::WriteFailed => IO_FAILED,
        TextFault::Input(_) => REFUSED,
    }
}

/// Returns the exit status of a verdict on a plan.
pub(crate) fn status_of_verdict(verdict: Verdict) -> u8
    ensures value { result ≡ status_found verdict }
{
    match verdict {
        Verdict::Accepted => DONE,
        Verdict::Refused(_) => REFUSED,
    }
}
