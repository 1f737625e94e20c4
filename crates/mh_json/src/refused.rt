//! Refused events of a script.
use mh_core::Refusal;

/// An event of a run that was refused.
#[derive(Clone, Copy, Debug, PartialEq, Eq)]
pub struct RefusedEvent {
    /// The event's number, from 1.
    pub event: u64,
    /// The reason for which it was refused.
    pub refusal: Refusal,
}
