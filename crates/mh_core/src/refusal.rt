//! Reasons to refuse events.

ghost use Rattle.std.specs.Prelude.{◌≡◌};
ghost use Rattle.mh_core.specs.Refusals.{refusal_number};

use crate::caller::CalleeFault;
use mh_cert::CheckFault;
use std::error::Error;
use std::fmt;

/// The reason why an event was refused. A refused event changes nothing.
#[derive(Clone, Copy, Debug, PartialEq, Eq)]
pub enum Refusal {
    /// Out of memory: an allocation or a reference count was refused. It is reported only if no
    /// test fails, or if a plan that is offered for a snapshot could not be tested.
    NoMemory,
    /// The limit of accepted events, of snapshots or of published plans is reached.
    HistoryFull,
    /// A site does not exist; it may be one that a tree invokes.
    NoSite,
    /// A point does not exist.
    NoPoint,
    /// The arguments do not fit the site's type, or a tree is of another type, or invokes a site
    /// with a type other than that site's.
    WrongType,
    /// There is no such snapshot.
    NoSnapshot,
    /// There is no such plan.
    NoPlan,
    /// The plan does not match its problem; the checker reports this fault.
    PlanRefused(CheckFault),
    /// The plan is not the newest; the newest has this number.
    OldPlan(usize),
    /// Some total would exceed its limit.
    TotalTooLarge,
    /// The worker holds as many hits of the link as its limit allows.
    LedgerFull,
    /// The sum of the gains of the links would exceed 2^62.
    GainTooLarge,
    /// The worker does not exist.
    NoWorker,
    /// The tree invokes a site whose level is not below that of the site to be given the tree.
    WrongLevel,
}

impl Refusal {
    /// Returns the refusal's number, 1 to 14.
    pub fn number(self) -> u8
        ensures value { result ≡ refusal_number self }
    {
        match self {
            Refusal::NoMemory => 1,
            Refusal::HistoryFull => 2,
            Refusal::NoSite => 3,
            Refusal::NoPoint => 4,
            Refusal::WrongType => 5,
            Refusal::NoSnapshot => 6,
            Refusal::NoPlan => 7,
            Refusal::PlanRefused(_) => 8,
            Refusal::OldPlan(_) => 9,
            Refusal::TotalTooLarge => 10,
            Refusal::LedgerFull => 11,
            Refusal::GainTooLarge => 12,
            Refusal::NoWorker => 13,
            Refusal::WrongLevel => 14,
        }
    }
}

impl fmt::Display for Refusal {
    ghost use Rattle.mh_core.specs.Refusals.{refusal_text};
    ghost use Rattle.std.specs.Prelude.{Some};

    ghost output = { λ refusal. Some (refusal_text refusal) };

    fn fmt<W: fmt::Write>(&self, f: &mut fmt::Formatter<W>) -> fmt::Result {
        match self {
            Refusal::NoMemory => write!(f, "1 NoMemory"),
            Refusal::HistoryFull => write!(f, "2 HistoryFull"),
            Refusal::NoSite => write!(f, "3 NoSite"),
            Refusal::NoPoint => write!(f, "4 NoPoint"),
            Refusal::WrongType => write!(f, "5 WrongType"),
            Refusal::NoSnapshot => write!(f, "6 NoSnapshot"),
            Refusal::NoPlan => write!(f, "7 NoPlan"),
            Refusal::PlanRefused(fault) => write!(f, "8 PlanRefused {}", fault.number()),
            Refusal::OldPlan(newest) => write!(f, "9 OldPlan {newest}"),
            Refusal::TotalTooLarge => write!(f, "10 TotalTooLarge"),
            Refusal::LedgerFull => write!(f, "11 LedgerFull"),
            Refusal::GainTooLarge => write!(f, "12 GainTooLarge"),
            Refusal::NoWorker => write!(f, "13 NoWorker"),
            Refusal::WrongLevel => write!(f, "14 WrongLevel"),
        }
    }
}

impl Error for Refusal {}

impl From<CalleeFault> for Refusal {
    ghost use Rattle.std.specs.Prelude.{◌≡◌};
    ghost use Rattle.mh_core.specs.Callers.{refusal_of_callee};

    ghost from_gives = { λ cause e. e ≡ refusal_of_callee cause };

    fn from(cause: CalleeFault) -> Refusal {
        match cause {
            CalleeFault::NoSite => Refusal::NoSite,
            CalleeFault::WrongType => Refusal::WrongType,
        }
    }
}
