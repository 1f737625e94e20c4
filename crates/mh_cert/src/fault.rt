//! Faults of plans.

ghost use Rattle.std.specs.Prelude.{◌≡◌};
ghost use Rattle.mh_cert.specs.Plans.{fault_number};

use std::error::Error;
use std::fmt;

/// The first part of a plan that is wrong. The tests run in the order 1, 2, 3, 4, 5, 6, 10, 7, 8.
#[derive(Clone, Copy, Debug, PartialEq, Eq)]
pub enum CheckFault {
    /// A link is not eligible, or does not exist.
    LinkNotEligible,
    /// The links are not strictly ascending.
    LinksNotAscending,
    /// The points are not the ascending union of the links' needs.
    PointsNotUnion,
    /// A row of the flow has a link or a point that does not exist, a point that its link does not
    /// need, or the amount 0; or the rows are not strictly ascending by link and then point. Or a
    /// row of the charges has a link that does not exist or the amount 0; or these rows are not
    /// strictly ascending.
    BadFlowRow,
    /// The amounts of a link, including that of its charge, exceed its gain.
    GainExceeded,
    /// The amounts of a point exceed its cost.
    CostExceeded,
    /// The value is not the worth of the links.
    ValueWrong,
    /// The value is not the sum of all gains less the sum of the amounts, including those of
    /// charges.
    FlowNotMatching,
    /// Out of memory: an allocation was refused. It may be reported in place of any result other
    /// than `LinkNotEligible` and `LinksNotAscending`.
    NoMemory,
    /// An amount exceeds the charge of its link.
    ChargeExceeded,
}

impl CheckFault {
    /// Returns the fault's number, 1 to 10.
    pub fn number(self) -> u8
        ensures value { result ≡ fault_number self }
    {
        match self {
            CheckFault::LinkNotEligible => 1,
            CheckFault::LinksNotAscending => 2,
            CheckFault::PointsNotUnion => 3,
            CheckFault::BadFlowRow => 4,
            CheckFault::GainExceeded => 5,
            CheckFault::CostExceeded => 6,
            CheckFault::ValueWrong => 7,
            CheckFault::FlowNotMatching => 8,
            CheckFault::NoMemory => 9,
            CheckFault::ChargeExceeded => 10,
        }
    }
}

impl fmt::Display for CheckFault {
    ghost use Rattle.mh_cert.specs.Plans.{check_fault_text};
    ghost use Rattle.std.specs.Prelude.{Some};

    ghost output = { λ fault. Some (check_fault_text fault) };

    fn fmt<W: fmt::Write>(&self, f: &mut fmt::Formatter<W>) -> fmt::Result {
        match self {
            CheckFault::LinkNotEligible => write!(f, "1 LinkNotEligible"),
            CheckFault::LinksNotAscending => write!(f, "2 LinksNotAscending"),
            CheckFault::PointsNotUnion => write!(f, "3 PointsNotUnion"),
            CheckFault::BadFlowRow => write!(f, "4 BadFlowRow"),
            CheckFault::GainExceeded => write!(f, "5 GainExceeded"),
            CheckFault::CostExceeded => write!(f, "6 CostExceeded"),
            CheckFault::ValueWrong => write!(f, "7 ValueWrong"),
            CheckFault::FlowNotMatching => write!(f, "8 FlowNotMatching"),
            CheckFault::NoMemory => write!(f, "9 NoMemory"),
            CheckFault::ChargeExceeded => write!(f, "10 ChargeExceeded"),
        }
    }
}

impl Error for CheckFault {}
