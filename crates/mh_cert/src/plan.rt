//! Plans.

use mh_base::{Listing, Numbers};
use mh_network::carried;
use std::fmt;

/// A choice of links, with the certificate that it is best. Links and points are given by number.
#[derive(Debug, Drop)]
pub struct Plan {
    /// The chosen links, ascending.
    pub links: Listing<u32>,
    /// The points that they need, ascending.
    pub points: Listing<u32>,
    /// The worth of the links: their gains less the costs of the points and their charges.
    pub value: i64,
    /// A flow: rows of a link, a point that it needs, and a positive amount, ascending by link and
    /// then point. The amounts of a link are at most its gain, those of a point at most its cost.
    pub flow: Listing<(u32, u32, u64)>,
    /// The amounts that links pay of their charges: rows of a link and a positive amount, at most
    /// its charge, ascending by link. They count towards the amounts of the link.
    pub charges: Listing<(u32, u64)>,
}

/// Writes links and points by number, the value, and the sum of the amounts of the flow and the
/// charges, as `links 0,1 points 0,1,2 value 1 flow 15`. An empty list is `-`.
impl fmt::Display for Plan {
    ghost use Rattle.std.specs.Prelude.{Some};
    ghost use Rattle.mh_cert.specs.Display.{plan_text};

    ghost output = { λ plan. Some (plan_text plan) };

    fn fmt<W: fmt::Write>(&self, f: &mut fmt::Formatter<W>) -> fmt::Result {
        let links = Numbers {
            numbers: self.links.as_slice(),
        };
        let points = Numbers {
            numbers: self.points.as_slice(),
        };
        let flow = carried(self.flow.as_slice(), self.charges.as_slice());
        write!(
            f,
            "links {links} points {points} value {} flow {flow}",
            self.value
        )
    }
}
