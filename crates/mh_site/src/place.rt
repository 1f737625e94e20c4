//! Places of faults of definitions.

ghost use Rattle.std.specs.Prelude.{◌≡◌, MatchResult, true, false};
ghost use Rattle.std.specs.Option.{is_none, unwrap_or};
ghost use Rattle.mh_site.specs.Places.{misfit, at_point as told_of_point, at_site as told_of_site, at_link as told_of_link};

use crate::fault::DefinitionFault;
use mh_base::{NoMemory, demand};

/// The part of points and sites that has a fault.
#[derive(Clone, Copy, Debug, PartialEq, Eq)]
pub enum DefinitionPlace {
    /// All of it.
    Whole,
    /// The points.
    Points,
    /// The sites.
    Sites,
    /// A part of the point with this number.
    Point {
        point: usize,
        part: PointPart,
    },
    /// A part of the site with this number.
    Site {
        site: usize,
        part: SitePart,
    },
    /// A part of a link, by the numbers of its site and of the link at the site.
    Link {
        site: usize,
        link: usize,
        part: LinkPart,
    },
}

/// A part of a point.
#[derive(Clone, Copy, Debug, PartialEq, Eq)]
pub enum PointPart {
    /// The whole point, compared with those before it.
    Whole,
    /// The name.
    Name,
    /// The cost.
    Cost,
}

/// A part of a site.
#[derive(Clone, Copy, Debug, PartialEq, Eq)]
pub enum SitePart {
    /// The whole site, also if its key position is missing.
    Whole,
    /// The name.
    Name,
    /// The level.
    Level,
    /// The key position.
    Key,
    /// The target.
    Target,
    /// The links.
    Links,
}

/// A part of a link.
#[derive(Clone, Copy, Debug, PartialEq, Eq)]
pub enum LinkPart {
    /// The whole link, compared with those before it at its site.
    Whole,
    /// The key.
    When,
    /// The weight.
    Weight,
    /// The charge.
    Charge,
    /// The needs.
    Needs,
}

/// The reason why points and sites do not make a definition, and the place of the fault.
#[derive(Clone, Copy, Debug, PartialEq, Eq)]
pub struct DefinitionMisfit {
    /// The first test that fails.
    pub fault: DefinitionFault,
    /// The part that has the fault. If a test is of all links of a site, it is the first link that
    /// fails it.
    pub place: DefinitionPlace,
}

impl From<NoMemory> for DefinitionMisfit {
    ghost use Rattle.std.specs.Prelude.{◌≡◌};
    ghost use Rattle.mh_site.specs.Places.{out_of_memory};

    ghost from_gives = { λ _ misfit. misfit ≡ out_of_memory };

    fn from(_refused: NoMemory) -> DefinitionMisfit {
        DefinitionMisfit {
            fault: DefinitionFault::NoMemory,
            place: DefinitionPlace::Whole,
        }
    }
}

// Tests a condition, and reports this fault and place if it does not hold.
pub(crate) fn demand_at(
    passes: bool,
    fault: DefinitionFault,
    place: DefinitionPlace,
) -> Result<(), DefinitionMisfit>
    ensures value { MatchResult result (λ _. passes ≡ true)
        (λ m. (passes ≡ false) × (m ≡ misfit fault place)) }
{
    demand(passes, DefinitionMisfit { fault, place })
}

// Tests a condition on a point.
pub(crate) fn demand_of_point(
    passes: bool,
    fault: DefinitionFault,
    point: usize,
    part: PointPart,
) -> Result<(), DefinitionMisfit>
    ensures value { MatchResult result (λ _. passes ≡ true)
        (λ m. (passes ≡ false) × (m ≡ told_of_point point part fault)) }
{
    demand_at(passes, fault, DefinitionPlace::Point { point, part })
}

// Tests a condition on a site.
pub(crate) fn demand_of_site(
    passes: bool,
    fault: DefinitionFault,
    site: usize,
    part: SitePart,
) -> Result<(), DefinitionMisfit>
    ensures value { MatchResult result (λ _. passes ≡ true)
        (λ m. (passes ≡ false) × (m ≡ told_of_site site part fault)) }
{
    demand_at(passes, fault, DefinitionPlace::Site { site, part })
}

// Tests a condition on the links of a site, given the first link that fails it, if any.
pub(crate) fn demand_of_links(
    failing: Option<usize>,
    fault: DefinitionFault,
    site: usize,
    part: LinkPart,
) -> Result<(), DefinitionMisfit>
    ensures value { MatchResult result (λ _. is_none failing ≡ true)
        (λ m. (is_none failing ≡ false)
        × (m ≡ told_of_link site part fault (unwrap_or failing 0))) }
{
    match failing {
        None => Ok(()),
        Some(link) => Err(DefinitionMisfit {
            fault,
            place: DefinitionPlace::Link { site, link, part },
        }),
    }
}
