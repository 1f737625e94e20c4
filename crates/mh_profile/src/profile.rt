//! The contents of the lines of a profile.
ghost use Rattle.std.specs.Prelude.{◌≡◌};
ghost use Rattle.mh_json.specs.Gives.{Gives};
ghost use Rattle.mh_profile.specs.Profiles.{nothing, with_link, with_point};

use crate::names::{LinkNames, PointNames};
use mh_json::{InputFault, Misread};
use mh_network::{GREATEST_COUNT, LinkRow, Listing, ProblemFault};
use std::alloc::Global;

/// The points and the links of the lines read so far, each by number in the order of the lines.
#[derive(Drop)]
pub struct Profile {
    /// The names of the points.
    pub points: PointNames,
    /// The cost of each point.
    pub costs: Listing<u64>,
    /// The names of the links.
    pub names: LinkNames,
    /// The links, with the numbers of the points that they need.
    pub links: Listing<LinkRow>,
    /// The number of the last line that is a point or a link, from 1; 0 if there is none.
    pub last: u64,
}

impl Profile {
    /// Returns a profile without points and links.
    pub fn new(alloc: Global) -> Profile
        ensures value { result ≡ nothing }
    {
        Profile {
            points: PointNames::new(alloc),
            costs: Listing::from_vec(Vec::new(alloc)),
            names: LinkNames::new(alloc),
            links: Listing::from_vec(Vec::new(alloc)),
            last: 0,
        }
    }

    /// Adds the point of line `line`.
    pub(crate) fn with_point(self, line: u64, name: &str, cost: u64) -> Result<Profile, Misread>
        ensures value { Gives (λ x. x) result (with_point line self name.now cost) }
    {
        let mut profile = self;
        if profile.points.contains(name) {
            return Err(Misread::of(InputFault::PointTwice));
        }
        if profile.points.len() >= GREATEST_COUNT {
            return Err(Misread::from(ProblemFault::TooManyPoints));
        }
        profile.points.push(name)?;
        profile.costs.push(cost)?;
        profile.last = line;
        Ok(profile)
    }

    /// Adds the link of line `line`.
    pub(crate) fn with_link(self, line: u64, name: &str, link: LinkRow) -> Result<Profile, Misread>
        ensures value { Gives (λ x. x) result (with_link line self name.now link) }
    {
        let mut profile = self;
        if profile.links.len() >= GREATEST_COUNT {
            return Err(Misread::from(ProblemFault::TooManyLinks));
        }
        profile.names.push(name)?;
        profile.links.push(link)?;
        profile.last = line;
        Ok(profile)
    }
}
