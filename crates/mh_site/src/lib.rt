//! Definitions, which declare points with their costs and sites with their links, and worlds, which
//! controls change: a world knows which points are valid, and the trees of each site.
//!
//! ```
//! let site = Site { name, method_type, level: 0, key: Some(0), target, links };
//! let sites = Listing::from_vec(vec![in alloc; site]?);
//! let definition = Definition::new(alloc, Version::Two, points, sites)?;
//! let mut world = World::open(alloc, &definition)?;
//! world.try_absorb(&Control::Invalidate(numbers))?;
//! ```
#![tactic(auto)]

mod base;
mod control;
mod crossing;
mod definition;
mod extending;
mod fault;
mod invoking;
mod laws;
mod link;
mod name;
mod names;
mod numbering;
mod order;
mod place;
mod point;
mod point_rules;
mod site;
mod site_rules;
mod targets;
mod version;
mod world;

pub use control::{Control, Installation, KeptLinks, Relinking, Retargeting};
pub use crossing::worlds_cross_threads;
pub use definition::Definition;
pub use fault::DefinitionFault;
pub use invoking::{invokes_known, invokes_lower, invokes_of_type};
pub use laws::worlds_look_back;
pub use link::Link;
pub use mh_base::{Listing, MOST_NEEDS, NoMemory};
pub use name::{LONGEST_NAME, Name};
pub use names::Names;
pub use place::{DefinitionMisfit, DefinitionPlace, LinkPart, PointPart, SitePart};
pub use point::Point;
pub use point_rules::GREATEST_COST;
pub use site::Site;
pub use site_rules::{GREATEST_CHARGE, GREATEST_LEVEL, GREATEST_WEIGHT, MOST_LINKS};
pub use version::Version;
pub use world::World;
