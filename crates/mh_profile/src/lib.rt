//! Profiles of a virtual machine: problems of selection as JSON Lines with names.
//!
//! A line of a profile is a point or a link, as JSON:
//!
//! ```
//! {"point": "A has no subclass", "cost": 2500}
//! {"link": "f@12 A", "gain": 1500, "needs": ["A has no subclass"], "charge": 20, "eligible": true}
//! ```
//!
//! A point comes before the links that need it. No two points have the same name; links may.
//! `charge` defaults to 0, `eligible` to true, and `needs` to an empty list, which may be in any
//! order and names each point once. A line of white space is skipped, and the last line may lack
//! its end. A line has at most 1,048,576 bytes without its end, and all lines together 67,108,864
//! bytes. There are at most 1,048,576 points and as many links.
//!
//! A fault has the number of its line. If the gains, or the costs and charges, add up to more than
//! 2^62, that is a fault of the last line.
//!
//! ```
//! let named = read_profile(alloc, &mut reader)?.into_problem()?;
//! ```
#![tactic(auto)]

mod accounts;
mod check;
mod claim;
mod faulty;
mod kept;
mod keyed;
mod laws;
mod line;
mod named;
mod names;
mod plan_lines;
mod planning;
mod profile;
mod reader;
mod streams;
mod sweep_lines;
mod sweeping;

pub use check::check_profile;
pub use claim::{claimed_lines, keep_claim};
pub use faulty::{FaultyLine, faulty_line};
pub use kept::keep_profile;
pub use laws::links_stay_best_within_slack;
pub use mh_json::{Fault, InputFault, TextFault};
pub use named::NamedProblem;
pub use names::{LinkNames, PointNames};
pub use plan_lines::{profile_lines, quoted};
pub use planning::{ProfileOptions, plan_profile};
pub use profile::Profile;
pub use reader::LineReader;
pub use streams::read_profile;
