//! Scripts on running threads: each worker makes its calls, again and again, concurrently with the
//! changes of the world.
//!
//! ```
//! let options = StressOptions { workers: Some(4), rounds: 1000, report: false };
//! stress_bytes(&Stage::silent(rt), alloc, options, &mut reader, &mut writer)?;
//! ```
#![tactic(auto)]

mod changes;
mod division;
mod notes;
mod rounds;
mod settled;
mod stage;
mod stress;
mod sums;
mod tally;
mod threads;

pub use mh_json::{Fault, InputFault, TextFault};
pub use mh_text::Watched;
pub use stage::{ShowRounds, Silent, Stage};
pub use stress::{MOST_ROUNDS, StressOptions, stress_bytes, stress_value};
