//! The command line of `mhlink`, over a reader and two writers.
//!
//! ```
//! let mut input = Watched::new(rt.stdin());
//! let status = command(&Stage::silent(&rt), alloc, &["run"], &mut input, &mut out, &mut err);
//! ```
#![tactic(auto)]

mod answer;
mod command_line;
mod findings;
mod flags;
mod line_reasons;
mod notes;
mod options;
mod request;
mod status;
mod wording;
mod work;

pub use command_line::command;
pub use mh_profile::ProfileOptions;
pub use mh_stress::{ShowRounds, Silent, Stage, StressOptions};
pub use mh_text::{PlanOptions, RunOptions, Watched};
pub use options::Reading;
pub use request::{Asked, Request};
pub use status::{COMMAND_LINE, DONE, IO_FAILED, NO_MEMORY, REFUSED};
