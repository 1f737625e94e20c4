//! The lines of scripts, problems and plans.
//!
//! `lines` makes the lines of replies and plans, and `streams` reads an input to its end and writes
//! its lines. Everything that reads JSON is in mh_json. This crate also exports the types of the
//! crates below that its functions use:
//!
//! ```
//! let script = read_script(alloc, input)?;
//! let mut machine = Machine::open(alloc, &script.definition, script.workers, script.limits)?;
//! for step in script.steps.into_vec() {
//!     if let Step::Ask(event) = step {
//!         let reply = machine.step(event);
//!     }
//! }
//! ```
#![tactic(auto)]

mod laws;
mod lines;
mod streams;

pub use laws::every_script_is_right;
pub use lines::plans::plan_line;
pub use lines::render;
pub use lines::report::{push_tables, report_lines};
pub use lines::verdict::{Verdict, judge};
pub use mh_core::{Definition, Event, Limits, Machine, Plan, Problem, Refusal, Reply, SharedPlan};
pub use mh_json::{
    Fault, Field, InputFault, InputForm, Key, Misread, Named, Numbered, RefusedEvent, Script, Step,
    TextFault, Wanted, Word, first_misread, plan_json, read_plan, read_problem, read_script,
    readers,
};
pub use streams::check::{check_bytes, check_value, write_verdict};
pub use streams::failing::{Sink, Source};
pub use streams::input::{read_input, read_up_to};
pub use streams::planning::{PlanOptions, plan_bytes, plan_value, write_lines};
pub use streams::run::{RunOptions, read_script_from, run_bytes, run_value};
pub use streams::stepping::best_plan;
pub use streams::watched::Watched;
