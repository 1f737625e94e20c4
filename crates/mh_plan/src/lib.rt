//! The planner: it computes the least best links of a problem, with a flow that proves them best,
//! part by part and on any number of workers.
//!
//! ```
//! let plan = plan(rt, alloc, &problem, 2, &OpenGate)?;
//! println!(rt; "{plan}")?;
//! ```
#![tactic(auto)]

mod gate;
mod joining;
mod numbers;
mod planner;
mod runs;
mod worker;

pub use gate::{Gate, OpenGate};
pub use mh_base::NoMemory;
pub use planner::{plan, plan_alone, plan_counted};
