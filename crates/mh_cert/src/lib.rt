//! The checker of a plan from any source: it tests whether the plan matches its problem, and so is
//! best.
//!
//! ```
//! match check(alloc, &problem, &plan) {
//!     Ok(()) => println!(rt; "accepted: {plan}")?,
//!     Err(fault) => println!(rt; "refused {fault}")?,
//! }
//! ```
#![tactic(auto)]

mod bounds;
mod charges;
mod checker;
mod fault;
mod laws;
mod marks;
mod plan;
mod rows;
mod sums;
mod union;

pub use checker::check;
pub use fault::CheckFault;
pub use laws::matching_is_best;
pub use plan::Plan;
