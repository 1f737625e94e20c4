//! Evaluation of handle trees.
//!
//! ```
//! let mut stack = Stack::new(alloc)?;
//! let arguments = [Value::Int(1)];
//! let is_alone = handle.point_bound() == 0 && handle.site_bound() == 0;
//! if is_alone && fits(handle.method_type(), &arguments) {
//!     let (outcome, steps) = eval(&mut stack, &[], &[], &[], &handle, &arguments)?;
//!     println!(rt; "{outcome} in {steps} steps")?;
//! }
//! ```
#![tactic(auto)]

mod answer;
mod evaluating;
mod evaluator;
mod fault;
mod fitting;
mod frames;
mod invoking;
mod operations;
mod stack;

pub use answer::{Answer, outcome_of};
pub use evaluating::evaluate;
pub use evaluator::eval;
pub use fault::Unevaluated;
pub use fitting::fits;
pub use frames::put_owner;
pub use invoking::lawful;
pub use mh_base::NoMemory;
pub use operations::{operate, outcome_of_number, share, truth};
pub use stack::{ROOM, Stack};
