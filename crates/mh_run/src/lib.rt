//! Running prepared code.
//!
//! ```
//! let mut stack = Stack::new(alloc)?;
//! let arguments = [Value::Int(1)];
//! let handle = prepared.handle();
//! let is_alone = handle.point_bound() == 0 && handle.site_bound() == 0;
//! if is_alone && fits(handle.method_type(), &arguments) {
//!     let here = Here { valid: &[], targets: &[] };
//!     let (outcome, steps) = run(&mut stack, &here, &prepared, &arguments)?;
//!     println!(rt; "{outcome} in {steps} steps")?;
//! }
//! ```
#![tactic(auto)]

mod advancing;
mod calls;
mod crossing;
mod forwarding;
mod here;
mod levels;
mod locals;
mod numbers;
mod running;
mod stack;

pub use calls::run;
pub use crossing::stacks_cross_threads;
pub use here::Here;
pub use stack::Stack;
