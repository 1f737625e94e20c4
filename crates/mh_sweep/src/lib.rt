//! The scale of costs up to which each link of a problem is chosen, for all scales at once
//! (Gallo, Grigoriadis and Tarjan 1989).
//!
//! ```
//! let sweep = sweep_scales(alloc, &problem)?;
//! let scale = sweep.until.as_slice()[link];
//! ```
#![tactic(auto)]

mod block;
mod dividing;
mod fault;
mod halving;
mod listing;
mod marking;
mod scaling;
mod span;
mod sweep;
mod totals;

pub use fault::SweepFault;
pub use mh_network::NoMemory;
pub use sweep::{Sweep, sweep_scales};
pub use totals::GREATEST_SCALE;
