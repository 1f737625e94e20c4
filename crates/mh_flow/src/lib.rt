//! Maximum flows of a problem by levels and blocking flows (Dinitz 1970), and the links that the
//! source then reaches.
//!
//! ```
//! let run = max_flow(alloc, &problem)?;
//! println!(rt; "{} phases", run.phases())?;
//! ```
#![tactic(auto)]

mod blocking;
mod chain;
mod flow;
mod layer_run;
mod levels;
mod need_row;
mod outcome;
mod path;
mod push;
mod row_index;
mod search;
mod start;

pub use flow::max_flow;
pub use layer_run::{FlowRun, LayerRun};
pub use mh_base::NoMemory;
pub use need_row::NeedRow;
pub use path::{Path, Turn};
