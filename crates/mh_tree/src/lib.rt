//! Trees of method handles, typed and within limits.
//!
//! ```
//! // f(x) = if x == 1 { 100 } else { x + 1 }
//! let one = [Value::Int(1)];
//! let test = Handle::insert(alloc, &Handle::op(alloc, Op::Ieq)?, 1, &one)?;
//! let hundred = Handle::constant(alloc, &Value::Int(100))?;
//! let hundred = Handle::drop(alloc, &hundred, 0, &[Kind::Int])?;
//! let more = Handle::insert(alloc, &Handle::op(alloc, Op::Iadd)?, 1, &one)?;
//! let f = Handle::guard(alloc, &test, &hundred, &more)?;
//! ```
#![tactic(auto)]

mod arguments;
mod branches;
mod crossing;
mod declared;
mod fault;
mod filters;
mod folding;
mod handle;
mod invocations;
mod laws;
mod leaf;
mod limits;
mod measures;
mod node;
mod operand;
mod reordering;

pub use crossing::trees_cross_threads;
pub use declared::{DEEPEST_DECLARED, Declared, LARGEST_DECLARED};
pub use fault::TreeFault;
pub use handle::Handle;
pub use invocations::{InvocationTest, each_invocation};
pub use laws::invocations_mean_trees;
pub use limits::{DEEPEST, LARGEST};
pub use node::Node;
pub use operand::Operand;
