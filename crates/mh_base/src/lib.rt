//! The foundation of all crates: lists that contracts see as the list of their items, the
//! out-of-memory error, tests in an order, and tests of lists of numbers.
//!
//! If a value is refused, its tests run in an order, and the first that fails is reported:
//!
//! ```
//! use mh_base::{are_below, demand, is_ascending};
//!
//! fn first_fault(rows: &[u32]) -> Result<(), &'static str> {
//!     demand(are_below(rows, 4), "past the last")?;
//!     demand(is_ascending(rows), "not in order")
//! }
//! ```
#![tactic(auto)]

mod display;
mod limits;
mod listing;
mod memory;
mod numbers;
mod order;

pub use display::Numbers;
pub use limits::{MOST_NEEDS, MOST_WORKERS};
pub use listing::Listing;
pub use memory::NoMemory;
pub use numbers::{are_below, is_ascending};
pub use order::demand;
