//! Inline caches as trees: key tests, specialised trees and chains.
//!
//! ```
//! let entries = [Entry::new(Value::Int(1), needs)];
//! if may_chain(base.handle().method_type(), 0, &entries) {
//!     let cache = chain(alloc, &base, 0, &entries)?;
//! }
//! ```
#![tactic(auto)]

mod chains;
mod entry;
mod fault;
mod key_tests;
mod keys;
mod laws;
mod rebuilding;
mod resolving;
mod retiring;
mod specialising;
mod stripping;

pub use chains::{chain, prepared_chain};
pub use entry::{Entry, MOST_ENTRIES, may_chain};
pub use laws::{
    chains_are_faithful, faithful_trees_keep_meaning, key_tests_ask_for_keys,
    retired_points_keep_meaning, specialised_trees_agree,
};
pub use mh_base::{MOST_NEEDS, NoMemory};
pub use retiring::retire;
pub use specialising::specialise;
pub use stripping::strip;
