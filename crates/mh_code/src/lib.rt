//! Prepared code of handle trees.
#![tactic(auto)]

mod code;
mod code_cache;
mod comparing;
mod crossing;
mod index;
mod made;
mod negating;
mod operands;
mod prepared;
mod preparing;
mod purpose;
mod switching;

pub use code::{Code, KeyTest, Piece};
pub use code_cache::CodeCache;
pub use crossing::code_crosses_threads;
pub use index::{Index, Row};
pub use prepared::Prepared;
