//! Scripts, problems, plans and trees, read from JSON and written as JSON.
//!
//! `json` reads the parts of an input, and `readers` exports the readers that callers may use on
//! their own. A fault has the path of the part of the input that has it (`Misread`). `tree_json`
//! and `plan_json` write the form that is read.
//!
//! ```
//! let script = read_script(alloc, input)?;
//! // ["guard",["op","ilt"],["op","iadd"],["op","isub"]]
//! let text = tree_json(alloc, &definition, definition.target(0).handle())?;
//! ```
#![tactic(auto)]

mod fault;
mod json;
mod key;
mod leaf;
mod misfit;
mod misread;
pub mod readers;
mod refused;
mod tree;
mod values;
mod writer;

pub use fault::{Fault, InputFault, TextFault};
pub use json::LONGEST_INPUT;
pub use json::certificate::plan_json;
pub use json::form::{InputForm, first_misread};
pub use json::plan::read_plan;
pub use json::problem::read_problem;
pub use json::script::{Script, read_script};
pub use json::step::Step;
pub use json::wanted::{Named, Numbered, Wanted, Word};
pub use key::{Field, Key};
pub use misread::Misread;
pub use refused::RefusedEvent;
pub use tree::tree_json;
