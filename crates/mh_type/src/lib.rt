//! Kinds, values, method types and leaf operations.
//!
//! ```
//! let signature = MethodType::parse("(int,String)long")?;
//! let operation = Op::from_name("iadd").map(|op| op.op_type());
//! println!(rt; "{signature} {}", Value::Int(-1))?;
//! ```
#![tactic(auto)]

mod crossing;
mod display;
mod fault;
mod kind;
mod method_type;
mod operation;
mod outcome;
mod text;
mod value;
mod written;

pub use crossing::values_cross_threads;
pub use fault::TypeFault;
pub use kind::Kind;
pub use method_type::{MOST_PARAMETERS, MethodType, begins_with, same_kinds};
pub use operation::Op;
pub use outcome::{Outcome, Throw};
pub use text::{LONGEST_TEXT, Text};
pub use value::{Value, copy_values, have_kinds, same_value};
