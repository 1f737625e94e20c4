//! Explanations of faults: which part of an input has the fault, and why; and the keys that are not
//! read.
//!
//! An input is read once, by the readers of mh_json, whose first fault contains the keys that lead
//! to the part that has it, and the form that was expected there. `explanation` shows these keys
//! and the part, and says in a sentence why it has the fault; `unread_keys` notes each key that no
//! reader looks at.
//!
//! ```
//! if let Err(Fault { kind: TextFault::Input(fault), .. }) = read_script(alloc, input) {
//!     let lines = explanation(alloc, InputForm::Script, input, fault)?;
//!     print!(rt; "{lines}")?;
//! }
//! ```
#![tactic(auto)]

mod faulty;
mod foreign;
mod found;
mod lines;
mod near;
mod no_json;
mod objects;
mod path;
mod refused;
mod said;
mod scope;
mod spot;
mod twice;
mod unflushed;
mod unread;
mod values;
mod why;
mod words;

pub use faulty::{FaultyPart, faulty_part};
pub use foreign::foreign_format;
pub use lines::{definition_explanation, explanation, explanation_of_part, explanation_of_text};
pub use mh_json::{InputFault, InputForm};
pub use near::nearest;
pub use refused::explanation_of_refused;
pub use twice::keys_twice;
pub use unflushed::unflushed_calls;
pub use unread::{UnreadKeys, unread_keys};
pub use words::quoted;
