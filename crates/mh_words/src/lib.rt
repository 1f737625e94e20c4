//! Code over words: prepared code of numbers and booleans, which runs without allocation over a
//! frame of 64-bit words.
//!
//! ```
//! let lowered = Lowered::new(alloc, prepared)?;
//! let mut frame = [0; FRAME_LENGTH];
//! if let Some(code) = lowered.words() {
//!     hold(&mut frame, &[Value::Int(1)]);
//!     let (word, steps) = run_words(&mut frame, &[], code);
//! }
//! ```
#![tactic(auto)]

mod calculating;
mod calls;
mod constant;
mod crossing;
mod form;
mod frame;
mod handles;
mod input;
mod keyed;
mod known;
mod lowered;
mod lowering;
mod made;
mod maker;
mod operation;
mod piece;
mod place;
mod running;
mod slot;
mod sources;
mod stop;
mod switching;
mod tables;
mod word_code;
mod word_source;
mod word_test;
mod words;

pub use calls::run;
pub use constant::Constant;
pub use crossing::words_cross_threads;
pub use frame::hold;
pub use handles::lower;
pub use lowered::Lowered;
pub use operation::WordOperation;
pub use piece::WordPiece;
pub use running::run_words;
pub use slot::{FRAME_LENGTH, Slot};
pub use word_code::WordCode;
pub use word_source::WordSource;
pub use word_test::WordTest;
pub use words::{outcome_of_word, value_of_word, word_of};
