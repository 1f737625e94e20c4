//! Pieces of code over words.

use crate::constant::Constant;
use crate::slot::Slot;
use crate::word_source::WordSource;
use crate::word_test::WordTest;
use std::sync::Arc;

/// A piece of code over words: an action, and the pieces that follow. All ways that lead to a piece
/// have the same steps, so the steps are a number of the piece at which a way ends.
#[derive(Drop)]
pub enum WordPiece {
    /// A source's word is the answer.
    Answer {
        source: WordSource,
        steps: u64,
    },
    /// A source's word is written into a slot. If the source throws, the code throws after `steps`.
    Let {
        source: WordSource,
        slot: Slot,
        then: Arc<WordPiece>,
        steps: u64,
    },
    /// A test chooses one of two pieces.
    If {
        test: WordTest,
        target: Arc<WordPiece>,
        fallback: Arc<WordPiece>,
    },
    /// If a slot has this word, a constant is the answer.
    Told {
        slot: Slot,
        word: i64,
        answer: i64,
        steps: u64,
        fallback: Arc<WordPiece>,
    },
    /// One of several pieces, by how far a slot's word is above the least key.
    Table {
        slot: Slot,
        least: i64,
        targets: Vec<Arc<WordPiece>>,
        otherwise: Arc<WordPiece>,
    },
    /// One of several constants is the answer, by how far a slot's word is above the least key.
    Answers {
        slot: Slot,
        least: i64,
        answers: Vec<Constant>,
        otherwise: Arc<WordPiece>,
    },
    /// A point's validity chooses one of two pieces.
    Point {
        point: u32,
        target: Arc<WordPiece>,
        fallback: Arc<WordPiece>,
    },
}
