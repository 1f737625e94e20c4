//! Keys of switches.

use crate::piece::WordPiece;
use std::sync::Arc;

/// A key, and the piece that follows if the slot has it.
#[derive(Drop)]
pub(crate) struct Keyed {
    pub(crate) key: i64,
    pub(crate) target: Arc<WordPiece>,
}

/// Tests of a slot, the last first, and the piece that follows if none of them holds.
#[derive(Drop)]
pub(crate) struct Tests {
    pub(crate) keyed: Vec<Keyed>,
    pub(crate) otherwise: Arc<WordPiece>,
}
