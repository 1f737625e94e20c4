//! Code over words.

ghost use Rattle.std.specs.Prelude.{◌≡◌};
ghost use Rattle.std.specs.Arc.{arc_value};

use crate::piece::WordPiece;
use mh_type::Kind;
use std::marker::Model;
use std::sync::Arc;

/// Code over words, with the kind of its answers.
///
/// A contract sees its first piece.
#[derive(Drop)]
pub struct WordCode {
    answer_kind: Kind,
    first: Arc<WordPiece>,
}

impl Model for WordCode {
    ghost use Rattle.std.specs.Arc.{arc_value};
    ghost use Rattle.mh_words.specs.Words.{Words};
    ghost use Rattle.mh_words.specs.Codes.{coded_words};

    ghost Value = { Words };

    ghost coded = { coded_words };

    ghost view = { λ c. record { kind = c.answer_kind; entry = arc_value c.first } };
}

impl WordCode {
    // Returns the code that begins with a piece.
    pub(crate) fn new(kind: Kind, entry: Arc<WordPiece>) -> WordCode
        ensures value { result ≡ record { kind = kind; entry = arc_value entry } }
    {
        WordCode {
            answer_kind: kind,
            first: entry,
        }
    }

    /// Returns the kind of the answers.
    #[inline(always)]
    pub fn kind(&self) -> Kind
        ensures value { result ≡ self.now.kind }
    {
        self.answer_kind
    }

    /// Returns the first piece.
    #[inline(always)]
    pub fn entry(&self) -> &WordPiece
        ensures value { result.now ≡ self.now.entry }
    {
        &self.first
    }
}
