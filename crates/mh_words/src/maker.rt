//! Making pieces of code over words.

ghost use Rattle.std.specs.Prelude.{◌≡◌, IfOk};
ghost use Rattle.std.specs.Arc.{arc_value};
ghost use Rattle.mh_words.specs.Routine.{pick as pick_word};
ghost use Rattle.mh_words.specs.RoutineOf.{word_routine};

use crate::piece::WordPiece;
use crate::stop::Stop;
use crate::word_source::WordSource;
use crate::word_test::WordTest;
use std::alloc::Global;
use std::sync::Arc;

/// The allocator, and how many more pieces may be made.
#[derive(Drop)]
pub(crate) struct Maker {
    pub(crate) alloc: Global,
    pub(crate) left: u32,
}

// Returns an owner of a piece.
pub(crate) fn own(maker: &mut Maker, piece: WordPiece) -> Result<Arc<WordPiece>, Stop>
    ensures value { IfOk result (λ a. arc_value a ≡ piece) }
{
    if maker.left == 0 {
        return Err(Stop::Unfit);
    }
    maker.left -= 1;
    Arc::new(maker.alloc, piece).map_err(|_| Stop::NoMemory)
}

// Makes the piece of a test and of the two pieces that it chooses between.
pub(crate) fn choose(
    maker: &mut Maker,
    test: WordTest,
    target: Arc<WordPiece>,
    fallback: Arc<WordPiece>,
) -> Result<Arc<WordPiece>, Stop>
    ensures value { IfOk result (λ a. word_routine (arc_value a) ≡ pick_word test
        (word_routine (arc_value target)) (word_routine (arc_value fallback))) }
{
    if let WordTest::Is(slot, word) = test
        && let WordPiece::Answer {
            source: WordSource::Constant(answer),
            steps,
        } = &*target
    {
        let piece = WordPiece::Told {
            slot,
            word,
            answer: *answer,
            steps: *steps,
            fallback,
        };
        return own(maker, piece);
    }
    let piece = WordPiece::If {
        test,
        target,
        fallback,
    };
    own(maker, piece)
}

// Returns another owner of a piece.
pub(crate) fn share(piece: &Arc<WordPiece>) -> Result<Arc<WordPiece>, Stop>
    ensures value { IfOk result (λ a. arc_value a ≡ arc_value piece.now) }
{
    Arc::try_clone(piece).map_err(|_| Stop::NoMemory)
}
