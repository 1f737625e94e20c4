//! Running code over words.

ghost use Rattle.std.specs.Prelude.{◌≡◌};
ghost use Rattle.mh_words.specs.RoutineOf.{word_routine};
ghost use Rattle.mh_words.specs.Running.{answer, answer_steps, is_valid as point_is_valid};

use crate::calculating::{holds, word_from};
use crate::constant::Constant;
use crate::piece::WordPiece;
use crate::slot::FRAME_LENGTH;
use crate::tables::place_in;
use crate::word_code::WordCode;

/// Runs code over words on a frame; `valid` says which points are valid. Returns the word of
/// the answer, or `None` if the code throws an `ArithmeticException`, and the number of steps. It
/// allocates nothing, and may write any slot from 16 on.
#[inline(always)]
pub fn run_words(
    frame: &mut [i64; FRAME_LENGTH],
    valid: &[bool],
    code: &WordCode,
) -> (Option<i64>, u64)
    ensures answer { result.0 ≡ answer valid.now (word_routine code.now.entry) frame.old }
    ensures steps { result.1 ≡ answer_steps valid.now (word_routine code.now.entry) frame.old }
{
    let mut piece = code.entry();
    loop {
        match piece {
            WordPiece::Answer { source, steps } => return (word_from(frame, source), *steps),
            WordPiece::Let {
                source,
                slot,
                then,
                steps,
            } => {
                let Some(word) = word_from(frame, source) else {
                    return (None, *steps);
                };
                frame[slot.place()] = word;
                piece = then;
            }
            WordPiece::If {
                test,
                target,
                fallback,
            } => piece = if holds(frame, test) { target } else { fallback },
            WordPiece::Told {
                slot,
                word,
                answer,
                steps,
                fallback,
            } => {
                if frame[slot.place()] == *word {
                    return (Some(*answer), *steps);
                }
                piece = fallback;
            }
            WordPiece::Table {
                slot,
                least,
                targets,
                otherwise,
            } => {
                let place = place_in(frame[slot.place()], *least, targets.len());
                piece = match place {
                    Some(place) => &targets[place],
                    None => otherwise,
                };
            }
            WordPiece::Answers {
                slot,
                least,
                answers,
                otherwise,
            } => {
                let place = place_in(frame[slot.place()], *least, answers.len());
                let Some(place) = place else {
                    piece = otherwise;
                    continue;
                };
                let Constant { word, steps } = answers[place];
                return (Some(word), steps);
            }
            WordPiece::Point {
                point,
                target,
                fallback,
            } => piece = if is_valid(valid, *point) {
                target
            } else {
                fallback
            },
        }
    }
}

// Returns whether a point is valid. A point that is not in `valid` is not valid.
#[inline(always)]
fn is_valid(valid: &[bool], point: u32) -> bool
    ensures value { result ≡ point_is_valid valid.now point }
{
    match valid.get(point as usize) {
        Some(is_valid) => *is_valid,
        None => false,
    }
}
