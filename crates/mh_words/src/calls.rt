//! Calls of handles by their code over words.

ghost use Rattle.std.specs.Prelude.{◌≡◌, IfSome};
ghost use Rattle.mh_tree.specs.Environment.{Environment};
ghost use Rattle.mh_tree.specs.Meaning.{mean, steps};
ghost use Rattle.mh_type.specs.Fits.{Fits};

use crate::frame::hold;
use crate::lowered::Lowered;
use crate::running::run_words;
use crate::slot::{ARGUMENT_SLOTS, FRAME_LENGTH};
use crate::words::outcome_of_word;
use mh_type::{Outcome, Value};

/// Runs the code over words of a handle on arguments; `valid` says which points are valid. Returns
/// the outcome of the handle's tree and the number of its nodes evaluated, or `None` if there is no
/// code over words. It may write any slot of the frame.
pub fn run(
    lowered: &Lowered,
    frame: &mut [i64; FRAME_LENGTH],
    valid: &[bool],
    arguments: &[Value],
) -> Option<(Outcome, u64)>
    requires fits { Fits lowered.now.signature arguments.now }
    ensures outcome { (v : Environment) → v.valid ≡ valid.now → IfSome result (λ r. r.0
        ≡ mean v lowered.now.tree arguments.now) }
    ensures steps { (v : Environment) → v.valid ≡ valid.now → IfSome result (λ r. r.1
        ≡ steps v lowered.now.tree arguments.now) }
{
    let words = lowered.words()?;
    if arguments.len() > ARGUMENT_SLOTS {
        return None;
    }
    hold(frame, arguments);
    let (word, steps) = run_words(frame, valid, words);
    let outcome = outcome_of_word(words.kind(), word)?;
    Some((outcome, steps))
}
