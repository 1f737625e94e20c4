//! Frames of arguments.

ghost use Rattle.std.specs.Prelude.{◌≤◌, length};
ghost use Rattle.mh_words.specs.Holds.{Holds};
ghost use Rattle.mh_words.specs.Limits.{argument_slots};

use crate::slot::FRAME_LENGTH;
use crate::words::word_of;
use mh_type::Value;

/// Writes the words of arguments, at most 16, into the leading slots of a frame. The slot of a text
/// keeps its word.
pub fn hold(frame: &mut [i64; FRAME_LENGTH], arguments: &[Value])
    requires few { length arguments.now ≤ argument_slots }
    ensures holds { Holds arguments.now frame.new }
{
    for (place, value) in arguments.iter().enumerate() {
        if let Some(word) = word_of(value) {
            frame[place] = word;
        }
    }
}
