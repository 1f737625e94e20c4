//! Laws about types that cross threads.

ghost use Rattle.mh_words.specs.Laws.Crossing.{WordsCross};

use mh_code::code_crosses_threads;
use mh_type::values_cross_threads;

/// Proves that code over words, and handles with it, can be sent to another thread and shared
/// between threads.
pub fn words_cross_threads()
    ensures words { WordsCross }
{
    code_crosses_threads();
    values_cross_threads();
}
