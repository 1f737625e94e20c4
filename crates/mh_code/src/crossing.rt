//! Laws about types that cross threads.

ghost use Rattle.mh_code.specs.Laws.Crossing.{CodeCrosses};

use mh_tree::trees_cross_threads;
use mh_type::values_cross_threads;

/// Proves that prepared handles can be sent to another thread and shared between threads.
pub fn code_crosses_threads()
    ensures code { CodeCrosses }
{
    trees_cross_threads();
    values_cross_threads();
}
