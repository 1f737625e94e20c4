//! Laws about types that cross threads.

ghost use Rattle.mh_run.specs.Laws.Crossing.{StacksCross};

use mh_type::values_cross_threads;

/// Proves that a stack can be sent to another thread.
pub fn stacks_cross_threads()
    ensures stacks { StacksCross }
{
    values_cross_threads();
}
