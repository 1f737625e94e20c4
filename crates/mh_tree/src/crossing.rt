//! Laws about types that cross threads.

ghost use Rattle.mh_tree.specs.Laws.Crossing.{TreesCross};

use mh_type::values_cross_threads;

/// Proves that handles and declared trees can be sent to another thread and shared between threads.
pub fn trees_cross_threads()
    ensures trees { TreesCross }
{
    values_cross_threads();
}
