//! Laws about types that cross threads.

ghost use Rattle.mh_core.specs.Laws.Crossing.{RuntimesCross};

use mh_run::stacks_cross_threads;
use mh_site::worlds_cross_threads;
use mh_tree::trees_cross_threads;

/// Proves that a book, a ledger and a runtime can each be sent to another thread.
pub fn runtimes_cross_threads()
    ensures runtimes { RuntimesCross }
{
    trees_cross_threads();
    worlds_cross_threads();
    stacks_cross_threads();
}
