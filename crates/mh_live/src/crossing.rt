//! Laws about types that cross threads.

ghost use denote.Param.Send.{IsSend, IsSync};
ghost use Rattle.mh_live.specs.contracts.live.Live as lives;
ghost use Rattle.mh_live.specs.contracts.pass.Pass as passes;

use crate::front::ListName;
use mh_run::stacks_cross_threads;
use mh_site::worlds_cross_threads;
use mh_tree::trees_cross_threads;
use mh_type::values_cross_threads;

/// Proves that a pass can be sent to another thread, and that threads can share a `Live`, provided
/// that the name can cross threads. Call it in a function that hands them to threads: without it,
/// the search for this fact gives up.
pub fn cross_threads<N: ListName + Send + Sync>()
    ensures pass { IsSend (passes.the_row N.row N.ListName) }
    ensures live { IsSync (lives.the_row N.row N.ListName) }
{
    values_cross_threads();
    trees_cross_threads();
    worlds_cross_threads();
    stacks_cross_threads();
}
