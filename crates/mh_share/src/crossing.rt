//! Laws about types that cross threads.

ghost use denote.Param.Send.{IsSend};
ghost use Rattle.mh_share.specs.contracts.caller.Caller as callers;
ghost use Rattle.mh_share.specs.contracts.desk.Desk as desks;

use mh_core::runtimes_cross_threads;
use mh_run::stacks_cross_threads;
use mh_site::worlds_cross_threads;

/// Proves that a desk and a caller can each be sent to another thread. Call it in a function that
/// hands them to threads: without it, the search for this fact gives up.
pub fn desks_cross_threads()
    ensures desk { IsSend desks.the_row }
    ensures caller { IsSend callers.the_row }
{
    worlds_cross_threads();
    stacks_cross_threads();
    runtimes_cross_threads();
}
