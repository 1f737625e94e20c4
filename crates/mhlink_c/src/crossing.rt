//! Laws about handles in threads.

ghost use denote.Param.Send.{IsSend};
ghost use Rattle.mhlink_c.specs.contracts.handle.MhlinkMachine as machines;
ghost use Rattle.mhlink_c.specs.contracts.caller_handle.MhlinkCaller as callers;
ghost use Rattle.mhlink_c.specs.contracts.desk_handle.MhlinkDesk as desks;
ghost use Rattle.mhlink_c.specs.contracts.tree_handle.MhlinkTree as trees;

use mh_core::runtimes_cross_threads;
use mh_share::desks_cross_threads;
use mh_tree::trees_cross_threads;
use mh_type::values_cross_threads;

/// States that the handles of a machine, a desk, a caller and a tree may each move to another
/// thread, with everything they own.
pub fn handles_cross_threads()
    ensures machine { IsSend machines.the_row }
    ensures desk { IsSend desks.the_row }
    ensures caller { IsSend callers.the_row }
    ensures tree { IsSend trees.the_row }
{
    values_cross_threads();
    trees_cross_threads();
    runtimes_cross_threads();
    desks_cross_threads();
}
