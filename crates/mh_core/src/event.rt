//! Events that a machine can be asked to apply.

use crate::arguments::Arguments;
use crate::shared_plan::SharedPlan;
use mh_site::Listing;
use mh_tree::Declared;

/// One step of one actor. Workers, sites and points are given by number, from 0; a number past the
/// last is one that does not exist. Snapshots and plans are numbered from 1, in the order in which
/// they are taken and published.
#[derive(Debug, Drop)]
pub enum Event {
    /// A worker calls a site (`MutableCallSite.dynamicInvoker`). If the argument at the site's key
    /// position is the key of one of its links, the worker's ledger counts a hit of that link.
    Call {
        worker: u32,
        site: usize,
        arguments: Arguments,
    },
    /// Adds a worker's hits since its last flush to the totals.
    Flush {
        worker: u32,
    },
    /// Gives a site another tree (`MutableCallSite.setTarget`).
    Target {
        site: usize,
        tree: Declared,
    },
    /// Invalidates points, for good (`SwitchPoint.invalidateAll`).
    Invalidate {
        points: Listing<u32>,
    },
    /// Stores the totals, the validity of the points and the number of retargetings of each site,
    /// under the next number.
    Snapshot,
    /// Offers a plan for the problem of a snapshot. It is published if it matches.
    Publish {
        snapshot: usize,
        plan: SharedPlan,
    },
    /// Installs the newest plan, given by its number: its links become the inline caches of their
    /// sites.
    Install {
        plan: usize,
    },
}
