//! The records of a book.

use crate::shared_plan::SharedPlan;
use mh_site::Listing;
use mh_tree::Declared;

/// An accepted event other than a call.
#[derive(Debug, Drop)]
pub enum Record {
    /// A worker's hits were added to the totals: the links that it had hit, ascending by number,
    /// each with its number of hits.
    Flushed {
        worker: usize,
        hits: Listing<(usize, u64)>,
    },
    /// A site got another tree.
    Targeted {
        site: usize,
        tree: Declared,
    },
    /// Points became invalid.
    Invalidated {
        points: Listing<u32>,
    },
    /// A snapshot was taken, with the next number, from 1.
    Snapped,
    /// A plan for the snapshot of this number was published.
    Published {
        snapshot: usize,
        plan: SharedPlan,
    },
    /// The plan of this number, which was the newest, was installed.
    Installed {
        plan: usize,
    },
}
