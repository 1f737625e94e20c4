//! The usage of a history.

ghost use Rattle.std.specs.Prelude.{◌≡◌, length};
ghost use Rattle.mh_core.specs.Records.{plans, snapshots};

use crate::runtime::Runtime;

/// The numbers of records, snapshots and plans of a history. Their limits are `Limits::history`,
/// `MOST_SNAPSHOTS` and `MOST_PLANS`; a renewal begins a new history.
#[derive(Clone, Copy, Debug, PartialEq, Eq)]
pub struct Used {
    /// The number of records.
    pub records: usize,
    /// The number of snapshots.
    pub snapshots: usize,
    /// The number of plans.
    pub plans: usize,
}

impl Runtime {
    /// Returns the usage of the history. O(1).
    pub fn used(&self) -> Used
        ensures records { result.records ≡ length self.now.book.records }
        ensures snapshots { result.snapshots ≡ snapshots self.now.book.records }
        ensures plans { result.plans ≡ plans self.now.book.records }
    {
        let book = self.book();
        Used {
            records: book.records().len(),
            snapshots: book.snapshot_count(),
            plans: book.plan_count(),
        }
    }
}
