//! Sums over all workers and links.
ghost use Rattle.std.specs.Prelude.{◌≡◌, ◌<◌, ◌≤◌, ◌+◌, ℕ, string_bytes, length, IfOk};
ghost use Rattle.std.specs.List.{sum_by, range_with_len};
ghost use Rattle.mh_ledger.specs.Ledgers.{at};
ghost use Rattle.mh_site.specs.Links.{links};
ghost use Rattle.mh_live.specs.Settled.{IsSettled};
ghost use Rattle.mh_stress.specs.Stress.{most_unflushed, settled_line, settled_text, sums_over};

use mh_live::{ListName, Settled};
use std::alloc::{AllocError, Global};

/// The hits of all links: those that were made, those that were flushed, and those that were not.
#[derive(Clone, Copy, Debug, PartialEq, Eq)]
pub struct Sums {
    pub made: u128,
    pub totals: u128,
    pub unflushed: u128,
}

/// Returns the sums over all links.
pub(crate) fn sums_of<N: ListName>(settled: &Settled<N>) -> Sums
    requires small { (j : ℕ) → j < length (links N.definition)
        → at settled.now.unflushed j ≤ most_unflushed }
    ensures settled { IsSettled N.definition N.limits N.workers settled.now }
    ensures value { result ≡ sums_over (length (links N.definition))
        (at settled.now.book.totals.total) (at settled.now.unflushed) }
{
    let mut totals = 0;
    let mut unflushed = 0;
    for link in 0..settled.links() {
        totals += u128::from(settled.total(link));
        unflushed += settled.unflushed(link);
    }
    Sums {
        made: totals + unflushed,
        totals,
        unflushed,
    }
}

/// Returns the text of the sums.
fn text(alloc: Global, sums: Sums) -> Result<String, AllocError>
    ensures value { IfOk result (λ s. string_bytes s ≡ settled_text sums) }
{
    let made = sums.made;
    let totals = sums.totals;
    let unflushed = sums.unflushed;
    format!(in alloc; "settled made {made} totals {totals} unflushed {unflushed}")
}

/// Returns the line of the sums.
pub(crate) fn line(alloc: Global, sums: Sums) -> Result<String, AllocError>
    ensures value { IfOk result (λ s. string_bytes s ≡ settled_line sums) }
{
    let text = text(alloc, sums)?;
    format!(in alloc; "{text}\n")
}
