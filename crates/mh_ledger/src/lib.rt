//! Hits of links: the ledger of each worker, and the totals that all workers flush into.
//!
//! ```
//! // one worker, three links, at most 10 unflushed and 1,000 flushed hits of each
//! let (mut totals, mut ledgers) = Totals::open(alloc, 3, 1, 10, 1000)?;
//! ledgers[0].hit(2)?;
//! totals.flush(&mut ledgers[0])?;
//! println!(rt; "{}", totals.total(2))?;
//! ```
#![tactic(auto)]

mod ledger;
mod old_hits;
mod sums;
mod totals;

pub use ledger::{LARGEST_LIMIT, Ledger, LedgerFull};
pub use mh_base::NoMemory;
pub use old_hits::OldHits;
pub use totals::{TotalTooLarge, Totals};
