//! Calls from several threads without a lock: worlds that never change, shared by their callers.
//!
//! A `Desk` has the book, and shows a world of it. Each thread makes calls through a `Caller`, by
//! the world of its last look, while the desk takes records under a lock of the host's own. Nothing
//! here waits for another thread.
//!
//! ```
//! let (mut desk, callers) = Desk::open(alloc, &definition, workers, limits)?;
//! // A thread: no lock.
//! let (outcome, steps) = caller.call(site, &arguments)?;
//! // Under the host's lock, and then at a safepoint of each caller.
//! desk.invalidate(points)?;
//! desk.show()?;
//! caller.look(&desk)?;
//! ```
#![tactic(auto)]

mod caller;
mod crossing;
mod desk;
mod past;
mod renewing;
mod shown;

pub use caller::Caller;
pub use crossing::desks_cross_threads;
pub use desk::Desk;
pub use mh_core::{Limits, NoMemory, Refusal, Renewal};
pub use mh_ledger::{Ledger, OldHits};
