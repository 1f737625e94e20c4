//! Limits.

ghost use Rattle.std.specs.Prelude.{◌≡◌, IfSome, IfNone};
ghost use Rattle.mh_core.specs.Limits.{IsLimits};

use std::marker::Model;

/// The greatest number of events of a history.
pub const LONGEST_HISTORY: u64 = 1 << 20;

/// The greatest number of hits of a link that a worker may hold.
pub const LARGEST_LEDGER: u64 = 1 << 20;

/// The greatest number of hits of a link that the totals may hold.
pub const LARGEST_TOTAL: u64 = 1 << 40;

/// The greatest number of snapshots of a history.
pub const MOST_SNAPSHOTS: usize = 1024;

/// The greatest number of plans of a history.
pub const MOST_PLANS: usize = 1024;

/// The limits of a runtime: how many events may be accepted, how many hits of a link a worker may
/// hold before it flushes them, and how many the totals may hold.
#[derive(Debug, Drop)]
pub struct Limits {
    history: u64,
    ledger: u64,
    total: u64,
}

impl Model for Limits {
    ghost use Rattle.mh_core.specs.Limits.{LimitsData, IsLimits};

    ghost Value = { LimitsData };

    ghost view = { λ l. record { history = l.history; ledger = l.ledger; total = l.total } };

    ghost invariant = { λ l. IsLimits record {
      history = l.history;
      ledger = l.ledger;
      total = l.total;
    } };
}

impl Limits {
    /// Returns the limits: `history` from 0 to 2^20 events, `ledger` from 1 to 2^20 hits, `total`
    /// from 0 to 2^40 hits; `None` if one is out of its range.
    pub fn new(history: u64, ledger: u64, total: u64) -> Option<Limits>
        ensures value { IfSome result
            (λ l. (l ≡ record { history = history; ledger = ledger; total = total }) × IsLimits l) }
        ensures none { IfNone result (IsLimits record
            { history = history; ledger = ledger; total = total } → ⊥) }
    {
        if history > LONGEST_HISTORY || ledger == 0 || ledger > LARGEST_LEDGER {
            return None;
        }
        if total > LARGEST_TOTAL {
            return None;
        }
        Some(Limits {
            history,
            ledger,
            total,
        })
    }

    /// Returns the same limits.
    pub fn copy(&self) -> Limits
        ensures value { result ≡ self.now }
    {
        Limits {
            history: self.history,
            ledger: self.ledger,
            total: self.total,
        }
    }

    /// Returns the greatest number of events of a history, at most 2^20.
    pub fn history(&self) -> u64
        ensures value { result ≡ self.now.history }
        ensures limits { IsLimits self.now }
    {
        self.history
    }

    /// Returns the greatest number of hits of a link that a worker may hold, 1 to 2^20.
    pub fn ledger(&self) -> u64
        ensures value { result ≡ self.now.ledger }
        ensures limits { IsLimits self.now }
    {
        self.ledger
    }

    /// Returns the greatest number of hits of a link that the totals may hold, at most 2^40.
    pub fn total(&self) -> u64
        ensures value { result ≡ self.now.total }
        ensures limits { IsLimits self.now }
    {
        self.total
    }
}
