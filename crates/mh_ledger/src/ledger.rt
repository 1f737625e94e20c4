//! Ledgers: per-worker counters of hits.

ghost use Rattle.std.specs.Prelude.{◌≡◌, ◌+◌, ◌<◌, ◌≤◌, ◌^◌, ◌↔◌, ℕ, List, length, replicate, slice_set, IfOk, OnOk, OnErr, IsTrue};
ghost use Rattle.std.specs.List.{All};
ghost use Rattle.mh_ledger.specs.Ledgers.{at, made, with_hit, settled, opened_ledger, AreHeld, Holds, IsLedger, LedgerState, TotalsState};
ghost use Rattle.mh_ledger.specs.Extensions.{extended_ledger, longer as with_zeros};
ghost use Rattle.mh_ledger.specs.Limits.{greatest_limit};
ghost use Rattle.mh_ledger.specs.Renewals.{renewed_ledger};
ghost use Rattle.mh_ledger.specs.Resumptions.{resumed_ledger, share_of_worker};

use crate::old_hits::{OldHits, lessen};
use crate::sums::{add, clear};
use mh_base::NoMemory;
use std::alloc::Global;
use std::marker::Model;
use thiserror::Error;

/// The greatest limit of a ledger and of totals: 2^62 hits of a link.
pub const LARGEST_LIMIT: u64 = 1 << 62;

/// The error that the unflushed hits of a link have reached their limit.
#[derive(Clone, Copy, Debug, PartialEq, Eq, Error)]
#[error("LedgerFull")]
pub struct LedgerFull;

/// The number of hits of each link by one worker's calls: the hits that it has flushed into the
/// totals, and those that it has not. A link is an entry of its site's inline cache, so these are
/// the counters of the entries of a polymorphic inline cache (Hölzle, Chambers, Ungar 1991), kept
/// for each worker separately.
///
/// `Totals::open` makes ledgers, and `Totals::flush` moves hits. No public method of a ledger
/// allocates.
#[derive(Debug, Drop)]
pub struct Ledger {
    worker: usize,
    limit: u64,
    unflushed: Vec<u64>,
    flushed: Vec<u64>,
}

impl Model for Ledger {
    ghost use Rattle.mh_ledger.specs.Ledgers.{LedgerState, IsLedger};
    ghost use Rattle.mh_ledger.specs.Codes.{coded_ledger};

    ghost Value = { LedgerState };

    ghost coded = { coded_ledger };

    ghost view = { λ l. record {
      worker = l.worker;
      limit = l.limit;
      unflushed = l.unflushed.items;
      flushed = l.flushed.items;
    } };

    ghost invariant = { λ l. IsLedger record {
      worker = l.worker;
      limit = l.limit;
      unflushed = l.unflushed.items;
      flushed = l.flushed.items;
    } };
}

impl Ledger {
    // Returns the ledger of a worker, without hits.
    pub(crate) fn open(
        alloc: Global,
        worker: usize,
        links: usize,
        limit: u64,
    ) -> Result<Ledger, NoMemory>
        requires limit { limit ≤ greatest_limit }
        ensures value { IfOk result (λ l. l ≡ opened_ledger links limit worker) }
    {
        Ok(Ledger {
            worker,
            limit,
            unflushed: zeros(alloc, links)?,
            flushed: zeros(alloc, links)?,
        })
    }

    // Returns the ledger of a worker, if these hits of each link were counted and flushed earlier,
    // all by the first worker.
    pub(crate) fn resume(
        alloc: Global,
        worker: usize,
        hits: &[u64],
        limit: u64,
    ) -> Result<Ledger, NoMemory>
        requires limit { limit ≤ greatest_limit }
        requires hits { All (λ n. n ≤ greatest_limit) hits.now }
        ensures value { IfOk result (λ l. l ≡ resumed_ledger hits.now limit worker) }
    {
        Ok(Ledger {
            worker,
            limit,
            unflushed: zeros(alloc, hits.len())?,
            flushed: resumed_share(alloc, worker, hits)?,
        })
    }

    /// Returns the number of its worker, from 0.
    pub fn worker(&self) -> usize
        ensures value { result ≡ self.now.worker }
        ensures ledger { IsLedger self.now }
    {
        self.worker
    }

    /// Returns the number of links.
    pub fn links(&self) -> usize
        ensures count { result ≡ length self.now.unflushed }
        ensures ledger { IsLedger self.now }
    {
        self.unflushed.len()
    }

    /// Returns the limit of unflushed hits of a link, at most `LARGEST_LIMIT`.
    pub fn limit(&self) -> u64
        ensures value { result ≡ self.now.limit }
        ensures ledger { IsLedger self.now }
    {
        self.limit
    }

    /// Returns the number of hits of a link since the last flush, at most the limit.
    pub fn unflushed(&self, link: usize) -> u64
        requires inside { link < length self.now.unflushed }
        ensures value { result ≡ at self.now.unflushed link }
        ensures ledger { IsLedger self.now }
    {
        self.unflushed[link]
    }

    /// Returns the number of hits since the last flush, of each link by number.
    pub fn unflushed_hits(&self) -> &[u64]
        ensures value { result.now ≡ self.now.unflushed }
        ensures ledger { IsLedger self.now }
    {
        self.unflushed.as_slice()
    }

    /// Returns the number of hits that were flushed, of each link by number.
    pub fn flushed_hits(&self) -> &[u64]
        ensures value { result.now ≡ self.now.flushed }
        ensures ledger { IsLedger self.now }
    {
        self.flushed.as_slice()
    }

    /// Returns the number of all hits of a link, flushed or not. A flush does not change it.
    pub fn made(&self, link: usize) -> u64
        requires inside { link < length self.now.unflushed }
        ensures value { result ≡ made self.now link }
    {
        self.flushed[link] + self.unflushed[link]
    }

    /// Returns whether the unflushed hits of a link have reached the limit, so that a further hit
    /// is refused.
    pub fn is_full(&self, link: usize) -> bool
        requires inside { link < length self.now.unflushed }
        ensures decides { IsTrue result ↔ (at self.now.unflushed link ≡ self.now.limit) }
    {
        self.unflushed[link] >= self.limit
    }

    /// Counts one more hit of a link. O(1).
    ///
    /// Fails if and only if the unflushed hits of the link have reached the limit, and then nothing
    /// changes. A ledger that totals hold remains held.
    pub fn hit(&mut self, link: usize) -> Result<(), LedgerFull>
        requires inside { link < length self.old.unflushed }
        ensures room { OnOk result (at self.old.unflushed link < self.old.limit) }
        ensures counted { OnOk result (self.new ≡ with_hit self.old link) }
        ensures held { (t : TotalsState) → Holds t self.old → Holds t self.new }
        ensures all { (t : TotalsState) → (ledgers : List LedgerState) → Holds t self.old
            → AreHeld t ledgers → AreHeld t (slice_set ledgers self.old.worker self.new) }
        ensures full { OnErr result (at self.old.unflushed link ≡ self.old.limit) }
        ensures same { OnErr result (self.new ≡ self.old) }
    {
        if self.is_full(link) {
            return Err(LedgerFull);
        }
        self.unflushed[link] += 1;
        Ok(())
    }

    // Moves the unflushed hits to the flushed ones.
    pub(crate) fn settle(&mut self)
        requires fits { (j : ℕ) → j < length self.old.unflushed → made self.old j ≤ greatest_limit }
        ensures value { self.new ≡ settled self.old }
    {
        add(&mut self.flushed, &self.unflushed);
        clear(&mut self.unflushed);
    }

    // Returns a copy of the ledger with `more` more links.
    pub(crate) fn extended(&self, alloc: Global, more: usize) -> Result<Ledger, NoMemory>
        ensures value { IfOk result (λ l. l ≡ extended_ledger more self.now) }
    {
        Ok(Ledger {
            worker: self.worker,
            limit: self.limit,
            unflushed: longer(alloc, &self.unflushed, more)?,
            flushed: longer(alloc, &self.flushed, more)?,
        })
    }

    // Begins a new history, with the part of the flushed hits that is kept.
    pub(crate) fn renew(&mut self, hits: OldHits)
        ensures value { self.new ≡ renewed_ledger hits self.old }
    {
        lessen(&mut self.flushed, hits);
    }
}

// Returns `count` zeros.
pub(crate) fn zeros(alloc: Global, count: usize) -> Result<Vec<u64>, NoMemory>
    ensures value { IfOk result (λ v. v.items ≡ replicate count 0) }
{
    Ok(vec![in alloc; 0; count]?)
}

// Returns the hits that a worker has flushed, if these hits were flushed earlier, all by the first
// worker.
pub(crate) fn resumed_share(
    alloc: Global,
    worker: usize,
    hits: &[u64],
) -> Result<Vec<u64>, NoMemory>
    ensures value { IfOk result (λ v. v.items ≡ share_of_worker hits.now worker) }
{
    if worker == 0 {
        Ok(Vec::from_slice(alloc, hits)?)
    } else {
        zeros(alloc, hits.len())
    }
}

// Returns these numbers followed by `more` zeros.
pub(crate) fn longer(alloc: Global, counts: &[u64], more: usize) -> Result<Vec<u64>, NoMemory>
    ensures value { IfOk result (λ v. v.items ≡ with_zeros more counts.now) }
{
    let mut all = Vec::from_slice(alloc, counts)?;
    for _link in 0..more {
        all.push(0)?;
    }
    Ok(all)
}
