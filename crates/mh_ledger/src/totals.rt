//! Totals: the flushed hits of all workers.

ghost use Rattle.std.specs.Prelude.{◌≡◌, ◌≢◌, ◌+◌, ◌<◌, ◌≤◌, ◌^◌, ◌↔◌, ℕ, List, length, map, replicate, slice_set, IfOk, OnOk, OnErr, IsTrue};
ghost use Rattle.std.specs.List.{All, range_with_len, sum_by};
ghost use Rattle.mh_ledger.specs.Ledgers.{at, ledger_at, made, opened_ledger, opened_totals, settled, flushed_into, share_of, AreHeld, FlushFits, Holds, IsLedger, IsTotals, LedgerState};
ghost use Rattle.mh_ledger.specs.Extensions.{extended_ledger, extended_totals, longer as with_zeros};
ghost use Rattle.mh_ledger.specs.Limits.{greatest_limit};
ghost use Rattle.mh_ledger.specs.Renewals.{left_of, renewed_ledger, renewed_totals};
ghost use Rattle.mh_ledger.specs.Resumptions.{resumed_ledger, resumed_totals, share_of_worker};

use crate::ledger::{Ledger, longer, resumed_share, zeros};
use crate::old_hits::{OldHits, lessen};
use crate::sums::{add, all_fit, subtract};
use mh_base::NoMemory;
use std::alloc::Global;
use std::marker::Model;
use thiserror::Error;

/// The error that some total would exceed its limit.
#[derive(Clone, Copy, Debug, PartialEq, Eq, Error)]
#[error("TotalTooLarge")]
pub struct TotalTooLarge;

/// The number of hits of each link by all workers' calls, as far as they have flushed.
///
/// The totals also store the hits that each worker has flushed, its share, so that each total is
/// the sum of the shares. A ledger is held if its worker's share is exactly what the ledger has
/// flushed: given one held ledger of each worker, each total is the sum of what these have flushed.
#[derive(Debug, Drop)]
pub struct Totals {
    limit: u64,
    totals: Vec<u64>,
    shares: Vec<Vec<u64>>,
}

impl Model for Totals {
    ghost use Rattle.mh_ledger.specs.Ledgers.{TotalsState, IsTotals};
    ghost use Rattle.mh_ledger.specs.Codes.{coded_totals};

    ghost Value = { TotalsState };

    ghost coded = { coded_totals };

    ghost use Rattle.mh_ledger.specs.Ledgers.{totals_state};

    ghost view = { totals_state };

    ghost invariant = { λ t. IsTotals (totals_state t) };
}

impl Totals {
    /// Returns totals of 0, and a ledger without hits for each worker, in order, all held. Both
    /// limits must be at most `LARGEST_LIMIT`. O(links * workers); later hits, flushes and renewals
    /// do not allocate.
    pub fn open(
        alloc: Global,
        links: usize,
        workers: usize,
        ledger_limit: u64,
        total_limit: u64,
    ) -> Result<(Totals, Vec<Ledger>), NoMemory>
        requires ledger { ledger_limit ≤ greatest_limit }
        requires total { total_limit ≤ greatest_limit }
        ensures totals { IfOk result (λ opened. opened.0
            ≡ opened_totals links workers total_limit) }
        ensures ledgers { IfOk result (λ opened. opened.1.items ≡ map
            (opened_ledger links ledger_limit) (range_with_len 0 workers)) }
        ensures held { IfOk result (λ opened. AreHeld opened.0 opened.1.items) }
    {
        let totals = Totals::zero(alloc, links, workers, total_limit)?;
        let ledgers = open_ledgers(alloc, links, workers, ledger_limit)?;
        Ok((totals, ledgers))
    }

    // Returns totals of 0.
    fn zero(alloc: Global, links: usize, workers: usize, limit: u64) -> Result<Totals, NoMemory>
        requires limit { limit ≤ greatest_limit }
        ensures value { IfOk result (λ t. t ≡ opened_totals links workers limit) }
    {
        Ok(Totals {
            limit,
            totals: zeros(alloc, links)?,
            shares: open_shares(alloc, links, workers)?,
        })
    }

    /// Returns totals that were counted earlier, and a ledger for each worker, in order, all held.
    /// The hits count as flushed by the first worker, and none is unflushed. Both limits must be at
    /// most `LARGEST_LIMIT`. O(links * workers); later hits, flushes and renewals do not allocate.
    pub fn resume(
        alloc: Global,
        hits: &[u64],
        workers: usize,
        ledger_limit: u64,
        total_limit: u64,
    ) -> Result<(Totals, Vec<Ledger>), NoMemory>
        requires worker { 0 < workers }
        requires ledger { ledger_limit ≤ greatest_limit }
        requires total { total_limit ≤ greatest_limit }
        requires within { All (λ n. n ≤ total_limit) hits.now }
        ensures totals { IfOk result (λ opened. opened.0
            ≡ resumed_totals hits.now workers total_limit) }
        ensures ledgers { IfOk result (λ opened. opened.1.items ≡ map
            (resumed_ledger hits.now ledger_limit) (range_with_len 0 workers)) }
        ensures held { IfOk result (λ opened. AreHeld opened.0 opened.1.items) }
    {
        let totals = Totals::counted(alloc, hits, workers, total_limit)?;
        let ledgers = resume_ledgers(alloc, hits, workers, ledger_limit)?;
        Ok((totals, ledgers))
    }

    // Returns totals that the first worker has flushed.
    fn counted(alloc: Global, hits: &[u64], workers: usize, limit: u64) -> Result<Totals, NoMemory>
        requires worker { 0 < workers }
        requires limit { limit ≤ greatest_limit }
        requires within { All (λ n. n ≤ limit) hits.now }
        ensures value { IfOk result (λ t. t ≡ resumed_totals hits.now workers limit) }
    {
        Ok(Totals {
            limit,
            totals: Vec::from_slice(alloc, hits)?,
            shares: resume_shares(alloc, hits, workers)?,
        })
    }

    /// Returns the number of links.
    pub fn links(&self) -> usize
        ensures count { result ≡ length self.now.total }
        ensures totals { IsTotals self.now }
    {
        self.totals.len()
    }

    /// Returns the number of workers.
    pub fn workers(&self) -> usize
        ensures count { result ≡ length self.now.shares }
        ensures totals { IsTotals self.now }
    {
        self.shares.len()
    }

    /// Returns the greatest number of hits of a link that the totals may hold, at most
    /// `LARGEST_LIMIT`.
    pub fn limit(&self) -> u64
        ensures value { result ≡ self.now.limit }
        ensures totals { IsTotals self.now }
    {
        self.limit
    }

    /// Returns the number of hits of a link that the workers have flushed: the sum of their shares,
    /// and so of what held ledgers have flushed, one of each worker.
    pub fn total(&self, link: usize) -> u64
        requires inside { link < length self.now.total }
        ensures value { result ≡ at self.now.total link }
        ensures shares { result ≡ sum_by (λ share. at share link) self.now.shares }
        ensures ledgers { (ledgers : List LedgerState) → AreHeld self.now ledgers
            → result ≡ sum_by (λ l. at l.flushed link) ledgers }
    {
        self.totals[link]
    }

    /// Returns the total of each link, by number.
    pub fn as_slice(&self) -> &[u64]
        ensures value { result.now ≡ self.now.total }
        ensures totals { IsTotals self.now }
    {
        self.totals.as_slice()
    }

    /// Returns whether the totals hold a ledger, that is, whether the share of its worker is
    /// exactly what this ledger has flushed of each link. O(links).
    pub fn holds(&self, ledger: &Ledger) -> bool
        ensures decides { IsTrue result ↔ Holds self.now ledger.now }
    {
        ledger.worker() < self.shares.len()
            && are_same(&self.shares[ledger.worker()], ledger.flushed_hits())
    }

    /// Returns whether no total would exceed the limit if this ledger were flushed. O(links).
    pub fn has_room(&self, ledger: &Ledger) -> bool
        requires held { Holds self.now ledger.now }
        ensures decides { IsTrue result ↔ FlushFits self.now ledger.now }
    {
        let _worker = ledger.worker();
        all_fit(&self.totals, ledger.unflushed_hits(), self.limit)
    }

    /// Adds the unflushed hits of a held ledger: each total rises by the ledger's unflushed hits of
    /// its link, and these become 0. The ledger stays held, and so do the ledgers of the other
    /// workers. It does not allocate. O(links).
    ///
    /// Fails if and only if some total would exceed the limit, and then nothing changes.
    pub fn flush(&mut self, ledger: &mut Ledger) -> Result<(), TotalTooLarge>
        requires held { Holds self.old ledger.old }
        ensures room { OnOk result (FlushFits self.old ledger.old) }
        ensures totals { OnOk result (self.new ≡ flushed_into self.old ledger.old) }
        ensures ledger { OnOk result (ledger.new ≡ settled ledger.old) }
        ensures rises { OnOk result ((j : ℕ) → at self.new.total j
            ≡ at self.old.total j + at ledger.old.unflushed j) }
        ensures emptied { OnOk result ((j : ℕ) → at ledger.new.unflushed j ≡ 0) }
        ensures made { OnOk result ((j : ℕ) → made ledger.new j ≡ made ledger.old j) }
        ensures held { Holds self.new ledger.new }
        ensures others { (l : LedgerState) → l.worker ≢ ledger.old.worker → Holds self.old l
            → Holds self.new l }
        ensures all { (ledgers : List LedgerState) → AreHeld self.old ledgers
            → AreHeld self.new (slice_set ledgers ledger.old.worker ledger.new) }
        ensures full { OnErr result (FlushFits self.old ledger.old → ⊥) }
        ensures same { OnErr result (self.new ≡ self.old) }
        ensures kept { OnErr result (ledger.new ≡ ledger.old) }
    {
        if !self.has_room(ledger) {
            return Err(TotalTooLarge);
        }
        self.take(ledger);
        ledger.settle();
        Ok(())
    }

    // Adds the unflushed hits of a ledger to the totals, and to its worker's share.
    fn take(&mut self, ledger: &Ledger)
        requires held { Holds self.old ledger.now }
        requires room { FlushFits self.old ledger.now }
        ensures value { self.new ≡ flushed_into self.old ledger.now }
        ensures totals { IsTotals self.old }
        ensures ledger { IsLedger ledger.now }
    {
        let hits = ledger.unflushed_hits();
        add(&mut self.totals, hits);
        add(&mut self.shares[ledger.worker()], hits);
    }

    /// Begins a new history, with held ledgers of all workers: each share, and the flushed hits of
    /// its ledger, are reduced to the part that is kept, and each total is the sum of the shares
    /// again. Unflushed hits of the ledgers are not changed. It does not allocate. O(links *
    /// workers).
    pub fn renew(&mut self, ledgers: &mut Vec<Ledger>, hits: OldHits)
        requires held { AreHeld self.old ledgers.old.items }
        ensures totals { self.new ≡ renewed_totals hits self.old }
        ensures ledgers { ledgers.new.items ≡ map (renewed_ledger hits) ledgers.old.items }
        ensures held { AreHeld self.new ledgers.new.items }
        ensures left { (j : ℕ) → at self.new.total j
            ≡ sum_by (λ share. left_of hits (at share j)) self.old.shares }
        ensures kept { hits ≡ OldHits.Keep
            → (self.new ≡ self.old) × (ledgers.new.items ≡ ledgers.old.items) }
    {
        self.lessen(hits);
        renew_all(ledgers, hits);
    }

    /// Returns copies of the totals and of held ledgers with `more` more links, which have no hits.
    /// O(links * workers); later hits, flushes and renewals do not allocate.
    pub fn extended(
        &self,
        alloc: Global,
        ledgers: &[Ledger],
        more: usize,
    ) -> Result<(Totals, Vec<Ledger>), NoMemory>
        requires held { AreHeld self.now ledgers.now }
        ensures totals { IfOk result (λ longer. longer.0 ≡ extended_totals more self.now) }
        ensures ledgers { IfOk result (λ longer. longer.1.items
            ≡ map (extended_ledger more) ledgers.now) }
        ensures held { IfOk result (λ longer. AreHeld longer.0 longer.1.items) }
    {
        let totals = self.longer(alloc, more)?;
        let ledgers = extend_ledgers(alloc, ledgers, more)?;
        Ok((totals, ledgers))
    }

    // Returns a copy of the totals with `more` more links.
    fn longer(&self, alloc: Global, more: usize) -> Result<Totals, NoMemory>
        ensures value { IfOk result (λ t. t ≡ extended_totals more self.now) }
    {
        Ok(Totals {
            limit: self.limit,
            totals: longer(alloc, &self.totals, more)?,
            shares: extend_shares(alloc, &self.shares, more)?,
        })
    }

    // Reduces each share to the part that is kept, and makes the totals their sums again.
    fn lessen(&mut self, hits: OldHits)
        ensures value { self.new ≡ renewed_totals hits self.old }
        ensures totals { IsTotals self.old }
    {
        for worker in 0..self.shares.len() {
            self.lessen_share(worker, hits);
        }
    }

    // Reduces a worker's share to the part that is kept, and subtracts the rest from the totals.
    fn lessen_share(&mut self, worker: usize, hits: OldHits)
        requires worker { worker < length self.old.shares }
        ensures limit { self.new.limit ≡ self.old.limit }
        ensures links { length self.new.total ≡ length self.old.total }
        ensures shares { self.new.shares ≡ slice_set self.old.shares worker
            (map (left_of hits) (share_of self.old worker)) }
        ensures totals { IsTotals self.new }
    {
        let share = &mut self.shares[worker];
        subtract(&mut self.totals, share);
        lessen(share, hits);
        add(&mut self.totals, share);
    }
}

// Begins a new history for each ledger.
fn renew_all(ledgers: &mut Vec<Ledger>, hits: OldHits)
    ensures value { ledgers.new.items ≡ map (renewed_ledger hits) ledgers.old.items }
{
    for worker in 0..ledgers.len() {
        ledgers[worker].renew(hits);
    }
}

// Returns a share of zeros for each worker.
fn open_shares(alloc: Global, links: usize, workers: usize) -> Result<Vec<Vec<u64>>, NoMemory>
    ensures value { IfOk result (λ v. map (λ share. share.items) v.items ≡ replicate workers
        (replicate links 0)) }
{
    let mut shares = Vec::new(alloc);
    for _worker in 0..workers {
        shares.push(zeros(alloc, links)?)?;
    }
    Ok(shares)
}

// Returns a ledger without hits for each worker.
fn open_ledgers(
    alloc: Global,
    links: usize,
    workers: usize,
    limit: u64,
) -> Result<Vec<Ledger>, NoMemory>
    requires limit { limit ≤ greatest_limit }
    ensures value { IfOk result (λ v. v.items ≡ map (opened_ledger links limit)
        (range_with_len 0 workers)) }
{
    let mut ledgers = Vec::new(alloc);
    for worker in 0..workers {
        ledgers.push(Ledger::open(alloc, worker, links, limit)?)?;
    }
    Ok(ledgers)
}

// Returns the hits that each worker has flushed, if these hits were flushed earlier, all by the
// first.
fn resume_shares(alloc: Global, hits: &[u64], workers: usize) -> Result<Vec<Vec<u64>>, NoMemory>
    ensures value { IfOk result (λ v. map (λ share. share.items) v.items ≡ map
        (share_of_worker hits.now) (range_with_len 0 workers)) }
{
    let mut shares = Vec::new(alloc);
    for worker in 0..workers {
        shares.push(resumed_share(alloc, worker, hits)?)?;
    }
    Ok(shares)
}

// Returns a ledger for each worker, if these hits were flushed earlier, all by the first.
fn resume_ledgers(
    alloc: Global,
    hits: &[u64],
    workers: usize,
    limit: u64,
) -> Result<Vec<Ledger>, NoMemory>
    requires limit { limit ≤ greatest_limit }
    requires hits { All (λ n. n ≤ greatest_limit) hits.now }
    ensures value { IfOk result (λ v. v.items ≡ map (resumed_ledger hits.now limit)
        (range_with_len 0 workers)) }
{
    let mut ledgers = Vec::new(alloc);
    for worker in 0..workers {
        ledgers.push(Ledger::resume(alloc, worker, hits, limit)?)?;
    }
    Ok(ledgers)
}

// Returns each share, followed by `more` zeros.
fn extend_shares(alloc: Global, shares: &[Vec<u64>], more: usize) -> Result<Vec<Vec<u64>>, NoMemory>
    ensures value { IfOk result (λ v. map (λ share. share.items) v.items
        ≡ map (with_zeros more) (map (λ share. share.items) shares.now)) }
{
    let mut all = Vec::new(alloc);
    for share in shares {
        all.push(longer(alloc, share, more)?)?;
    }
    Ok(all)
}

// Returns a copy of each ledger with `more` more links.
fn extend_ledgers(alloc: Global, ledgers: &[Ledger], more: usize) -> Result<Vec<Ledger>, NoMemory>
    ensures value { IfOk result (λ v. v.items ≡ map (extended_ledger more) ledgers.now) }
{
    let mut all = Vec::new(alloc);
    for ledger in ledgers {
        all.push(ledger.extended(alloc, more)?)?;
    }
    Ok(all)
}

// Returns whether two lists are equal.
fn are_same(some: &[u64], others: &[u64]) -> bool
    ensures value { IsTrue result ↔ (some.now ≡ others.now) }
{
    some == others
}
