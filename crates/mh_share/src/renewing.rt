//! Renewing a desk, which begins a new history.

ghost use Rattle.std.specs.Prelude.{◌≡◌, ◌<◌, ◌↔◌, ℕ, length, map, IfErr, IfOk, IsTrue, OnErr, OnOk};
ghost use Rattle.std.specs.List.{All, range_with_len};
ghost use Rattle.mh_base.specs.Tests.{Refuses};
ghost use Rattle.mh_ledger.specs.Ledgers.{AreHeld, ledger_at, opened_ledger};
ghost use Rattle.mh_ledger.specs.Renewals.{renewed_ledger};
ghost use Rattle.mh_site.specs.Links.{links as links_of};
ghost use Rattle.mh_core.specs.Renewals.{AreKnown, MeansTheSame, Renews, renewal_tests};
ghost use Rattle.mh_share.specs.Renewals.{IsOf, desk_tests, ledgers_of, renewed_caller, with_each, with_ledger};

use crate::caller::Caller;
use crate::desk::Desk;
use mh_core::{NoMemory, Refusal, Renewal};
use mh_ledger::{Ledger, Totals};

impl Desk {
    /// Begins a new history, as `Runtime::renew` does, with the callers of all workers, in their
    /// order; none of them can be in a call.
    ///
    /// - Each site's calls mean what they meant before. Sites, points and links keep their numbers.
    /// - The same points are valid, and also those that are to be valid again.
    /// - Callers continue with the worlds of their last looks, and get the new one with their first
    ///   look after the next `show`.
    /// - Hits that callers have not flushed stay with them, and count in the new history from their
    ///   next flush on.
    ///
    /// Fails with `NoWorker` if these are not the callers of this desk, one of each worker in
    /// order, and otherwise as `Runtime::renew` does, except that `NoMemory` may come first; then
    /// nothing changes.
    pub fn renew(&mut self, callers: &mut Vec<Caller>, renewal: Renewal<'_>) -> Result<(), Refusal>
        ensures held { OnOk result (AreHeld self.old.book.totals (ledgers_of callers.old.items)) }
        ensures passes { OnOk result (length callers.old.items < self.old.book.limits.history) }
        ensures known { OnOk result (AreKnown self.old.book.definition renewal.entry.again.now) }
        ensures renewed { OnOk result (Renews renewal.entry.again.now renewal.entry.hits
            self.old.book self.new.book) }
        ensures means { OnOk result (MeansTheSame renewal.entry.again.now self.old.book
            self.new.book) }
        ensures links { OnOk result (links_of self.new.book.definition
            ≡ links_of self.old.book.definition) }
        ensures callers { OnOk result (callers.new.items
            ≡ map (renewed_caller renewal.entry.hits) callers.old.items) }
        ensures all { OnOk result (AreHeld self.new.book.totals (ledgers_of callers.new.items)) }
        ensures shown { self.new.shown ≡ self.old.shown }
        ensures refused { IfErr result (λ told. Refuses
            (desk_tests self.old.book (ledgers_of callers.old.items) renewal.entry.again.now)
            told) }
        ensures kept { OnErr result ((self.new ≡ self.old)
            × (callers.new.items ≡ callers.old.items)) }
    {
        if !self.has_all(callers) {
            return Err(Refusal::NoWorker);
        }
        let Ok(mut ledgers) = self.spare_ledgers() else {
            return Err(Refusal::NoMemory);
        };
        exchange_all(callers, &mut ledgers);
        let answer = self.renew_over(&mut ledgers, renewal);
        exchange_all(callers, &mut ledgers);
        answer
    }

    /// Begins a new history, as `renew` does, with the ledgers of all callers in place of the
    /// callers.
    pub fn renew_over(
        &mut self,
        ledgers: &mut Vec<Ledger>,
        renewal: Renewal<'_>,
    ) -> Result<(), Refusal>
        requires held { AreHeld self.old.book.totals ledgers.old.items }
        ensures passes { OnOk result (length ledgers.old.items < self.old.book.limits.history) }
        ensures known { OnOk result (AreKnown self.old.book.definition renewal.entry.again.now) }
        ensures renewed { OnOk result (Renews renewal.entry.again.now renewal.entry.hits
            self.old.book self.new.book) }
        ensures means { OnOk result (MeansTheSame renewal.entry.again.now self.old.book
            self.new.book) }
        ensures links { OnOk result (links_of self.new.book.definition
            ≡ links_of self.old.book.definition) }
        ensures ledgers { OnOk result (ledgers.new.items
            ≡ map (renewed_ledger renewal.entry.hits) ledgers.old.items) }
        ensures held { AreHeld self.new.book.totals ledgers.new.items }
        ensures shown { self.new.shown ≡ self.old.shown }
        ensures refused { IfErr result (λ told. Refuses
            (renewal_tests self.old.book.definition self.old.book.limits
            (length ledgers.old.items) renewal.entry.again.now) told) }
        ensures same { OnErr result (self.new ≡ self.old) }
        ensures kept { OnErr result (ledgers.new.items ≡ ledgers.old.items) }
    {
        self.book.renew(ledgers, renewal)
    }

    /// Returns whether a ledger is that of this worker, and the desk holds it.
    pub fn is_of(&self, worker: usize, ledger: &Ledger) -> bool
        ensures decides { IsTrue result ↔ IsOf self.now.book worker ledger.now }
        ensures links { IsTrue result → length ledger.now.unflushed
            ≡ length self.now.book.totals.total }
    {
        // Names the invariants of the ledger and of the totals for the proof.
        let (_limit, _most) = (ledger.limit(), self.book.totals().limit());
        ledger.worker() == worker && self.book.holds(ledger)
    }

    /// Returns for each worker a ledger, with as many links as there are, that counts no hit: a
    /// caller has it while its own is elsewhere. Fails only if an allocation is refused.
    pub fn spare_ledgers(&self) -> Result<Vec<Ledger>, NoMemory>
        ensures value { IfOk result (λ ledgers. ledgers.items ≡ map
            (opened_ledger (length self.now.book.totals.total) 0)
            (range_with_len 0 (length self.now.book.totals.shares))) }
        ensures count { IfOk result (λ ledgers. length ledgers.items
            ≡ length self.now.book.totals.shares) }
        ensures links { IfOk result (λ ledgers. All (λ l. length l.unflushed
            ≡ length self.now.book.totals.total) ledgers.items) }
    {
        let totals = self.book.totals();
        let (_totals, ledgers) = Totals::open(self.alloc, totals.links(), totals.workers(), 0, 0)?;
        Ok(ledgers)
    }

    // Returns whether these are the callers of all workers, in order, whose ledgers the desk holds.
    fn has_all(&self, callers: &[Caller]) -> bool
        ensures decides { IsTrue result
            ↔ AreHeld self.now.book.totals (ledgers_of callers.now) }
        ensures links { IsTrue result → (w : ℕ) → w < length callers.now
            → length (ledger_at (ledgers_of callers.now) w).unflushed
            ≡ length self.now.book.totals.total }
    {
        if callers.len() != self.book.totals().workers() {
            return false;
        }
        for worker in 0..callers.len() {
            if !self.is_of(worker, callers[worker].ledger()) {
                return false;
            }
        }
        true
    }
}

// Exchanges the ledger of each caller for the one at its index.
fn exchange_all(callers: &mut Vec<Caller>, ledgers: &mut Vec<Ledger>)
    requires count { length ledgers.old.items ≡ length callers.old.items }
    requires links { (w : ℕ) → w < length callers.old.items
        → length (ledger_at ledgers.old.items w).unflushed
        ≡ length (ledger_at (ledgers_of callers.old.items) w).unflushed }
    ensures callers { callers.new.items ≡ with_each with_ledger callers.old.items ledgers.old.items }
    ensures ledgers { ledgers.new.items ≡ ledgers_of callers.old.items }
{
    for worker in 0..callers.len() {
        callers[worker].exchange(&mut ledgers[worker]);
    }
}
