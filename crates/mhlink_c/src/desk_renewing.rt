//! Renewals of desks with all their callers.

ghost use Rattle.std.specs.Prelude.{◌≡◌, ◌≢◌, ◌<◌, ◌↔◌, ℕ, length, true, IfErr, IsTrue, OnErr, OnOk};
ghost use Rattle.std.specs.List.{All};
ghost use Rattle.mh_ledger.specs.Ledgers.{AreHeld, ledger_at};
ghost use Rattle.mh_share.specs.Renewals.{IsOf, with_each};
ghost use Rattle.mhlink_c.specs.Callers.{with_ledger};
ghost use Rattle.mhlink_c.specs.DeskRenewals.{DeskBeginsAnew, IsRenewedDesk, RefusesDeskAnew, RefusesDeskRenewal, callers_of, ledgers_of};
ghost use Rattle.mhlink_c.specs.Statuses.{status_of};
ghost use Rattle.mhlink_c.specs.declared.failure.Failure.{Failure as FaultOf};

use crate::caller_handle::MhlinkCaller;
use crate::desk::HeldDesk;
use crate::desk_handle::MhlinkDesk;
use crate::failure::{Failure, status};
use crate::renewing::old_hits;
use core::mem::replace;
use mh_core::{Refusal, Renewal};
use mh_share::Ledger;
use std::alloc::Global;

impl HeldDesk {
    /// Begins a new history with all callers, in which these points are valid again. The number
    /// selects the part of the flushed hits that is kept.
    fn renew(
        &mut self,
        alloc: Global,
        callers: &mut [MhlinkCaller],
        again: &[u32],
        hits: u32,
    ) -> Result<(), Failure>
        requires full { All (λ h. h.full ≡ true) callers.old }
        ensures full { All (λ h. h.full ≡ true) callers.new }
        ensures renewed { OnOk result (IsRenewedDesk self.old (callers_of callers.old) again.now
            hits self.new (callers_of callers.new)) }
        ensures refused { IfErr result (RefusesDeskRenewal self.old (callers_of callers.old)
            again.now hits) }
        ensures kept { OnErr result ((self.new ≡ self.old)
            × (callers_of callers.new ≡ callers_of callers.old)) }
    {
        let hits = old_hits(hits)?;
        self.begin_anew(alloc, callers, Renewal { again, hits })
    }

    // Begins a new history with all callers.
    fn begin_anew(
        &mut self,
        alloc: Global,
        callers: &mut [MhlinkCaller],
        renewal: Renewal<'_>,
    ) -> Result<(), Failure>
        requires full { All (λ h. h.full ≡ true) callers.old }
        ensures full { All (λ h. h.full ≡ true) callers.new }
        ensures renewed { OnOk result (DeskBeginsAnew self.old (callers_of callers.old)
            renewal.entry.again.now renewal.entry.hits self.new (callers_of callers.new)) }
        ensures refused { IfErr result (RefusesDeskAnew self.old (callers_of callers.old)
            renewal.entry.again.now) }
        ensures kept { OnErr result ((self.new ≡ self.old)
            × (callers_of callers.new ≡ callers_of callers.old)) }
    {
        if !self.has_all(alloc, callers) {
            return Err(Failure::Refused(Refusal::NoWorker));
        }
        let mut ledgers = self.desk.spare_ledgers()?;
        exchange_all(alloc, callers, &mut ledgers);
        let answer = self.desk.renew_over(&mut ledgers, renewal);
        exchange_all(alloc, callers, &mut ledgers);
        // Reading a book names its invariants for the proof.
        self.desk.book().kept();
        Ok(answer?)
    }

    // Returns whether these are the callers of all workers, in order, whose ledgers the desk holds.
    fn has_all(&self, alloc: Global, callers: &mut [MhlinkCaller]) -> bool
        requires full { All (λ h. h.full ≡ true) callers.old }
        ensures full { All (λ h. h.full ≡ true) callers.new }
        ensures same { callers_of callers.new ≡ callers_of callers.old }
        ensures decides { IsTrue result
            ↔ AreHeld self.now.desk.book.totals (ledgers_of (callers_of callers.old)) }
        ensures links { IsTrue result → (w : ℕ) → w < length callers.old
            → length (ledger_at (ledgers_of (callers_of callers.old)) w).unflushed
            ≡ length self.now.desk.book.totals.total }
    {
        if callers.len() != self.desk.book().totals().workers() {
            return false;
        }
        for worker in 0..callers.len() {
            if !self.is_of(alloc, worker, &mut callers[worker]) {
                return false;
            }
        }
        true
    }

    // Returns whether a caller is that of this worker, and the desk holds its ledger.
    fn is_of(&self, alloc: Global, worker: usize, caller: &mut MhlinkCaller) -> bool
        requires full { caller.old.full ≡ true }
        ensures full { caller.new.full ≡ true }
        ensures same { caller.new.value ≡ caller.old.value }
        ensures decides { IsTrue result
            ↔ IsOf self.now.desk.book worker caller.old.value.caller.ledger }
        ensures links { IsTrue result → length caller.old.value.caller.ledger.unflushed
            ≡ length self.now.desk.book.totals.total }
    {
        let held = replace(caller, MhlinkCaller::hollow(alloc)).into_box();
        let is_of = self.desk.is_of(worker, held.caller.ledger());
        *caller = MhlinkCaller::of(held);
        is_of
    }
}

// Replaces the ledger of each caller by the one with its index.
fn exchange_all(alloc: Global, callers: &mut [MhlinkCaller], ledgers: &mut Vec<Ledger>)
    requires full { All (λ h. h.full ≡ true) callers.old }
    requires count { length ledgers.old.items ≡ length callers.old }
    requires links { (w : ℕ) → w < length callers.old
        → length (ledger_at ledgers.old.items w).unflushed
        ≡ length (ledger_at (ledgers_of (callers_of callers.old)) w).unflushed }
    ensures full { All (λ h. h.full ≡ true) callers.new }
    ensures callers { callers_of callers.new
        ≡ with_each with_ledger (callers_of callers.old) ledgers.old.items }
    ensures ledgers { ledgers.new.items ≡ ledgers_of (callers_of callers.old) }
{
    for worker in 0..callers.len() {
        exchange(alloc, &mut callers[worker], &mut ledgers[worker]);
    }
}

// Replaces the ledger of a caller by one of as many links.
fn exchange(alloc: Global, caller: &mut MhlinkCaller, ledger: &mut Ledger)
    requires full { caller.old.full ≡ true }
    requires links { length ledger.old.unflushed
        ≡ length caller.old.value.caller.ledger.unflushed }
    ensures full { caller.new.full ≡ true }
    ensures caller { caller.new.value ≡ with_ledger caller.old.value ledger.old }
    ensures ledger { ledger.new ≡ caller.old.value.caller.ledger }
{
    let mut held = replace(caller, MhlinkCaller::hollow(alloc)).into_box();
    held.caller.exchange(ledger);
    *caller = MhlinkCaller::of(held);
}

/// Begins a new history of a desk, as `mhlink_renew` does of a machine, with the callers of all its
/// workers, in order, none of which is in a call. They keep the states of their last looks, and use
/// the new one from their next look after a show on. Their unflushed hits stay with them.
///
/// Fails as unknown if `hits` is another number, with 13 if these are not the callers of this desk,
/// one of each worker in order, and then as `mhlink_renew` does, where memory may run out first;
/// the desk and the callers do not change.
#[unsafe(no_mangle)]
pub extern "C" fn mhlink_desk_renew(
    alloc: Global,
    desk: &mut MhlinkDesk,
    callers: &mut [MhlinkCaller],
    again: &[u32],
    hits: u32,
) -> u32
    requires full { (desk.old.full ≡ true) × All (λ h. h.full ≡ true) callers.old }
    ensures full { (desk.new.full ≡ true) × All (λ h. h.full ≡ true) callers.new }
    ensures renewed { result ≡ 0 → IsRenewedDesk desk.old.value (callers_of callers.old) again.now
        hits desk.new.value (callers_of callers.new) }
    ensures refused { result ≢ 0 → (e : FaultOf) × ((result ≡ status_of e)
        × RefusesDeskRenewal desk.old.value (callers_of callers.old) again.now hits e) }
    ensures kept { result ≢ 0 → (desk.new.value ≡ desk.old.value)
        × (callers_of callers.new ≡ callers_of callers.old) }
{
    let mut held = replace(desk, MhlinkDesk::hollow(alloc)).into_box();
    let answer = held.renew(alloc, callers, again, hits);
    *desk = MhlinkDesk::of(held);
    status(answer)
}
