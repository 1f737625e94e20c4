//! An office that threads share.

ghost use Rattle.std.specs.Prelude.{◌≡◌, ◌⊎◌, ◌++◌, ◌∷◌, [], List, IfErr, IfOk, OnErr, OnOk};
ghost use mathlib.Core.List.{IsPrefix};
ghost use Rattle.mh_ledger.specs.Ledgers.{settled};
ghost use Rattle.mh_site.specs.Controls.{Relinked};
ghost use Rattle.mh_site.specs.declared.control.Control.{Control};
ghost use Rattle.mh_site.specs.declared.control.Control.TheVariants.{Target, Invalidate, Install};
ghost use Rattle.mh_core.specs.Records.{hits_in};
ghost use Rattle.mh_core.specs.declared.record.Record.TheVariants.{Flushed, Installed, Invalidated, Published, Snapped, Targeted};
ghost use Rattle.mh_live.specs.Receipts.{IsFlushRefusal, IsNoProblem, IsProblem, IsReceipt, IsRefusal};
ghost use Rattle.mh_live.specs.Settled.{IsUnsettled, Settles};

use crate::flush_fault::FlushFault;
use crate::front::ListName;
use crate::office::Office;
use crate::pass::Pass;
use crate::receipt::Receipt;
use crate::roll_call::{compare_all, unflushed_hits};
use crate::settled::{Settled, Unsettled};
use mh_core::{Refusal, SharedPlan};
use mh_network::Problem;
use mh_site::Listing;
use mh_tree::Declared;
use std::alloc::Global;
use std::fmt;
use std::sync::{Mutex, MutexGuard, Wait};

/// An office that many threads share. One thread at a time, under a lock, changes the world that
/// all passes read.
///
/// A method with a parameter `rt` may wait for the lock. One that changes the world also waits for
/// the passes that are inside a call.
#[derive(Drop)]
pub struct Live<N: ListName> {
    office: Mutex<Office<N>>,
}

/// Shows only the name of the type: its content is under its lock.
impl<N: ListName> fmt::Debug for Live<N> {
    fn fmt<W: fmt::Write>(&self, f: &mut fmt::Formatter<W>) -> fmt::Result {
        f.write_str("Live")
    }
}

impl<N: ListName> Live<N> {
    /// Returns the office, behind a lock.
    pub(crate) fn new(office: Office<N>) -> Live<N> {
        Live {
            office: Mutex::new(office),
        }
    }

    /// Locks the office, which no other thread enters until the result is dropped. Use it to read
    /// one state of the office, such as its book or whether it is closed, or to make several
    /// changes with nothing between them. Its methods say which records they append. While a thread
    /// has it, the thread must not call any method of this type with a parameter `rt`, which would
    /// wait for itself.
    pub fn office<R: Wait>(&self, rt: &R) -> MutexGuard<'_, Office<N>> {
        self.office.lock(rt)
    }

    /// Gives a site another tree (`MutableCallSite.setTarget`). The receipt's list ends with this
    /// control: a pass that learns the receipt sees it.
    ///
    /// Fails with
    /// - `NoSite` if the site, or a site that the tree invokes, does not exist;
    /// - `WrongType` if the tree is not of the site's type, or invokes a site with a type other
    ///   than that site's;
    /// - `NoPoint` if the tree names a point that does not exist;
    /// - `WrongLevel` if the tree invokes a site whose level is not below the site's;
    /// - `HistoryFull`, and otherwise only with `NoMemory`.
    ///
    /// On failure, nothing is recorded, and passes read what they read before. If memory ran out
    /// during the publication, each later control fails with `NoMemory`, too.
    pub fn set_target<R: Wait>(
        &self,
        rt: &R,
        site: usize,
        tree: Declared,
    ) -> Result<Receipt<N>, Refusal>
        ensures receipt { IfOk result (IsReceipt N.definition N.limits (Targeted site tree)) }
        ensures ends { IfOk result (λ r. (before : List Control)
            × (r.front ≡ before ++ Target record { site = site; tree = tree } ∷ [])) }
        ensures refused { IfErr result (IsRefusal N.definition N.limits (Targeted site tree)) }
    {
        self.office.lock(rt).target(rt, site, tree)
    }

    /// Invalidates points (`SwitchPoint.invalidateAll`). The list may be empty, and points may be
    /// invalid already. The receipt's list ends with this control.
    ///
    /// Fails with `NoPoint` if one of the points does not exist, with `HistoryFull`, and otherwise
    /// with `NoMemory`, as `set_target` does.
    pub fn invalidate<R: Wait>(&self, rt: &R, points: Listing<u32>) -> Result<Receipt<N>, Refusal>
        ensures receipt { IfOk result (IsReceipt N.definition N.limits (Invalidated points)) }
        ensures ends { IfOk result (λ r. (before : List Control)
            × (r.front ≡ before ++ Invalidate points ∷ [])) }
        ensures refused { IfErr result (IsRefusal N.definition N.limits (Invalidated points)) }
    {
        self.office.lock(rt).invalidate(rt, points)
    }

    /// Takes a snapshot of the totals and of the validity of the points. The receipt has its
    /// number, from 1.
    ///
    /// Fails with `HistoryFull`, also if there are 1,024 snapshots, with `GainTooLarge` if the sum
    /// of the gains of its problem would exceed 2^62, and otherwise only with `NoMemory`; then
    /// nothing changes.
    pub fn snapshot<R: Wait>(&self, rt: &R) -> Result<Receipt<N>, Refusal>
        ensures receipt { IfOk result (IsReceipt N.definition N.limits Snapped) }
        ensures refused { IfErr result (IsRefusal N.definition N.limits Snapped) }
    {
        self.office.lock(rt).snapshot()
    }

    /// Returns the problem of the snapshot with this number.
    ///
    /// Fails with `NoSnapshot` if there is no such snapshot, and otherwise only with `NoMemory`.
    pub fn problem<R: Wait>(&self, rt: &R, snapshot: usize) -> Result<Problem, Refusal>
        ensures problem { IfOk result (IsProblem N.definition N.limits snapshot) }
        ensures refused { IfErr result (IsNoProblem N.definition N.limits snapshot) }
    {
        self.office.lock(rt).book().problem(snapshot)
    }

    /// Publishes a plan for the problem of a snapshot. The receipt has the plan and its number,
    /// from 1.
    ///
    /// Fails with `NoSnapshot`, with `PlanRefused` if the checker rejects the plan, with
    /// `HistoryFull`, also if there are 1,024 plans, and otherwise with `NoMemory`. If the checker
    /// finds no memory, `NoMemory` is reported in place of `PlanRefused` and `HistoryFull`. On
    /// failure, nothing changes.
    pub fn publish<R: Wait>(
        &self,
        rt: &R,
        snapshot: usize,
        plan: SharedPlan,
    ) -> Result<Receipt<N>, Refusal>
        ensures receipt { IfOk result (IsReceipt N.definition N.limits (Published snapshot plan)) }
        ensures refused { IfErr result (IsRefusal N.definition N.limits (Published snapshot plan)) }
    {
        self.office.lock(rt).publish(snapshot, plan)
    }

    /// Installs the newest plan. The receipt has the result for each site that has a link in the
    /// plan or currently holds links, and its list ends with this control.
    ///
    /// Fails with `NoPlan`, with `OldPlan` if a newer plan was published, with `HistoryFull`, and
    /// otherwise with `NoMemory`, as `set_target` does.
    pub fn install<R: Wait>(&self, rt: &R, plan: usize) -> Result<Receipt<N>, Refusal>
        ensures receipt { IfOk result (IsReceipt N.definition N.limits (Installed plan)) }
        ensures ends { IfOk result (λ r. (before : List Control) × (changes : List Relinked)
            × (r.front ≡ before ++ Install changes ∷ [])) }
        ensures refused { IfErr result (IsRefusal N.definition N.limits (Installed plan)) }
    {
        self.office.lock(rt).install(rt, plan)
    }

    /// Adds the unflushed hits of a pass to the totals. The pass learns the receipt.
    ///
    /// Fails with `NotHeld` if the totals do not hold the pass's ledger, with `HistoryFull`, with
    /// `TotalTooLarge` if some total would exceed its limit, and otherwise only with `NoMemory`;
    /// then nothing changes.
    pub fn flush<R: Wait>(&self, rt: &R, pass: &mut Pass<N>) -> Result<Receipt<N>, FlushFault>
        ensures receipt { IfOk result
            (IsReceipt N.definition N.limits (Flushed pass.old.ledger.worker
            (hits_in pass.old.ledger.unflushed))) }
        ensures ledger { OnOk result (pass.new.ledger ≡ settled pass.old.ledger) }
        ensures seen { OnOk result (IsPrefix pass.old.seen pass.new.seen) }
        ensures learnt { IfOk result (λ r. IsPrefix r.front pass.new.seen) }
        ensures entered { OnOk result (pass.new.entered ≡ pass.old.entered) }
        ensures one { IfOk result (λ r. (pass.new.seen ≡ pass.old.seen)
            ⊎ (pass.new.seen ≡ r.front)) }
        ensures refused { IfErr result (IsFlushRefusal N.definition N.limits N.workers pass.old.ledger) }
        ensures kept { OnErr result (pass.new ≡ pass.old) }
    {
        let receipt = self.office.lock(rt).flush(&mut pass.ledger)?;
        pass.learn(&receipt);
        Ok(receipt)
    }

    /// Ends the office once all passes are returned, in any order, and waits until the last readers
    /// have left. For each link, the hits that the passes made are its total and the hits that they
    /// have not flushed.
    ///
    /// Fails with `MissingPass` if the pass of a worker is missing, is there twice, or has a ledger
    /// that the totals do not hold, and otherwise only with `NoMemory`; then everything is handed
    /// back unchanged.
    pub fn settle<R: Wait>(
        self,
        rt: &R,
        alloc: Global,
        passes: Vec<Pass<N>>,
    ) -> Result<Settled<N>, Unsettled<N>>
        ensures sums { IfOk result (Settles N.definition passes.items) }
        ensures refused { IfErr result (λ u. IsUnsettled N.definition N.limits N.workers
            passes.items u.fault) }
        ensures kept { IfErr result (λ u. u.passes ≡ passes) }
    {
        let Live { office } = self;
        let office = office.into_inner();
        compare_all(passes.as_slice(), office.front());
        match unflushed_hits(alloc, &office, passes.as_slice()) {
            Ok(unflushed) => {
                let (book, front) = office.close(rt);
                Ok(Settled::new(book, unflushed, front))
            }
            Err(fault) => Err(Unsettled {
                live: Live::new(office),
                passes,
                fault,
            }),
        }
    }
}
