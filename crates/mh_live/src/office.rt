//! A book with the writer of the published world.

ghost use Rattle.std.specs.Prelude.{◌≡◌, ◌⊎◌, ◌+◌, ◌<◌, ◌++◌, ◌∷◌, ◌^◌, [], ℕ, List, false, true, drop, fold, length, slice_set, IfErr, IfOk, MatchBool, MatchResult, OnErr, OnOk};
ghost use Rattle.mh_ledger.specs.Ledgers.{AreHeld, Holds, IsTotals, LedgerState, settled};
ghost use Rattle.mh_core.specs.Pending.{IsReady};
ghost use Rattle.mh_core.specs.Records.{hits_in};
ghost use Rattle.mh_core.specs.declared.record.Record.TheVariants.{Flushed, Installed, Invalidated, Published, Snapped, Targeted};
ghost use Rattle.mh_live.specs.Offices.{list_of};
ghost use Rattle.mh_live.specs.Receipts.{Accepts, Changes, ChangesWorld, IsLegalFault, IsLegalRefusal, IsOffice, IsUntouched, MayClose};
ghost use Rattle.mh_live.specs.Rules.{Stands};

use crate::flush_fault::FlushFault;
use crate::front::{Front, Head, ListName};
use crate::publishing::{Halt, show};
use crate::receipt::Receipt;
use crate::rule::WorldWriter;
use mh_core::{Book, PendingChange, Record, Refusal, Reply, SharedPlan};
use mh_ledger::Ledger;
use mh_site::Listing;
use mh_tree::Declared;
use std::fmt;
use std::marker::Model;
use std::mem::ManuallyDrop;
use std::sync::Wait;

/// A book with the writer of the published world. A change of the world is published in one step,
/// and then recorded in the book. End it with `close`: a drop leaks the published world, since it
/// may not wait for readers.
pub struct Office<N: ListName> {
    book: Book,
    head: Head<N>,
    front: Front<N>,
    writer: WorldWriter<N>,
    closed: bool,
}

impl<N: ListName> Model for Office<N> {
    ghost use Rattle.std.specs.Prelude.{drop};
    ghost use Rattle.mh_live.specs.Offices.{OfficeState, InStep, coded_office};

    ghost Value = { OfficeState };

    ghost coded = { coded_office };

    ghost view = { λ o. record {
      book = o.book;
      published = o.writer.desk.shown.value.past.log;
      closed = o.closed;
    } };

    ghost invariant = { λ o. InStep N.book N.definition N.limits N.workers o.writer.desk.shown.value (drop o.writer.behind o.writer.log.items) o.front o.book o.closed };
}

/// Shows its book.
impl<N: ListName> fmt::Debug for Office<N> {
    fn fmt<W: fmt::Write>(&self, f: &mut fmt::Formatter<W>) -> fmt::Result {
        write!(f, "Office({:?})", self.book)
    }
}

impl<N: ListName> Drop for Office<N> {
    fn drop(self) {
        let Self {
            book: _,
            head: _,
            front: _,
            writer,
            closed: _,
        } = self;
        leak(writer);
    }
}

/// Gives a writer up without waiting. Its two worlds are leaked.
pub fn leak<N: ListName>(writer: WorldWriter<N>) {
    let _leaked = unsafe { ManuallyDrop::new_unchecked(writer) };
}

impl<N: ListName> Office<N> {
    /// Returns the office of a book without records, and of the world before any control.
    pub(crate) fn new(
        book: Book,
        head: Head<N>,
        front: Front<N>,
        writer: WorldWriter<N>,
    ) -> Office<N>
        requires book { (book.records ≡ []) × (book.definition ≡ N.definition)
            × (book.limits ≡ N.limits) × (length book.totals.shares ≡ N.workers) }
        requires front { front ≡ [] }
        requires writer { Stands N.book N.definition writer.desk.shown.value
            × (writer.desk.shown.value.past.log ≡ []) × (drop writer.behind writer.log.items ≡ []) }
        ensures value { (result.book ≡ book) × (result.published ≡ []) × (result.closed ≡ false) }
    {
        Office {
            book,
            head,
            front,
            writer,
            closed: false,
        }
    }

    /// Returns the book.
    pub fn book(&self) -> &Book
        ensures value { result.now ≡ self.now.book }
        ensures office { IsOffice N.definition N.limits N.workers self.now }
    {
        self.book.kept();
        let _front = &self.front;
        &self.book
    }

    /// Returns the list of controls that passes read, which is that of the records.
    pub fn front(&self) -> &Front<N>
        ensures value { result.now ≡ self.now.published }
    {
        &self.front
    }

    /// Returns whether a publication failed after it had begun. From then on no control is
    /// accepted.
    pub fn closed(&self) -> bool
        ensures value { result ≡ self.now.closed }
    {
        self.closed
    }

    /// Adds the unflushed hits of a ledger to the totals. It changes no world, and publishes
    /// nothing.
    ///
    /// Fails with `NotHeld` if the totals do not hold the ledger, and otherwise as the book does;
    /// then nothing changes.
    pub fn flush(&mut self, ledger: &mut Ledger) -> Result<Receipt<N>, FlushFault>
        ensures office { IsOffice N.definition N.limits N.workers self.old }
        ensures totals { IsTotals self.old.book.totals }
        ensures held { OnOk result (Holds self.old.book.totals ledger.old) }
        ensures accepted { IfOk result
            (λ r. Accepts self.old (Flushed ledger.old.worker (hits_in ledger.old.unflushed)) r
            self.new) }
        ensures ledger { OnOk result (ledger.new ≡ settled ledger.old) }
        ensures others { OnOk result ((ledgers : List LedgerState)
            → AreHeld self.old.book.totals ledgers
            → AreHeld self.new.book.totals (slice_set ledgers ledger.old.worker ledger.new)) }
        ensures refused { IfErr result (IsLegalFault self.old.book ledger.old) }
        ensures kept { OnErr result ((self.new ≡ self.old) × (ledger.new ≡ ledger.old)) }
    {
        self.book.kept();
        let _links = self.book.totals().links();
        if !self.book.holds(ledger) {
            return Err(FlushFault::NotHeld);
        }
        match self.book.flush(ledger) {
            Ok(()) => Ok(Receipt::new(Reply::Done, self.front.copy())),
            Err(refusal) => Err(FlushFault::Refused(refusal)),
        }
    }

    /// Takes a snapshot. The receipt has its number, from 1. It changes no world, and publishes
    /// nothing.
    ///
    /// Fails as the book does; then nothing changes.
    pub fn snapshot(&mut self) -> Result<Receipt<N>, Refusal>
        ensures office { IsOffice N.definition N.limits N.workers self.old }
        ensures accepted { IfOk result (λ r. Accepts self.old Snapped r self.new) }
        ensures totals { self.new.book.totals ≡ self.old.book.totals }
        ensures refused { IfErr result (IsLegalRefusal self.old.book Snapped) }
        ensures kept { OnErr result (self.new ≡ self.old) }
    {
        self.book.kept();
        let reply = self.book.accept(0, Record::Snapped)?;
        Ok(Receipt::new(reply, self.front.copy()))
    }

    /// Publishes a plan for the problem of a snapshot. The receipt has the plan and its number,
    /// from 1. It changes no world, and passes read what they read before.
    ///
    /// Fails as the book does; then nothing changes.
    pub fn publish(&mut self, snapshot: usize, plan: SharedPlan) -> Result<Receipt<N>, Refusal>
        ensures office { IsOffice N.definition N.limits N.workers self.old }
        ensures accepted { IfOk result
            (λ r. Accepts self.old (Published snapshot plan) r self.new) }
        ensures totals { self.new.book.totals ≡ self.old.book.totals }
        ensures refused { IfErr result (IsLegalRefusal self.old.book (Published snapshot plan)) }
        ensures kept { OnErr result (self.new ≡ self.old) }
    {
        self.book.kept();
        let reply = self.book.accept(0, Record::Published { snapshot, plan })?;
        Ok(Receipt::new(reply, self.front.copy()))
    }

    /// Retargets a site (`MutableCallSite.setTarget`), by one publication.
    ///
    /// Fails as the book does, and with `NoMemory` if no test fails but the office is closed, or
    /// the world that passes read cannot be changed. The records, and the world that passes read,
    /// are not changed then.
    pub fn target<R: Wait>(
        &mut self,
        rt: &R,
        site: usize,
        tree: Declared,
    ) -> Result<Receipt<N>, Refusal>
        ensures changes { Changes N.definition N.limits N.workers self.old (Targeted site tree)
            result self.new }
    {
        self.change(rt, Record::Targeted { site, tree })
    }

    /// Invalidates points (`SwitchPoint.invalidateAll`), by one publication.
    ///
    /// Fails as the book does, and with `NoMemory` if no test fails but the office is closed, or
    /// the world that passes read cannot be changed. The records, and the world that passes read,
    /// are not changed then.
    pub fn invalidate<R: Wait>(
        &mut self,
        rt: &R,
        points: Listing<u32>,
    ) -> Result<Receipt<N>, Refusal>
        ensures changes { Changes N.definition N.limits N.workers self.old (Invalidated points)
            result self.new }
    {
        self.change(rt, Record::Invalidated { points })
    }

    /// Installs the newest plan, by one publication. The receipt has the results for the sites.
    ///
    /// Fails as the book does, and with `NoMemory` if no test fails but the office is closed, or
    /// the world that passes read cannot be changed. The records, and the world that passes read,
    /// are not changed then.
    pub fn install<R: Wait>(&mut self, rt: &R, plan: usize) -> Result<Receipt<N>, Refusal>
        ensures changes { Changes N.definition N.limits N.workers self.old (Installed plan)
            result self.new }
    {
        self.change(rt, Record::Installed { plan })
    }

    // Applies a change of the world, by one publication.
    fn change<R: Wait>(&mut self, rt: &R, entry: Record) -> Result<Receipt<N>, Refusal>
        requires world { ChangesWorld entry }
        ensures office { IsOffice N.definition N.limits N.workers self.old }
        ensures accepted { IfOk result (λ r. Accepts self.old entry r self.new) }
        ensures open { OnOk result (self.old.closed ≡ false) }
        ensures totals { self.new.book.totals ≡ self.old.book.totals }
        ensures refused { IfErr result (IsLegalRefusal self.old.book entry) }
        ensures kept { OnErr result (IsUntouched self.old self.new) }
        ensures closed { IfErr result (λ told. MayClose self.old entry told self.new) }
    {
        self.book.kept();
        let change = self.book.prepare(0, entry)?;
        self.accept(rt, change)
    }

    // Publishes the control of a prepared change of the world, and then commits the change. If
    // left_right fails to publish a control that it has accepted, the office closes.
    fn accept<R: Wait>(&mut self, rt: &R, change: PendingChange) -> Result<Receipt<N>, Refusal>
        requires ready { IsReady self.old.book change }
        requires calls { change.calls ≡ 0 }
        requires world { ChangesWorld change.entry }
        ensures accepted { IfOk result (λ r. Accepts self.old change.entry r self.new) }
        ensures open { OnOk result (self.old.closed ≡ false) }
        ensures totals { self.new.book.totals ≡ self.old.book.totals }
        ensures refused { IfErr result (λ told. (told ≡ Refusal.NoMemory)
            × (self.new.book ≡ self.old.book) × (self.new.published ≡ self.old.published)) }
        ensures closed { OnErr result (self.old.closed ≡ true → self.new.closed ≡ true) }
    {
        self.book.kept();
        if self.closed {
            return Err(Refusal::NoMemory);
        }
        let Ok(shared) = change.control() else {
            return Err(Refusal::NoMemory);
        };
        let Some(control) = shared else {
            unreachable!()
        };
        match show(rt, &mut self.writer, &self.head, &self.front, control) {
            Ok(front) => {
                let reply = self.book.commit(change);
                self.front = front;
                Ok(Receipt::new(reply, self.front.copy()))
            }
            Err(Halt::Before) => Err(Refusal::NoMemory),
            Err(Halt::Midway) => {
                self.closed = true;
                Err(Refusal::NoMemory)
            }
        }
    }

    /// Waits for the readers, and returns the book and the list of its controls.
    pub(crate) fn close<R: Wait>(self, rt: &R) -> (Book, Front<N>)
        ensures office { IsOffice N.definition N.limits N.workers self }
        ensures book { result.0 ≡ self.book }
        ensures front { result.1 ≡ self.published }
    {
        self.book.kept();
        let Office {
            book,
            head: _,
            front,
            writer,
            closed: _,
        } = self;
        writer.take(rt);
        (book, front)
    }
}
