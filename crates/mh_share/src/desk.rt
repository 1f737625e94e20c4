//! Desks, which take the records, under a lock of the host's own.

ghost use Rattle.std.specs.Prelude.{◌≡◌, ◌+◌, List, length, map, slice_set, IfErr, IfOk, OnErr, OnOk};
ghost use Rattle.std.specs.Arc.{arc_value};
ghost use Rattle.std.specs.List.{All};
ghost use Rattle.mh_ledger.specs.Ledgers.{AreHeld, Holds, LedgerState, settled};
ghost use Rattle.mh_site.specs.Links.{links};
ghost use Rattle.mh_core.specs.Books.{IsBook, Rejects, Takes};
ghost use Rattle.mh_core.specs.Installations.{report};
ghost use Rattle.mh_core.specs.declared.record.Record.TheVariants.{Targeted, Invalidated, Snapped, Published, Installed};
ghost use Rattle.mh_share.specs.Callers.{caller_by};
ghost use Rattle.mh_share.specs.Desks.{RefusesFlush, RefusesLook, flush_of, opened_callers, opened_desk};

use crate::caller::Caller;
use crate::shown::Shown;
use mh_core::{
    Book, Declared, Definition, InstallReport, Limits, Listing, NoMemory, Refusal, SharedPlan,
};
use mh_ledger::Ledger;
use std::alloc::Global;
use std::fmt;
use std::marker::Model;
use std::sync::Arc;

/// A book, and the world that it shows to callers. A record changes only the book: callers see it
/// after the next `show`, followed by a look of their own.
///
/// A contract sees the book, and the book as it was when the shown world was the newest.
#[derive(Drop)]
pub struct Desk {
    pub(crate) alloc: Global,
    pub(crate) book: Book,
    shown: Arc<Shown>,
}

impl Model for Desk {
    ghost use Rattle.std.specs.Prelude.{◌≡◌};
    ghost use Rattle.std.specs.Arc.{arc_value};
    ghost use Rattle.mh_site.specs.Links.{links};
    ghost use Rattle.mh_share.specs.Desks.{DeskState, coded_desk};

    ghost Value = { DeskState };

    ghost coded = { coded_desk };

    ghost view = { λ d. record { book = d.book; shown = arc_value d.shown } };

    ghost invariant = { λ d. links (arc_value d.shown).definition ≡ links d.book.definition };
}

/// Shows its book.
impl fmt::Debug for Desk {
    fn fmt<W: fmt::Write>(&self, f: &mut fmt::Formatter<W>) -> fmt::Result {
        let book = self.book();
        write!(f, "Desk({book:?})")
    }
}

// Returns an owner of the world of a book, for all who share it.
fn show(alloc: Global, book: &Book) -> Result<Arc<Shown>, NoMemory>
    ensures value { IfOk result (λ s. arc_value s ≡ book.now) }
{
    let shown = Shown::of(book)?;
    Arc::new(alloc, shown).map_err(|_| NoMemory)
}

// Returns another owner of a shown world.
fn share(shown: &Arc<Shown>) -> Result<Arc<Shown>, NoMemory>
    ensures value { IfOk result (λ s. arc_value s ≡ arc_value shown.now) }
{
    Arc::try_clone(shown).map_err(|_| NoMemory)
}

impl Desk {
    /// Returns the desk of a definition, without records, which shows its world, and a caller for
    /// each of `workers` workers, in order, whose ledgers it holds. Fails only if an allocation or
    /// a reference count is refused.
    pub fn open(
        alloc: Global,
        definition: &Definition,
        workers: u32,
        limits: Limits,
    ) -> Result<(Desk, Vec<Caller>), NoMemory>
        ensures desk { IfOk result (λ opened. opened.0 ≡ opened_desk definition.now workers limits) }
        ensures callers { IfOk result (λ opened. opened.1.items
            ≡ opened_callers definition.now workers limits) }
    {
        let (book, ledgers) = Book::open(alloc, definition, workers, limits)?;
        let shown = show(alloc, &book)?;
        let callers = callers(alloc, &shown, ledgers)?;
        Ok((Desk { alloc, book, shown }, callers))
    }

    /// Returns the book.
    pub fn book(&self) -> &Book
        ensures value { result.now ≡ self.now.book }
        ensures book { IsBook self.now.book }
    {
        self.book.kept();
        &self.book
    }

    /// Shows the current world: callers have it from their next look on. O(points + sites).
    ///
    /// Fails only if an allocation or a reference count is refused; then nothing changes.
    pub fn show(&mut self) -> Result<(), NoMemory>
        ensures value { OnOk result (self.new ≡ record {
          book = self.old.book;
          shown = self.old.book;
        }) }
        ensures kept { OnErr result (self.new ≡ self.old) }
    {
        self.shown = show(self.alloc, &self.book)?;
        Ok(())
    }

    /// Adds the unflushed hits of a caller to the totals. Its ledger stays held, and so do all
    /// others. O(links).
    ///
    /// Fails with `NoWorker` if the ledger is not one that this desk holds, with `HistoryFull`,
    /// with `TotalTooLarge` if some total would exceed its limit, and otherwise only with
    /// `NoMemory`; then nothing changes.
    pub fn flush(&mut self, caller: &mut Caller) -> Result<(), Refusal>
        ensures held { OnOk result (Holds self.old.book.totals caller.old.ledger) }
        ensures taken { OnOk result (Takes self.old.book 0 (flush_of caller.old.ledger)
            self.new.book) }
        ensures ledger { OnOk result (caller.new.ledger ≡ settled caller.old.ledger) }
        ensures all { OnOk result ((ledgers : List LedgerState) → AreHeld self.old.book.totals ledgers
            → AreHeld self.new.book.totals (slice_set ledgers caller.old.ledger.worker
            caller.new.ledger)) }
        ensures shown { (self.new.shown ≡ self.old.shown)
            × (caller.new.shown ≡ caller.old.shown) }
        ensures refused { IfErr result (λ told. RefusesFlush self.old.book caller.old.ledger told) }
        ensures kept { OnErr result ((self.new ≡ self.old) × (caller.new ≡ caller.old)) }
    {
        if !self.book.holds(&caller.ledger) {
            return Err(Refusal::NoWorker);
        }
        self.book.flush(&mut caller.ledger)
    }

    /// Gives a site another tree (`MutableCallSite.setTarget`), as `Book::target` does.
    pub fn target(&mut self, site: usize, tree: Declared) -> Result<(), Refusal>
        ensures taken { OnOk result (Takes self.old.book 0 (Targeted site tree) self.new.book) }
        ensures totals { self.new.book.totals ≡ self.old.book.totals }
        ensures shown { self.new.shown ≡ self.old.shown }
        ensures refused { IfErr result
            (λ told. Rejects self.old.book 0 (Targeted site tree) told self.new.book) }
    {
        self.book.target(site, tree)
    }

    /// Invalidates points (`SwitchPoint.invalidateAll`), as `Book::invalidate` does.
    pub fn invalidate(&mut self, points: Listing<u32>) -> Result<(), Refusal>
        ensures taken { OnOk result (Takes self.old.book 0 (Invalidated points) self.new.book) }
        ensures totals { self.new.book.totals ≡ self.old.book.totals }
        ensures shown { self.new.shown ≡ self.old.shown }
        ensures refused { IfErr result
            (λ told. Rejects self.old.book 0 (Invalidated points) told self.new.book) }
    {
        self.book.invalidate(points)
    }

    /// Takes a snapshot, and returns its number, as `Book::snapshot` does.
    pub fn snapshot(&mut self) -> Result<usize, Refusal>
        ensures taken { OnOk result (Takes self.old.book 0 Snapped self.new.book) }
        ensures number { IfOk result (λ number. number ≡ length self.old.book.snapshots + 1) }
        ensures totals { self.new.book.totals ≡ self.old.book.totals }
        ensures shown { self.new.shown ≡ self.old.shown }
        ensures refused { IfErr result
            (λ told. Rejects self.old.book 0 Snapped told self.new.book) }
    {
        self.book.snapshot()
    }

    /// Publishes a plan for the problem of a snapshot, and returns its number, as `Book::publish`
    /// does.
    pub fn publish(&mut self, snapshot: usize, plan: SharedPlan) -> Result<usize, Refusal>
        ensures taken { OnOk result (Takes self.old.book 0 (Published snapshot plan)
            self.new.book) }
        ensures number { IfOk result (λ number. number ≡ length self.old.book.plans + 1) }
        ensures totals { self.new.book.totals ≡ self.old.book.totals }
        ensures shown { self.new.shown ≡ self.old.shown }
        ensures refused { IfErr result
            (λ told. Rejects self.old.book 0 (Published snapshot plan) told self.new.book) }
    {
        self.book.publish(snapshot, plan)
    }

    /// Installs the newest plan, and reports the result for its sites, as `Book::install` does.
    pub fn install(&mut self, plan: usize) -> Result<InstallReport, Refusal>
        ensures taken { OnOk result (Takes self.old.book 0 (Installed plan) self.new.book) }
        ensures report { IfOk result (λ told. told
            ≡ report self.old.book.definition self.old.book.records plan) }
        ensures totals { self.new.book.totals ≡ self.old.book.totals }
        ensures shown { self.new.shown ≡ self.old.shown }
        ensures refused { IfErr result
            (λ told. Rejects self.old.book 0 (Installed plan) told self.new.book) }
    {
        self.book.install(plan)
    }

    // Returns another owner of the shown world for a caller, if its ledger is held here.
    pub(crate) fn shown_to(&self, ledger: &Ledger) -> Result<Arc<Shown>, Refusal>
        ensures value { IfOk result (λ s. arc_value s ≡ self.now.shown) }
        ensures held { OnOk result (Holds self.now.book.totals ledger.now) }
        ensures links { OnOk result (length ledger.now.unflushed
            ≡ length (links self.now.shown.definition)) }
        ensures refused { IfErr result (RefusesLook self.now.book ledger.now) }
    {
        if !self.book.holds(ledger) {
            return Err(Refusal::NoWorker);
        }
        // Names the invariants of the ledger, of the book and of the totals for the proof.
        let (_limit, _most) = (ledger.limit(), self.book.totals().limit());
        share(&self.shown).map_err(|_| Refusal::NoMemory)
    }
}

// Returns a caller for each ledger, in order, with one shown world.
fn callers(alloc: Global, shown: &Arc<Shown>, ledgers: Vec<Ledger>) -> Result<Vec<Caller>, NoMemory>
    requires links { All (λ l. length l.unflushed ≡ length (links (arc_value shown.now).definition))
        ledgers.items }
    ensures value { IfOk result (λ v. v.items
        ≡ map (caller_by (arc_value shown.now)) ledgers.items) }
{
    let mut callers = Vec::new(alloc);
    for ledger in ledgers {
        callers
            .push(Caller::new(alloc, share(shown)?, ledger)?)
            .map_err(|_| NoMemory)?;
    }
    Ok(callers)
}
