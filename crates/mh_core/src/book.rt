//! Books: the records of accepted events, and the state that follows from them.

ghost use Rattle.std.specs.Prelude.{◌≡◌, ◌⊎◌, ◌+◌, ◌<◌, ℕ, List, length, map, reverse, slice_index_or, slice_set, OnOk, OnErr, IfOk, IfErr, IsTrue, ◌↔◌};
ghost use Rattle.std.specs.List.{range_with_len};
ghost use Rattle.mh_ledger.specs.Ledgers.{AreHeld, Holds, LedgerState, opened_ledger, settled};
ghost use Rattle.mh_site.specs.Links.{links as links_of};
ghost use Rattle.mh_core.specs.declared.record.Record.TheVariants.{Flushed, Targeted, Invalidated, Snapped, Published, Installed};
ghost use Rattle.mh_core.specs.Books.{BookState, Takes, Rejects, IsBook, opened_book};
ghost use Rattle.mh_core.specs.Installations.{report};
ghost use Rattle.mh_core.specs.Problems.{IsTaken, problem_at};
ghost use Rattle.mh_core.specs.Records.{hits_in};

pub(crate) mod change;
pub(crate) mod install;
pub(crate) mod tests;

use crate::install_report::InstallReport;
use crate::limits::Limits;
use crate::problem::make_problem;
use crate::record::Record;
use crate::refusal::Refusal;
use crate::reply::Reply;
use crate::shared_plan::{PublishedPlan, SharedPlan};
use crate::snapshot::Snapshot;
use mh_base::NoMemory;
use mh_ledger::{Ledger, Totals};
use mh_network::Problem;
use mh_site::{Definition, Listing, World};
use mh_tree::Declared;
use std::alloc::Global;
use std::fmt;
use std::marker::Model;

/// The records of accepted events other than calls, with the state that follows from them: the
/// world, the totals of all workers' hits, the snapshots, and the plans.
///
/// A contract sees the records newest first. The world is the replay of the changes that records
/// make, so, as the law `records_look_back` says, it agrees with looking back through the records;
/// the totals are the sums of the flushes. Each record passed its tests.
#[derive(Drop)]
pub struct Book {
    pub(crate) alloc: Global,
    pub(crate) definition: Definition,
    pub(crate) limits: Limits,
    pub(crate) records: Vec<Record>,
    pub(crate) world: World,
    pub(crate) totals: Totals,
    pub(crate) snapshots: Vec<Snapshot>,
    pub(crate) plans: Vec<PublishedPlan>,
}

impl Model for Book {
    ghost use Rattle.mh_core.specs.Books.{BookState, IsBook, book_state, coded_book};

    ghost Value = { BookState };

    ghost coded = { coded_book };

    ghost view = { book_state };

    ghost invariant = { λ b. IsBook (book_state b) };
}

/// Shows the number of records, and the definition.
impl fmt::Debug for Book {
    fn fmt<W: fmt::Write>(&self, f: &mut fmt::Formatter<W>) -> fmt::Result {
        let (records, definition) = (self.records().len(), self.definition());
        write!(f, "Book({records} records, {definition:?})")
    }
}

impl Book {
    /// Returns the book of a definition, without records, and a ledger without hits for each of
    /// `workers` workers, all held. Fails only if an allocation or a reference count is refused.
    pub fn open(
        alloc: Global,
        definition: &Definition,
        workers: u32,
        limits: Limits,
    ) -> Result<(Book, Vec<Ledger>), NoMemory>
        ensures book { IfOk result (λ opened. opened.0
            ≡ opened_book definition.now workers limits) }
        ensures ledgers { IfOk result (λ opened. opened.1.items
            ≡ map (opened_ledger (length (links_of definition.now)) limits.ledger)
            (range_with_len 0 workers)) }
        ensures held { IfOk result (λ opened. AreHeld opened.0.totals opened.1.items) }
    {
        let definition = definition.share()?;
        // Names the invariant of the definition for the proof.
        let _sites = definition.sites();
        let (totals, ledgers) = Totals::open(
            alloc,
            definition.link_count(),
            workers as usize,
            limits.ledger(),
            limits.total(),
        )?;
        let world = World::open(alloc, &definition)?;
        let book = Book {
            alloc,
            definition,
            limits,
            records: Vec::new(alloc),
            world,
            totals,
            snapshots: Vec::new(alloc),
            plans: Vec::new(alloc),
        };
        Ok((book, ledgers))
    }

    /// States the invariant of every book. It does nothing at run time: a caller calls it for its
    /// clause.
    pub fn kept(&self)
        ensures book { IsBook self.now }
    {
        let _records = &self.records;
    }

    /// Returns the definition.
    pub fn definition(&self) -> &Definition
        ensures value { result.now ≡ self.now.definition }
        ensures book { IsBook self.now }
    {
        &self.definition
    }

    /// Returns the limits.
    pub fn limits(&self) -> &Limits
        ensures value { result.now ≡ self.now.limits }
    {
        &self.limits
    }

    /// Returns the records, oldest first.
    pub fn records(&self) -> &[Record]
        ensures value { reverse result.now ≡ self.now.records }
        ensures book { IsBook self.now }
    {
        self.records.as_slice()
    }

    // Returns the newest record.
    pub(crate) fn newest(&self) -> &Record
        requires some { 0 < length self.now.records }
        ensures value { result.now ≡ slice_index_or self.now.records 0 result.now }
    {
        let records = self.records.as_slice();
        &records[records.len() - 1]
    }

    /// Returns the world after the records.
    pub fn world(&self) -> &World
        ensures value { result.now ≡ self.now.world }
        ensures book { IsBook self.now }
    {
        &self.world
    }

    /// Returns the totals: the flushed hits of all workers.
    pub fn totals(&self) -> &Totals
        ensures value { result.now ≡ self.now.totals }
        ensures book { IsBook self.now }
    {
        &self.totals
    }

    /// Returns whether the totals hold a ledger, that is, whether they keep for its worker exactly
    /// the hits that it has flushed.
    pub fn holds(&self, ledger: &Ledger) -> bool
        ensures decides { IsTrue result ↔ Holds self.now.totals ledger.now }
    {
        self.totals.holds(ledger)
    }

    /// Returns the problem of the snapshot with this number, from 1. O(links + points).
    ///
    /// Fails with `NoSnapshot` if there is no such snapshot, and otherwise only with `NoMemory`.
    pub fn problem(&self, snapshot: usize) -> Result<Problem, Refusal>
        ensures value { IfOk result (λ p. p
            ≡ problem_at self.now.definition self.now.records snapshot) }
        ensures taken { OnOk result (IsTaken self.now.records snapshot) }
        ensures refused { IfErr result
            (λ told. ((told ≡ Refusal.NoSnapshot) × (IsTaken self.now.records snapshot → ⊥))
            ⊎ ((told ≡ Refusal.NoMemory) × IsTaken self.now.records snapshot)) }
    {
        if snapshot == 0 || snapshot > self.snapshots.len() {
            return Err(Refusal::NoSnapshot);
        }
        self.problem_of_taken(snapshot)
            .map_err(|_| Refusal::NoMemory)
    }

    // Returns the problem of a snapshot that was taken.
    fn problem_of_taken(&self, snapshot: usize) -> Result<Problem, NoMemory>
        requires taken { IsTaken self.now.records snapshot }
        ensures value { IfOk result (λ p. p
            ≡ problem_at self.now.definition self.now.records snapshot) }
        ensures taken { IsTaken self.now.records snapshot }
    {
        let kept = &self.snapshots[snapshot - 1];
        make_problem(self.alloc, &self.definition, kept.totals(), kept.valid())
    }

    /// Adds the unflushed hits of a ledger to the totals. The ledger stays held, and so do those of
    /// the other workers. O(links).
    ///
    /// Fails with `HistoryFull`, with `TotalTooLarge` if some total would exceed its limit, and
    /// otherwise only with `NoMemory`; then nothing changes.
    pub fn flush(&mut self, ledger: &mut Ledger) -> Result<(), Refusal>
        requires held { Holds self.old.totals ledger.old }
        ensures taken { OnOk result (Takes self.old 0
            (Flushed ledger.old.worker (hits_in ledger.old.unflushed)) self.new) }
        ensures ledger { OnOk result (ledger.new ≡ settled ledger.old) }
        ensures held { Holds self.new.totals ledger.new }
        ensures all { (ledgers : List LedgerState) → AreHeld self.old.totals ledgers
            → AreHeld self.new.totals (slice_set ledgers ledger.old.worker ledger.new) }
        ensures refused { IfErr result
            (λ told. Rejects self.old 0 (Flushed ledger.old.worker (hits_in ledger.old.unflushed))
            told self.new) }
        ensures kept { OnErr result (ledger.new ≡ ledger.old) }
    {
        self.flush_after(0, ledger)
    }

    /// Gives a site another tree (`MutableCallSite.setTarget`).
    ///
    /// Fails with
    /// - `NoSite` if the site, or a site that the tree invokes, does not exist;
    /// - `WrongType` if the tree is not of the site's type, or invokes a site with a type other
    ///   than that site's;
    /// - `NoPoint` if the tree names a point that does not exist;
    /// - `WrongLevel` if the tree invokes a site whose level is not below the site's;
    /// - `HistoryFull`, and otherwise only with `NoMemory`.
    ///
    /// On failure, nothing changes.
    pub fn target(&mut self, site: usize, tree: Declared) -> Result<(), Refusal>
        ensures taken { OnOk result (Takes self.old 0 (Targeted site tree) self.new) }
        ensures totals { self.new.totals ≡ self.old.totals }
        ensures refused { IfErr result
            (λ told. Rejects self.old 0 (Targeted site tree) told self.new) }
    {
        let _done = self.accept(0, Record::Targeted { site, tree })?;
        Ok(())
    }

    /// Invalidates points (`SwitchPoint.invalidateAll`). The list may be empty, and points may be
    /// invalid already.
    ///
    /// Fails with `NoPoint` if one of the points does not exist, with `HistoryFull`, and otherwise
    /// only with `NoMemory`; then nothing changes.
    pub fn invalidate(&mut self, points: Listing<u32>) -> Result<(), Refusal>
        ensures taken { OnOk result (Takes self.old 0 (Invalidated points) self.new) }
        ensures totals { self.new.totals ≡ self.old.totals }
        ensures refused { IfErr result
            (λ told. Rejects self.old 0 (Invalidated points) told self.new) }
    {
        let _done = self.accept(0, Record::Invalidated { points })?;
        Ok(())
    }

    /// Takes a snapshot of the totals, of the validity of the points and of the number of
    /// retargetings of each site, and returns its number, from 1. O(links + points + sites).
    ///
    /// Fails with `HistoryFull`, also if there are 1,024 snapshots, with `GainTooLarge` if the sum
    /// of the gains of its problem would exceed 2^62, and otherwise only with `NoMemory`; then
    /// nothing changes.
    pub fn snapshot(&mut self) -> Result<usize, Refusal>
        ensures taken { OnOk result (Takes self.old 0 Snapped self.new) }
        ensures number { IfOk result (λ number. number ≡ length self.old.snapshots + 1) }
        ensures totals { self.new.totals ≡ self.old.totals }
        ensures refused { IfErr result (λ told. Rejects self.old 0 Snapped told self.new) }
    {
        self.kept();
        let _taken = self.accept(0, Record::Snapped)?;
        Ok(self.snapshots.len())
    }

    /// Publishes a plan for the problem of a snapshot, and returns the plan's number, from 1.
    /// O(links + points + rows).
    ///
    /// Fails with `NoSnapshot`, with `PlanRefused` if the checker rejects the plan, with
    /// `HistoryFull`, also if there are 1,024 plans, and otherwise with `NoMemory`. If the checker
    /// finds no memory, `NoMemory` is reported in place of `PlanRefused` and `HistoryFull`. On
    /// failure, nothing changes.
    pub fn publish(&mut self, snapshot: usize, plan: SharedPlan) -> Result<usize, Refusal>
        ensures taken { OnOk result (Takes self.old 0 (Published snapshot plan) self.new) }
        ensures number { IfOk result (λ number. number ≡ length self.old.plans + 1) }
        ensures totals { self.new.totals ≡ self.old.totals }
        ensures refused { IfErr result
            (λ told. Rejects self.old 0 (Published snapshot plan) told self.new) }
    {
        self.kept();
        let _published = self.accept(0, Record::Published { snapshot, plan })?;
        Ok(self.plans.len())
    }

    /// Installs the newest plan (Hölzle, Chambers and Ungar, Optimizing Dynamically-Typed
    /// Object-Oriented Languages With Polymorphic Inline Caches, 1991), and reports the result for
    /// each site that has a link in the plan or currently holds links. A site that was retargeted
    /// since the plan's snapshot is skipped. Any other site from now on runs the inline cache of
    /// those of its links in the plan whose needs are all valid, or its base tree if there are
    /// none. O(sites + links of the plan), plus, for each cache, time linear in the size of its
    /// site's base tree.
    ///
    /// Fails with `NoPlan`, with `OldPlan` if a newer plan was published, with `HistoryFull`, and
    /// otherwise only with `NoMemory`; then nothing changes.
    pub fn install(&mut self, plan: usize) -> Result<InstallReport, Refusal>
        ensures taken { OnOk result (Takes self.old 0 (Installed plan) self.new) }
        ensures report { IfOk result (λ told. told
            ≡ report self.old.definition self.old.records plan) }
        ensures totals { self.new.totals ≡ self.old.totals }
        ensures refused { IfErr result (λ told. Rejects self.old 0 (Installed plan) told self.new) }
    {
        match self.accept(0, Record::Installed { plan })? {
            Reply::Installed(report) => Ok(report),
            _ => unreachable!(),
        }
    }
}
