//! Runtimes: a book with the ledgers of its workers, for one thread. The history does not contain
//! calls.

ghost use Rattle.std.specs.Prelude.{◌≡◌, ◌⊎◌, ◌<◌, ◌+◌, false, true, length, map, slice_set, IfErr, IfOk, IfSome, IfNone, OnErr, OnOk};
ghost use Rattle.mh_base.specs.Tests.{Passes, Refuses, no_more, nothing};
ghost use Rattle.mh_cert.specs.Plans.{Matches};
ghost use Rattle.mh_ledger.specs.Ledgers.{ledger_at, settled};
ghost use Rattle.mh_ledger.specs.Renewals.{renewed_ledger};
ghost use Rattle.mh_site.specs.Links.{links as links_of};
ghost use Rattle.mh_core.specs.Books.{Rejects, Takes, reply_to};
ghost use Rattle.mh_core.specs.Callers.{IsCallable};
ghost use Rattle.mh_core.specs.Hits.{IsHitLink};
ghost use Rattle.mh_core.specs.Installations.{report};
ghost use Rattle.mh_core.specs.Legal.{answer_of_call, callee_tests};
ghost use Rattle.mh_core.specs.Pending.{IsNoFlush};
ghost use Rattle.mh_core.specs.Problems.{IsTaken, problem_at};
ghost use Rattle.mh_core.specs.Renewals.{AreKnown, MeansTheSame, Renews, renewal_tests};
ghost use Rattle.mh_core.specs.Rows.{HasRoomForPlan};
ghost use Rattle.mh_core.specs.Runtimes.{CountsHit, HasRoom, IsRuntime, RefusesFlush, TakesNoMemory, call_tests, flush_of, opened_runtime, room_tests};
ghost use Rattle.mh_core.specs.declared.record.Record.TheVariants.{Targeted, Invalidated, Snapped, Published, Installed};
ghost use Rattle.mh_core.specs.declared.reply.Reply.TheVariants.{Called};

use crate::book::Book;
use crate::caller::{count, evaluate, has_room, test_callee};
use crate::install_report::InstallReport;
use crate::limits::Limits;
use crate::record::Record;
use crate::refusal::Refusal;
use crate::renewing::Renewal;
use crate::reply::Reply;
use crate::shared_plan::SharedPlan;
use mh_base::NoMemory;
use mh_ledger::Ledger;
use mh_run::Stack;
use mh_site::{Definition, Listing};
use mh_tree::Declared;
use mh_type::{Outcome, Value};
use std::alloc::Global;
use std::fmt;
use std::marker::Model;

/// A book with the ledgers of its workers, for one thread.
///
/// It answers calls as a machine does, but calls take no record, so the limit of events does not
/// bound their number. Each worker's ledger bounds its hits until it is flushed. A contract sees
/// the book, and the ledger of each worker in order.
#[derive(Drop)]
pub struct Runtime {
    pub(crate) book: Book,
    pub(crate) workers: u32,
    pub(crate) ledgers: Vec<Ledger>,
    pub(crate) stack: Stack,
}

impl Model for Runtime {
    ghost use Rattle.std.specs.Prelude.{◌≡◌, length};
    ghost use Rattle.mh_core.specs.Runtimes.{IsRuntime, RuntimeState, coded_runtime};

    ghost Value = { RuntimeState };

    ghost coded = { coded_runtime };

    ghost view = { λ r. record { book = r.book; ledgers = r.ledgers.items } };

    ghost invariant = { λ r. IsRuntime r.book r.ledgers.items × (length r.ledgers.items ≡ r.workers) };
}

/// Shows the number of workers, and the book.
impl fmt::Debug for Runtime {
    fn fmt<W: fmt::Write>(&self, f: &mut fmt::Formatter<W>) -> fmt::Result {
        let (workers, book) = (self.workers(), self.book());
        write!(f, "Runtime({workers} workers, {book:?})")
    }
}

impl Runtime {
    /// Returns the runtime of a definition with this many workers, without records and hits. Fails
    /// only if an allocation or a reference count is refused.
    pub fn open(
        alloc: Global,
        definition: &Definition,
        workers: u32,
        limits: Limits,
    ) -> Result<Runtime, NoMemory>
        ensures value { IfOk result (λ r. r ≡ opened_runtime definition.now workers limits) }
    {
        let stack = Stack::new(alloc)?;
        let (book, ledgers) = Book::open(alloc, definition, workers, limits)?;
        Ok(Runtime {
            book,
            workers,
            ledgers,
            stack,
        })
    }

    /// Returns the book.
    pub fn book(&self) -> &Book
        ensures value { result.now ≡ self.now.book }
        ensures runtime { IsRuntime self.now.book self.now.ledgers }
    {
        &self.book
    }

    /// Returns the number of workers.
    pub fn workers(&self) -> u32
        ensures count { result ≡ length self.now.ledgers }
    {
        self.workers
    }

    /// Returns the ledger of each worker, in order.
    pub fn ledgers(&self) -> &[Ledger]
        ensures value { result.now ≡ self.now.ledgers }
        ensures runtime { IsRuntime self.now.book self.now.ledgers }
    {
        self.ledgers.as_slice()
    }

    /// Returns the outcome of a worker's call of a site, and the number of nodes evaluated
    /// (`MutableCallSite.dynamicInvoker`). The outcome is what the site's base tree means over the
    /// base trees, the steps are those of its linked tree over the linked trees, and the hit of its
    /// link is counted in the worker's ledger. A call takes no record.
    ///
    /// Fails with the first that applies of `NoWorker`, `NoSite`, `WrongType` and `LedgerFull`, and
    /// otherwise only with `NoMemory`, which is not reported if no node that is evaluated has
    /// String in its type. On failure, nothing changes.
    #[inline(always)]
    pub fn call(
        &mut self,
        worker: u32,
        site: usize,
        arguments: &[Value],
    ) -> Result<(Outcome, u128), Refusal>
        ensures passes { OnOk result (Passes (call_tests self.old worker site arguments.now)) }
        ensures answer { IfOk result (λ p. Called p.0 p.1
            ≡ answer_of_call self.old.book.definition self.old.book.records site arguments.now) }
        ensures counted { OnOk result (CountsHit self.old.book.definition worker site arguments.now
            self.old.ledgers self.new.ledgers) }
        ensures book { self.new.book ≡ self.old.book }
        ensures refused { IfErr result (λ told. Refuses
            (call_tests self.old worker site arguments.now) told) }
        ensures kept { OnErr result (self.new ≡ self.old) }
        ensures memory { TakesNoMemory self.old.book site arguments.now
            → IfErr result (λ told. told ≡ Refusal.NoMemory → ⊥) }
    {
        let link = self.test_callee(false, worker, site, arguments)?;
        self.answer(worker, site, link, arguments)
    }

    // Runs the tests of a call that do not depend on hits: reports the first that fails, or returns
    // the link that the call hits. The last test is whether the history is full.
    #[inline(always)]
    pub(crate) fn test_callee(
        &self,
        is_full: bool,
        worker: u32,
        site: usize,
        arguments: &[Value],
    ) -> Result<Option<usize>, Refusal>
        ensures worker { OnOk result (worker < length self.now.ledgers) }
        ensures callable { OnOk result (IsCallable self.now.book.definition site arguments.now) }
        ensures link { IfOk result (IsHitLink self.now.book.definition site arguments.now) }
        ensures open { OnOk result (is_full ≡ false) }
        ensures refuses { IfErr result (λ told. Refuses (callee_tests self.now.book.definition
            (length self.now.ledgers) worker site arguments.now (no_more nothing)) told
            ⊎ ((told ≡ Refusal.HistoryFull) × (is_full ≡ true)
            × (worker < length self.now.ledgers)
            × IsCallable self.now.book.definition site arguments.now)) }
    {
        if worker >= self.workers {
            return Err(Refusal::NoWorker);
        }
        let link = test_callee(self.book.definition(), site, arguments)?;
        if is_full {
            return Err(Refusal::HistoryFull);
        }
        Ok(link)
    }

    // Answers a call that passed those tests, and counts its hit.
    #[inline(always)]
    pub(crate) fn answer(
        &mut self,
        worker: u32,
        site: usize,
        link: Option<usize>,
        arguments: &[Value],
    ) -> Result<(Outcome, u128), Refusal>
        requires worker { worker < length self.old.ledgers }
        requires callable { IsCallable self.old.book.definition site arguments.now }
        requires link { IsHitLink self.old.book.definition site arguments.now link }
        ensures room { OnOk result (HasRoom self.old worker site arguments.now) }
        ensures answer { IfOk result (λ p. Called p.0 p.1
            ≡ answer_of_call self.old.book.definition self.old.book.records site arguments.now) }
        ensures counted { OnOk result (CountsHit self.old.book.definition worker site arguments.now
            self.old.ledgers self.new.ledgers) }
        ensures book { self.new.book ≡ self.old.book }
        ensures refused { IfErr result (λ told. Refuses (room_tests self.old worker site
            arguments.now) told) }
        ensures kept { OnErr result (self.new ≡ self.old) }
        ensures memory { TakesNoMemory self.old.book site arguments.now
            → IfErr result (λ told. told ≡ Refusal.NoMemory → ⊥) }
    {
        let ledger = &mut self.ledgers[worker as usize];
        if !has_room(ledger, link) {
            return Err(Refusal::LedgerFull);
        }
        let Ok((outcome, steps)) = evaluate(&mut self.stack, self.book.world(), site, arguments)
        else {
            return Err(Refusal::NoMemory);
        };
        count(ledger, link);
        Ok((outcome, steps))
    }

    // Has the book take a record, given that `calls` calls were accepted besides its records.
    pub(crate) fn accept(&mut self, calls: usize, entry: Record) -> Result<Reply, Refusal>
        requires other { IsNoFlush entry }
        ensures taken { OnOk result (Takes self.old.book calls entry self.new.book) }
        ensures reply { IfOk result (λ reply. reply
            ≡ reply_to self.old.book.definition self.old.book.records entry) }
        ensures ledgers { self.new.ledgers ≡ self.old.ledgers }
        ensures refused { IfErr result (λ told. Rejects self.old.book calls entry told
            self.new.book) }
    {
        self.book.accept(calls, entry)
    }

    // Publishes a plan that matches the problem of a snapshot, given that `calls` calls were
    // accepted besides the records.
    pub(crate) fn publish_behind(
        &mut self,
        calls: usize,
        snapshot: usize,
        plan: SharedPlan,
    ) -> Result<Reply, Refusal>
        requires taken { IsTaken self.old.book.records snapshot }
        requires matching { Matches (problem_at self.old.book.definition self.old.book.records
            snapshot) plan }
        ensures taken { OnOk result (Takes self.old.book calls (Published snapshot plan)
            self.new.book) }
        ensures reply { IfOk result (λ reply. reply ≡ reply_to self.old.book.definition
            self.old.book.records (Published snapshot plan)) }
        ensures ledgers { self.new.ledgers ≡ self.old.ledgers }
        ensures refused { IfErr result (λ told. Rejects self.old.book calls
            (Published snapshot plan) told self.new.book) }
        ensures early { IfErr result (λ told. told ≡ Refusal.NoMemory → HasRoomForPlan
            self.old.book.limits (length self.old.book.records + calls) self.old.book.records) }
    {
        self.book.publish_for(calls, snapshot, plan)
    }

    // Adds the hits of a worker since its last flush to the totals, given that `calls` calls were
    // accepted besides the records.
    pub(crate) fn flush_behind(&mut self, calls: usize, worker: u32) -> Result<(), Refusal>
        ensures known { OnOk result (worker < length self.old.ledgers) }
        ensures taken { OnOk result (Takes self.old.book calls (flush_of self.old worker)
            self.new.book) }
        ensures ledgers { OnOk result (self.new.ledgers ≡ slice_set self.old.ledgers worker
            (settled (ledger_at self.old.ledgers worker))) }
        ensures refused { IfErr result (λ told. RefusesFlush self.old calls worker told) }
        ensures kept { OnErr result (self.new ≡ self.old) }
    {
        if worker >= self.workers {
            return Err(Refusal::NoWorker);
        }
        let ledger = &mut self.ledgers[worker as usize];
        self.book.flush_after(calls, ledger)?;
        Ok(())
    }

    /// Adds the hits of a worker since its last flush to the totals. O(links).
    ///
    /// Fails with `NoWorker`, and otherwise as `Book::flush` does; then nothing changes.
    pub fn flush(&mut self, worker: u32) -> Result<(), Refusal>
        ensures known { OnOk result (worker < length self.old.ledgers) }
        ensures taken { OnOk result (Takes self.old.book 0 (flush_of self.old worker)
            self.new.book) }
        ensures ledgers { OnOk result (self.new.ledgers ≡ slice_set self.old.ledgers worker
            (settled (ledger_at self.old.ledgers worker))) }
        ensures refused { IfErr result (λ told. RefusesFlush self.old 0 worker told) }
        ensures kept { OnErr result (self.new ≡ self.old) }
    {
        self.flush_behind(0, worker)
    }

    /// Gives a site another tree (`MutableCallSite.setTarget`). The ledgers are not changed.
    ///
    /// Fails as `Book::target` does; then nothing changes.
    pub fn target(&mut self, site: usize, tree: Declared) -> Result<(), Refusal>
        ensures taken { OnOk result (Takes self.old.book 0 (Targeted site tree) self.new.book) }
        ensures ledgers { self.new.ledgers ≡ self.old.ledgers }
        ensures refused { IfErr result
            (λ told. Rejects self.old.book 0 (Targeted site tree) told self.new.book) }
    {
        self.book.target(site, tree)
    }

    /// Invalidates points (`SwitchPoint.invalidateAll`). The list may be empty, and points may be
    /// invalid already. The ledgers are not changed.
    ///
    /// Fails as `Book::invalidate` does; then nothing changes.
    pub fn invalidate(&mut self, points: Listing<u32>) -> Result<(), Refusal>
        ensures taken { OnOk result (Takes self.old.book 0 (Invalidated points) self.new.book) }
        ensures ledgers { self.new.ledgers ≡ self.old.ledgers }
        ensures refused { IfErr result
            (λ told. Rejects self.old.book 0 (Invalidated points) told self.new.book) }
    {
        self.book.invalidate(points)
    }

    /// Takes a snapshot, and returns its number, from 1. O(links + points + sites).
    ///
    /// Fails as `Book::snapshot` does; then nothing changes.
    pub fn snapshot(&mut self) -> Result<usize, Refusal>
        ensures taken { OnOk result (Takes self.old.book 0 Snapped self.new.book) }
        ensures number { IfOk result (λ number. number
            ≡ length self.old.book.snapshots + 1) }
        ensures ledgers { self.new.ledgers ≡ self.old.ledgers }
        ensures refused { IfErr result
            (λ told. Rejects self.old.book 0 Snapped told self.new.book) }
    {
        self.book.snapshot()
    }

    /// Publishes a plan for the problem of a snapshot, and returns the plan's number, from 1.
    /// O(links + points + rows).
    ///
    /// Fails as `Book::publish` does; then nothing changes.
    pub fn publish(&mut self, snapshot: usize, plan: SharedPlan) -> Result<usize, Refusal>
        ensures taken { OnOk result (Takes self.old.book 0 (Published snapshot plan)
            self.new.book) }
        ensures number { IfOk result (λ number. number ≡ length self.old.book.plans + 1) }
        ensures ledgers { self.new.ledgers ≡ self.old.ledgers }
        ensures refused { IfErr result
            (λ told. Rejects self.old.book 0 (Published snapshot plan) told self.new.book) }
    {
        self.book.publish(snapshot, plan)
    }

    /// Installs the newest plan, and reports the result for each site that has a link in the plan
    /// or currently holds links.
    ///
    /// Fails as `Book::install` does; then nothing changes.
    pub fn install(&mut self, plan: usize) -> Result<InstallReport, Refusal>
        ensures taken { OnOk result (Takes self.old.book 0 (Installed plan) self.new.book) }
        ensures report { IfOk result (λ told. told
            ≡ report self.old.book.definition self.old.book.records plan) }
        ensures ledgers { self.new.ledgers ≡ self.old.ledgers }
        ensures refused { IfErr result
            (λ told. Rejects self.old.book 0 (Installed plan) told self.new.book) }
    {
        self.book.install(plan)
    }

    /// Begins a new history, so that records, snapshots and plans are available again.
    ///
    /// - The definition is the current one, with each site's base tree as its target. Sites, points
    ///   and links keep their numbers, and each site's calls mean what they meant before.
    /// - The same points are valid, and also those that are to be valid again. In the base trees,
    ///   each invalid point that is to be valid again is replaced by its fallback.
    /// - The part of each worker's flushed hits that the renewal keeps is flushed again. Hits that
    ///   were not flushed stay unflushed.
    /// - No site holds a link. Snapshots and plans are numbered from 1 again.
    /// - The first records, one more than there are workers, invalidate the points that stay
    ///   invalid, and flush the hits that are kept.
    ///
    /// O(points + sites + links * workers), plus the preparation of each base tree; for points that
    /// are to be valid again, also their number for each point, and for each node that tests a
    /// point.
    ///
    /// Fails with `HistoryFull` if the limit of events does not exceed the number of workers, with
    /// `NoPoint` if a point that is to be valid again does not exist, and otherwise only with
    /// `NoMemory`; then nothing changes.
    pub fn renew(&mut self, renewal: Renewal<'_>) -> Result<(), Refusal>
        ensures passes { OnOk result (length self.old.ledgers < self.old.book.limits.history) }
        ensures known { OnOk result (AreKnown self.old.book.definition
            renewal.entry.again.now) }
        ensures renewed { OnOk result (Renews renewal.entry.again.now renewal.entry.hits
            self.old.book self.new.book) }
        ensures means { OnOk result (MeansTheSame renewal.entry.again.now self.old.book
            self.new.book) }
        ensures links { OnOk result (links_of self.new.book.definition
            ≡ links_of self.old.book.definition) }
        ensures ledgers { OnOk result (self.new.ledgers
            ≡ map (renewed_ledger renewal.entry.hits) self.old.ledgers) }
        ensures refused { IfErr result (λ told. Refuses
            (renewal_tests self.old.book.definition self.old.book.limits
            (length self.old.ledgers) renewal.entry.again.now) told) }
        ensures kept { OnErr result (self.new ≡ self.old) }
    {
        self.book.renew(&mut self.ledgers, renewal)?;
        Ok(())
    }
}
