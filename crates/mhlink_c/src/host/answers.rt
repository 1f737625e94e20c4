//! The answers of a host to requests.

ghost use Rattle.std.specs.Prelude.{◌≡◌, ◌<◌, ◌≤◌, length, map, string_bytes, IfErr, IfOk, OnErr, OnOk};
ghost use Rattle.std.specs.List.{All};
ghost use Rattle.mh_core.specs.Ledgers.{at, ledger_at};
ghost use Rattle.mh_core.specs.Links.{links};
ghost use Rattle.mh_ledger.specs.Limits.{greatest_limit};
ghost use Rattle.mh_core.specs.Records.{numbers};
ghost use Rattle.mh_core.specs.declared.record.Record.TheVariants.{Invalidated, Snapped, Installed};
ghost use Rattle.mh_text.specs.Report.{most_unflushed};
ghost use Rattle.mhlink_c.specs.Changes.{HasNoBest, Installs, MakesChange, Publishes, PublishesBest, PublishesOffer, RefusesBest, RefusesChange, RefusesInvalidation, RefusesOffer, RefusesPublished, RefusesRecord, RefusesTarget, Retargets, TakesSnapshot};
ghost use Rattle.mhlink_c.specs.Hosts.{Flushes, Records, RefusesToFlush};
ghost use Rattle.mhlink_c.specs.Statuses.{no_memory};
ghost use Rattle.mhlink_c.specs.Texts.{IsCertificate, report_of, unflushed_of};
ghost use Rattle.mhlink_c.specs.declared.failure.Failure.TheVariants.{Unknown};

use crate::books::{best_plan_for, listed, read_tree};
use crate::failure::Failure;
use crate::host::Host;
use crate::request::Change;
use mh_core::{Book, Ledger, Plan, SharedPlan};
use mh_json::{plan_json, read_plan};
use mh_text::push_tables;
use std::alloc::Global;

impl Host {
    /// Adds a worker's hits to the totals.
    pub(crate) fn flush(&mut self, worker: u32) -> Result<(), Failure>
        ensures flushed { OnOk result (Flushes self.old worker self.new) }
        ensures refused { IfErr result (RefusesToFlush self.old worker) }
        ensures kept { OnErr result (self.new ≡ self.old) }
    {
        self.runtime.flush(worker)?;
        Ok(())
    }

    /// Makes a change, and returns its answer.
    pub(crate) fn change(&mut self, alloc: Global, change: Change<'_>) -> Result<u64, Failure>
        ensures makes { IfOk result (MakesChange (Records self.old self.new)
            self.old.runtime.book self.old.scope change.entry) }
        ensures refused { IfErr result (RefusesChange self.old.runtime.book self.old.scope
            change.entry) }
        ensures kept { OnErr result (self.new ≡ self.old) }
    {
        match change {
            Change::Target { site, tree } => self.target(alloc, site, tree),
            Change::Invalidate(points) => self.invalidate(alloc, points),
            Change::Snapshot => self.snapshot(),
            Change::Plan(snapshot) => self.plan(alloc, snapshot),
            Change::Offer { snapshot, plan } => self.offer(alloc, snapshot, plan),
            Change::Install(plan) => self.install(plan),
        }
    }

    fn target(&mut self, alloc: Global, site: usize, tree: &[u8]) -> Result<u64, Failure>
        ensures taken { OnOk result (Retargets (Records self.old self.new) self.old.scope site
            tree.now) }
        ensures refused { IfErr result (RefusesTarget self.old.runtime.book self.old.scope site
            tree.now) }
        ensures kept { OnErr result (self.new ≡ self.old) }
    {
        let tree = read_tree(alloc, self.runtime.book(), &self.scope, site, tree)?;
        self.runtime.target(site, tree)?;
        Ok(0)
    }

    fn invalidate(&mut self, alloc: Global, points: &[u32]) -> Result<u64, Failure>
        ensures taken { OnOk result (Records self.old self.new (Invalidated points.now)) }
        ensures refused { IfErr result (RefusesInvalidation self.old.runtime.book points.now) }
        ensures kept { OnErr result (self.new ≡ self.old) }
    {
        let points = listed(alloc, points)?;
        self.runtime.invalidate(points)?;
        Ok(0)
    }

    fn snapshot(&mut self) -> Result<u64, Failure>
        ensures taken { IfOk result (TakesSnapshot (Records self.old self.new)
            self.old.runtime.book) }
        ensures refused { IfErr result (RefusesRecord self.old.runtime.book Snapped) }
        ensures kept { OnErr result (self.new ≡ self.old) }
    {
        Ok(self.runtime.snapshot()? as u64)
    }

    fn install(&mut self, plan: usize) -> Result<u64, Failure>
        ensures taken { IfOk result (Installs (Records self.old self.new) self.old.runtime.book
            plan) }
        ensures refused { IfErr result (RefusesRecord self.old.runtime.book (Installed plan)) }
        ensures kept { OnErr result (self.new ≡ self.old) }
    {
        Ok(self.runtime.install(plan)?.linked() as u64)
    }

    fn plan(&mut self, alloc: Global, snapshot: usize) -> Result<u64, Failure>
        ensures taken { IfOk result (PublishesBest (Records self.old self.new)
            self.old.runtime.book snapshot) }
        ensures refused { IfErr result (RefusesBest self.old.runtime.book snapshot) }
        ensures kept { OnErr result (self.new ≡ self.old) }
    {
        let plan = best_plan_for(alloc, self.runtime.book(), snapshot)?;
        self.publish(alloc, snapshot, plan)
    }

    fn offer(&mut self, alloc: Global, snapshot: usize, plan: &[u8]) -> Result<u64, Failure>
        ensures taken { IfOk result (PublishesOffer (Records self.old self.new)
            self.old.runtime.book snapshot plan.now) }
        ensures refused { IfErr result (RefusesOffer self.old.runtime.book snapshot plan.now) }
        ensures kept { OnErr result (self.new ≡ self.old) }
    {
        let plan = read_plan(alloc, plan, None)?;
        self.publish(alloc, snapshot, plan)
    }

    fn publish(&mut self, alloc: Global, snapshot: usize, plan: Plan) -> Result<u64, Failure>
        ensures taken { IfOk result (Publishes (Records self.old self.new)
            self.old.runtime.book snapshot plan) }
        ensures refused { IfErr result (RefusesPublished self.old.runtime.book snapshot plan) }
        ensures kept { OnErr result (self.new ≡ self.old) }
    {
        let plan = SharedPlan::new(alloc, plan)?;
        Ok(self.runtime.publish(snapshot, plan)? as u64)
    }

    /// Returns the optimal plan for a snapshot with its flow, as compact JSON, which `mhlink check`
    /// reads.
    pub(crate) fn certificate(&self, alloc: Global, snapshot: usize) -> Result<String, Failure>
        ensures value { IfOk result (λ text. IsCertificate self.now.runtime snapshot
            (string_bytes text)) }
        ensures refused { IfErr result (HasNoBest self.now.runtime.book snapshot) }
    {
        let plan = best_plan_for(alloc, self.runtime.book(), snapshot)?;
        Ok(plan_json(alloc, &plan)?)
    }

    /// Returns a line for each point, site and link, with the unflushed hits of the workers.
    pub(crate) fn report(&self, alloc: Global) -> Result<String, Failure>
        ensures value { IfOk result (λ text. string_bytes text ≡ report_of self.now.runtime) }
        ensures refused { IfErr result (λ e. e ≡ no_memory) }
    {
        let book = self.runtime.book();
        let unflushed = unflushed_hits(alloc, book, self.runtime.ledgers())?;
        let mut text = String::new(alloc);
        push_tables(&mut text, alloc, book, &unflushed)?;
        Ok(text)
    }

    /// Returns the unflushed hits of a link by a worker's calls.
    pub(crate) fn hits(&self, worker: u32, link: usize) -> Result<u64, Failure>
        ensures value { IfOk result (λ n. n
            ≡ at (ledger_at self.now.runtime.ledgers worker).unflushed link) }
        ensures inside { OnOk result ((worker < length self.now.runtime.ledgers)
            × (link < length (ledger_at self.now.runtime.ledgers worker).unflushed)) }
        ensures unknown { IfErr result (λ e. (e ≡ Unknown)
            × ((worker < length self.now.runtime.ledgers)
            → (link < length (ledger_at self.now.runtime.ledgers worker).unflushed) → ⊥)) }
    {
        let ledgers = self.runtime.ledgers();
        if worker as usize >= ledgers.len() {
            return Err(Failure::Unknown);
        }
        hits_in(&ledgers[worker as usize], link)
    }
}

/// Returns the unflushed hits of a link in a ledger.
pub(crate) fn hits_in(ledger: &Ledger, link: usize) -> Result<u64, Failure>
    ensures value { IfOk result (λ n. n ≡ at ledger.now.unflushed link) }
    ensures inside { OnOk result (link < length ledger.now.unflushed) }
    ensures unknown { IfErr result (λ e. (e ≡ Unknown)
        × (link < length ledger.now.unflushed → ⊥)) }
{
    if link >= ledger.links() {
        return Err(Failure::Unknown);
    }
    Ok(ledger.unflushed(link))
}

// Returns the hits of each link in these ledgers.
fn unflushed_hits(alloc: Global, book: &Book, ledgers: &[Ledger]) -> Result<Vec<u128>, Failure>
    ensures value { IfOk result (λ hits. hits.items ≡ map (unflushed_of ledgers.now)
        (numbers (length (links book.now.definition)))) }
    ensures refused { IfErr result (λ e. e ≡ no_memory) }
    ensures few { IfOk result (λ hits. All (λ n. n ≤ most_unflushed) hits.items) }
{
    let mut hits = Vec::new(alloc);
    for link in 0..book.definition().link_count() {
        hits.push(unflushed(ledgers, link))?;
    }
    Ok(hits)
}

// Returns the hits of a link in these ledgers.
fn unflushed(ledgers: &[Ledger], link: usize) -> u128
    ensures value { result ≡ unflushed_of ledgers.now link }
    ensures few { result ≤ most_unflushed }
{
    let mut sum: u128 = 0;
    for ledger in ledgers {
        sum += u128::from(hits_of(ledger, link));
    }
    sum
}

// Returns the hits of a link in a ledger, and 0 past its last link.
fn hits_of(ledger: &Ledger, link: usize) -> u64
    ensures value { result ≡ at ledger.now.unflushed link }
    ensures few { result ≤ greatest_limit }
{
    if link < ledger.links() {
        ledger.unflushed(link)
    } else {
        0
    }
}
