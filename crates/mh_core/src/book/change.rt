//! Changes that a book prepares first and commits later, so that nothing can fail in between.

ghost use Rattle.std.specs.Prelude.{◌≡◌, ◌+◌, ℕ, true, Some, length, OnErr, OnOk, IfOk, IfErr};
ghost use Rattle.mh_cert.specs.Plans.{Matches};
ghost use Rattle.mh_core.specs.Books.{MayTake, Rejects, Takes, reply_to};
ghost use Rattle.mh_core.specs.Pending.{HasEffect, IsNoFlush, IsReady, SameBook, control_of};
ghost use Rattle.mh_core.specs.Problems.{IsTaken, problem_at};
ghost use Rattle.mh_core.specs.Rows.{HasRoomForPlan};
ghost use Rattle.mh_core.specs.declared.book.change.Effect.TheVariants.{World};
ghost use Rattle.mh_core.specs.declared.record.Record.TheVariants.{Snapped, Published};
ghost use Rattle.mh_core.specs.declared.reply.Reply.TheVariants.{Done};
ghost use Rattle.mh_site.specs.declared.control.Control.TheVariants.{Target, Invalidate};

use crate::book::Book;
use crate::record::Record;
use crate::refusal::Refusal;
use crate::reply::Reply;
use crate::shared_plan::{PublishedPlan, SharedPlan};
use crate::snapshot::Snapshot;
use mh_base::NoMemory;
use mh_site::{Control, Listing, Retargeting};
use mh_tree::Declared;
use std::alloc::Global;
use std::marker::Model;

/// A change that passed its tests, with all the memory that its book needs to commit it.
#[derive(Debug, Drop)]
pub struct PendingChange {
    entry: Record,
    effect: Effect,
    reply: Reply,
    calls: usize,
}

impl Model for PendingChange {
    ghost use Rattle.mh_core.specs.Pending.{PendingState, coded_pending};

    ghost Value = { PendingState };

    ghost coded = { coded_pending };

    ghost view = { λ p. record {
      entry = p.entry;
      effect = p.effect;
      reply = p.reply;
      calls = p.calls;
    } };
}

/// The effect of a record, besides the record itself.
#[derive(Debug, Drop)]
pub(crate) enum Effect {
    /// The world changes.
    World(Control),
    /// There is one more snapshot.
    Snapshot(Snapshot),
    /// There is one more published plan.
    Plan(PublishedPlan),
}

impl PendingChange {
    /// Returns the change of the world, with other owners of its trees, so that it can be applied
    /// to another world; `None` if no world changes. Fails only if an allocation or a reference
    /// count is refused.
    pub fn control(&self) -> Result<Option<Control>, NoMemory>
        ensures value { IfOk result (λ c. c ≡ control_of self.now.effect) }
    {
        match &self.effect {
            Effect::World(control) => share_control(control),
            Effect::Snapshot(_) => Ok(None),
            Effect::Plan(_) => Ok(None),
        }
    }
}

impl Book {
    /// Prepares a change, given that `calls` calls were accepted besides the records: runs all its
    /// tests, and then makes all allocations. A flush is not such a change, since it moves the hits
    /// of a ledger.
    ///
    /// Fails as the change itself does (`target`, `invalidate`, `snapshot`, `publish`, `install`),
    /// and then nothing changes.
    pub fn prepare(&mut self, calls: usize, entry: Record) -> Result<PendingChange, Refusal>
        requires other { IsNoFlush entry }
        ensures ready { IfOk result (λ p. (p.entry ≡ entry) × (p.calls ≡ calls)
            × IsReady self.new p) }
        ensures same { SameBook self.old self.new }
        ensures refused { IfErr result (λ told. Rejects self.old calls entry told self.new) }
    {
        self.test(calls, &entry)?;
        self.ready(calls, entry).map_err(|_| Refusal::NoMemory)
    }

    /// Commits a prepared change, provided that the book has not changed since, and returns its
    /// reply. It does not allocate, and never fails.
    pub fn commit(&mut self, change: PendingChange) -> Reply
        requires ready { IsReady self.old change }
        ensures taken { Takes self.old change.calls change.entry self.new }
        ensures reply { result ≡ reply_to self.old.definition self.old.records change.entry }
        ensures totals { self.new.totals ≡ self.old.totals }
    {
        let PendingChange {
            entry,
            effect,
            reply,
            calls: _,
        } = change;
        self.records.push_reserved(entry);
        match effect {
            Effect::World(control) => self.world.absorb(control),
            Effect::Snapshot(snapshot) => self.snapshots.push_reserved(snapshot),
            Effect::Plan(plan) => self.plans.push_reserved(plan),
        }
        reply
    }

    /// Prepares a change, commits it, and returns its reply.
    ///
    /// Fails as `prepare` does, and then nothing changes.
    pub fn accept(&mut self, calls: usize, entry: Record) -> Result<Reply, Refusal>
        requires other { IsNoFlush entry }
        ensures taken { OnOk result (Takes self.old calls entry self.new) }
        ensures reply { IfOk result (λ reply. reply
            ≡ reply_to self.old.definition self.old.records entry) }
        ensures totals { self.new.totals ≡ self.old.totals }
        ensures refused { IfErr result (λ told. Rejects self.old calls entry told self.new) }
    {
        let change = self.prepare(calls, entry)?;
        Ok(self.commit(change))
    }

    /// Publishes a plan that is known to match the problem of a snapshot. Does the same as
    /// `accept`, but does not check the plan again. O(1).
    ///
    /// Fails with `HistoryFull`, also if there are 1,024 plans, and otherwise only with `NoMemory`;
    /// then nothing changes.
    pub fn publish_for(
        &mut self,
        calls: usize,
        snapshot: usize,
        plan: SharedPlan,
    ) -> Result<Reply, Refusal>
        requires taken { IsTaken self.old.records snapshot }
        requires matching { Matches (problem_at self.old.definition self.old.records snapshot)
            plan }
        ensures taken { OnOk result (Takes self.old calls (Published snapshot plan) self.new) }
        ensures reply { IfOk result (λ reply. reply
            ≡ reply_to self.old.definition self.old.records (Published snapshot plan)) }
        ensures totals { self.new.totals ≡ self.old.totals }
        ensures refused { IfErr result
            (λ told. Rejects self.old calls (Published snapshot plan) told self.new) }
        ensures early { IfErr result (λ told. told ≡ Refusal.NoMemory
            → HasRoomForPlan self.old.limits (length self.old.records + calls) self.old.records) }
    {
        if self.plans_are_full(calls) {
            return Err(Refusal::HistoryFull);
        }
        let entry = Record::Published { snapshot, plan };
        let change = self.ready(calls, entry).map_err(|_| Refusal::NoMemory)?;
        Ok(self.commit(change))
    }

    // Makes all allocations of a change that passes its tests. Those of the records come last.
    fn ready(&mut self, calls: usize, entry: Record) -> Result<PendingChange, NoMemory>
        requires other { IsNoFlush entry }
        requires passes { MayTake self.old calls entry }
        ensures ready { IfOk result (λ p. (p.entry ≡ entry) × (p.calls ≡ calls)
            × IsReady self.new p) }
        ensures same { SameBook self.old self.new }
        ensures refused { OnErr result (self.new ≡ self.old) }
    {
        let (effect, reply) = self.effect(&entry)?;
        self.reserve()?;
        Ok(PendingChange {
            entry,
            effect,
            reply,
            calls,
        })
    }

    // Reserves room for one more record, one more snapshot and one more plan.
    fn reserve(&mut self) -> Result<(), NoMemory>
        ensures room { OnOk result (self.new.room ≡ true) }
        ensures same { SameBook self.old self.new }
        ensures refused { OnErr result (self.new ≡ self.old) }
    {
        self.snapshots.reserve(1)?;
        self.plans.reserve(1)?;
        self.records.reserve(1)?;
        Ok(())
    }

    // Returns the effect and the reply of a change that passes its tests.
    fn effect(&self, entry: &Record) -> Result<(Effect, Reply), NoMemory>
        requires other { IsNoFlush entry.now }
        requires passes { (calls : ℕ) × MayTake self.now calls entry.now }
        ensures effect { IfOk result (λ p. HasEffect self.now entry.now p.0) }
        ensures reply { IfOk result (λ p. p.1
            ≡ reply_to self.now.definition self.now.records entry.now) }
    {
        match entry {
            Record::Flushed { .. } => unreachable!(),
            Record::Targeted { site, tree } => retargeting(self.alloc, *site, tree),
            Record::Invalidated { points } => invalidation(points),
            Record::Snapped => self.snapped(),
            Record::Published { snapshot, plan } => self.publication(*snapshot, plan),
            Record::Installed { plan } => self.installation(*plan),
        }
    }

    fn snapped(&self) -> Result<(Effect, Reply), NoMemory>
        ensures effect { IfOk result (λ p. HasEffect self.now Snapped p.0) }
        ensures reply { IfOk result (λ p. p.1
            ≡ reply_to self.now.definition self.now.records Snapped) }
    {
        let sites = self.definition.sites().len();
        let taken = Snapshot::take(self.alloc, &self.totals, &self.world, sites)?;
        let snapshot = self.snapshots.len() + 1;
        Ok((Effect::Snapshot(taken), Reply::Taken { snapshot }))
    }

    fn publication(&self, snapshot: usize, plan: &SharedPlan) -> Result<(Effect, Reply), NoMemory>
        ensures effect { IfOk result (λ p. HasEffect self.now (Published snapshot plan.now) p.0) }
        ensures reply { IfOk result (λ p. p.1
            ≡ reply_to self.now.definition self.now.records (Published snapshot plan.now)) }
    {
        let kept = plan.share()?;
        let told = plan.share()?;
        let number = self.plans.len() + 1;
        let published = PublishedPlan {
            snapshot,
            plan: kept,
        };
        Ok((
            Effect::Plan(published),
            Reply::Published { number, plan: told },
        ))
    }
}

// Returns the effect of a retargeting, and its reply.
fn retargeting(alloc: Global, site: usize, tree: &Declared) -> Result<(Effect, Reply), NoMemory>
    ensures value { IfOk result (λ p. (p.0 ≡ World (Target record { site = site; tree = tree.now }))
        × (p.1 ≡ Done)) }
{
    let base = tree.share()?;
    let control = Control::Target(Retargeting::new(alloc, site, base)?);
    Ok((Effect::World(control), Reply::Done))
}

// Returns the effect of an invalidation, and its reply.
fn invalidation(points: &Listing<u32>) -> Result<(Effect, Reply), NoMemory>
    ensures value { IfOk result (λ p. (p.0 ≡ World (Invalidate points.now)) × (p.1 ≡ Done)) }
{
    let control = Control::Invalidate(points.copy()?);
    Ok((Effect::World(control), Reply::Done))
}

// Returns a copy of a control, with other owners of its trees.
fn share_control(control: &Control) -> Result<Option<Control>, NoMemory>
    ensures value { IfOk result (λ c. c ≡ Some control.now) }
{
    Ok(Some(control.share()?))
}
