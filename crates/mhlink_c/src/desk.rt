//! The value behind a desk's handle: the desk, and the names that its definition declares.

ghost use Rattle.std.specs.Prelude.{◌≡◌, IfErr, IfOk, OnErr, OnOk, length, map};
ghost use Rattle.mh_core.specs.declared.record.Record.TheVariants.{Invalidated, Snapped, Installed};
ghost use Rattle.mh_ledger.specs.Ledgers.{settled};
ghost use Rattle.mh_share.specs.Desks.{opened_callers};
ghost use Rattle.mhlink_c.specs.Callers.{opened_held_caller, with_ledger};
ghost use Rattle.mhlink_c.specs.Changes.{Installs, MakesChange, Publishes, PublishesBest, PublishesOffer, RefusesBest, RefusesChange, RefusesInvalidation, RefusesOffer, RefusesPublished, RefusesRecord, RefusesTarget, Retargets, TakesSnapshot};
ghost use Rattle.mhlink_c.specs.Desks.{DeskFlushes, DeskRecords, Holds, RefusesDeskFlush, opened_held_desk, shows};
ghost use Rattle.mhlink_c.specs.Opening.{Opens, RefusesOpening, limits_of};
ghost use Rattle.mhlink_c.specs.Statuses.{no_memory};

use crate::books::{best_plan_for, listed, read_tree};
use crate::caller::HeldCaller;
use crate::failure::Failure;
use crate::host::limits_for;
use crate::request::Change;
use crate::texts::{MhlinkLimits, read_definition};
use mh_core::{Plan, SharedPlan};
use mh_json::read_plan;
use mh_json::readers::{Declarations, Scope};
use mh_share::{Caller, Desk};
use std::alloc::Global;
use std::marker::Model;

/// A desk for C. A contract sees the desk and the names.
#[derive(Drop)]
pub(crate) struct HeldDesk {
    pub(crate) desk: Desk,
    pub(crate) scope: Scope,
}

impl Model for HeldDesk {
    ghost use Rattle.mhlink_c.specs.Desks.{HeldDeskState, coded_held_desk};

    ghost Value = { HeldDeskState };

    ghost coded = { coded_held_desk };

    ghost view = { λ h. record { desk = h.desk; scope = h.scope } };
}

impl HeldDesk {
    /// Opens the desk of a definition in JSON, with a caller for each of this many workers, in
    /// order.
    pub(crate) fn open(
        alloc: Global,
        definition: &[u8],
        workers: usize,
        limits: &MhlinkLimits,
    ) -> Result<(HeldDesk, Vec<Caller>), Failure>
        ensures opened { IfOk result (λ opened. Opens definition.now workers limits.now
            (λ d. (opened.0 ≡ opened_held_desk d workers limits.now)
            × (opened.1.items ≡ opened_callers d.definition workers (limits_of limits.now)))) }
        ensures refused { IfErr result (RefusesOpening definition.now workers limits.now) }
    {
        let limits = limits_for(workers, limits)?;
        let Declarations { definition, scope } = read_definition(alloc, definition)?;
        let (desk, callers) = Desk::open(alloc, &definition, workers as u32, limits)?;
        Ok((HeldDesk { desk, scope }, callers))
    }

    /// Publishes the current state to callers.
    pub(crate) fn show(&mut self) -> Result<(), Failure>
        ensures shows { OnOk result (self.new ≡ shows self.old) }
        ensures refused { IfErr result (λ e. e ≡ no_memory) }
        ensures kept { OnErr result (self.new ≡ self.old) }
    {
        self.desk.show()?;
        Ok(())
    }

    /// Adds a caller's hits to the totals.
    pub(crate) fn flush(&mut self, caller: &mut HeldCaller) -> Result<(), Failure>
        ensures held { OnOk result (Holds self.old caller.old.caller.ledger) }
        ensures flushed { OnOk result (DeskFlushes self.old caller.old.caller.ledger self.new) }
        ensures settled { OnOk result (caller.new
            ≡ with_ledger caller.old (settled caller.old.caller.ledger)) }
        ensures refused { IfErr result (RefusesDeskFlush self.old caller.old.caller.ledger) }
        ensures kept { OnErr result ((self.new ≡ self.old) × (caller.new ≡ caller.old)) }
    {
        self.desk.flush(&mut caller.caller)?;
        Ok(())
    }

    /// Makes a change, and returns its answer.
    pub(crate) fn change(&mut self, alloc: Global, change: Change<'_>) -> Result<u64, Failure>
        ensures makes { IfOk result (MakesChange (DeskRecords self.old self.new)
            self.old.desk.book self.old.scope change.entry) }
        ensures refused { IfErr result (RefusesChange self.old.desk.book self.old.scope
            change.entry) }
        ensures kept { OnErr result (self.new ≡ self.old) }
    {
        match change {
            Change::Target { site, tree } => self.target(alloc, site, tree),
            Change::Invalidate(points) => self.invalidate(alloc, points),
            Change::Snapshot => self.snapshot(),
            Change::Plan(snapshot) => self.plan(alloc, snapshot),
            Change::Offer { snapshot, plan } => self.offer(alloc, snapshot, plan),
            Change::Install(plan) => self.install(plan),
        }
    }

    fn target(&mut self, alloc: Global, site: usize, tree: &[u8]) -> Result<u64, Failure>
        ensures taken { OnOk result (Retargets (DeskRecords self.old self.new) self.old.scope site
            tree.now) }
        ensures refused { IfErr result (RefusesTarget self.old.desk.book self.old.scope site
            tree.now) }
        ensures kept { OnErr result (self.new ≡ self.old) }
    {
        let tree = read_tree(alloc, self.desk.book(), &self.scope, site, tree)?;
        self.desk.target(site, tree)?;
        Ok(0)
    }

    fn invalidate(&mut self, alloc: Global, points: &[u32]) -> Result<u64, Failure>
        ensures taken { OnOk result (DeskRecords self.old self.new (Invalidated points.now)) }
        ensures refused { IfErr result (RefusesInvalidation self.old.desk.book points.now) }
        ensures kept { OnErr result (self.new ≡ self.old) }
    {
        let points = listed(alloc, points)?;
        self.desk.invalidate(points)?;
        Ok(0)
    }

    fn snapshot(&mut self) -> Result<u64, Failure>
        ensures taken { IfOk result (TakesSnapshot (DeskRecords self.old self.new)
            self.old.desk.book) }
        ensures refused { IfErr result (RefusesRecord self.old.desk.book Snapped) }
        ensures kept { OnErr result (self.new ≡ self.old) }
    {
        Ok(self.desk.snapshot()? as u64)
    }

    fn install(&mut self, plan: usize) -> Result<u64, Failure>
        ensures taken { IfOk result (Installs (DeskRecords self.old self.new) self.old.desk.book
            plan) }
        ensures refused { IfErr result (RefusesRecord self.old.desk.book (Installed plan)) }
        ensures kept { OnErr result (self.new ≡ self.old) }
    {
        Ok(self.desk.install(plan)?.linked() as u64)
    }

    fn plan(&mut self, alloc: Global, snapshot: usize) -> Result<u64, Failure>
        ensures taken { IfOk result (PublishesBest (DeskRecords self.old self.new)
            self.old.desk.book snapshot) }
        ensures refused { IfErr result (RefusesBest self.old.desk.book snapshot) }
        ensures kept { OnErr result (self.new ≡ self.old) }
    {
        let plan = best_plan_for(alloc, self.desk.book(), snapshot)?;
        self.publish(alloc, snapshot, plan)
    }

    fn offer(&mut self, alloc: Global, snapshot: usize, plan: &[u8]) -> Result<u64, Failure>
        ensures taken { IfOk result (PublishesOffer (DeskRecords self.old self.new)
            self.old.desk.book snapshot plan.now) }
        ensures refused { IfErr result (RefusesOffer self.old.desk.book snapshot plan.now) }
        ensures kept { OnErr result (self.new ≡ self.old) }
    {
        let plan = read_plan(alloc, plan, None)?;
        self.publish(alloc, snapshot, plan)
    }

    fn publish(&mut self, alloc: Global, snapshot: usize, plan: Plan) -> Result<u64, Failure>
        ensures taken { IfOk result (Publishes (DeskRecords self.old self.new)
            self.old.desk.book snapshot plan) }
        ensures refused { IfErr result (RefusesPublished self.old.desk.book snapshot plan) }
        ensures kept { OnErr result (self.new ≡ self.old) }
    {
        let plan = SharedPlan::new(alloc, plan)?;
        Ok(self.desk.publish(snapshot, plan)? as u64)
    }
}
