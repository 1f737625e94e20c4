//! The tests of a record, given that `calls` calls were accepted besides the records of a book.

ghost use Rattle.std.specs.Prelude.{◌≡◌, ◌⊎◌, ◌<◌, ◌≤◌, ◌+◌, ◌↔◌, length, OnOk, IfErr, IsTrue};
ghost use Rattle.std.specs.List.{All};
ghost use Rattle.mh_ledger.specs.Ledgers.{Holds};
ghost use Rattle.mh_cert.specs.Plans.{Matches, plan_tests};
ghost use Rattle.mh_core.specs.declared.record.Record.TheVariants.{Flushed, Targeted, Invalidated, Snapped, Published, Installed};
ghost use Rattle.mh_core.specs.declared.refusal.Refusal.{Refusal};
ghost use Rattle.mh_core.specs.Books.{MayRefuse, MayTake};
ghost use Rattle.mh_core.specs.Pending.{IsNoFlush};
ghost use Rattle.mh_core.specs.Limits.{most_plans};
ghost use Rattle.mh_core.specs.Records.{hits_in, plans};
ghost use Rattle.mh_base.specs.Tests.{Refuses};

use crate::book::Book;
use crate::limits::{MOST_PLANS, MOST_SNAPSHOTS};
use crate::problem::gains_fit;
use crate::record::Record;
use crate::refusal::Refusal;
use crate::shared_plan::SharedPlan;
use mh_base::are_below;
use mh_cert::{CheckFault, Plan, check};
use mh_ledger::Ledger;
use mh_network::Problem;
use mh_site::{Listing, invokes_known, invokes_lower, invokes_of_type};
use mh_tree::Declared;
use std::alloc::Global;

impl Book {
    /// Returns whether the limit of events is reached, given that `calls` calls were accepted
    /// besides the records.
    pub fn is_full(&self, calls: usize) -> bool
        ensures decides { IsTrue result
            ↔ (self.now.limits.history ≤ length self.now.records + calls) }
    {
        self.records.len().saturating_add(calls) as u64 >= self.limits.history()
    }

    // Runs the tests of a record other than a flush, and reports the first that fails.
    pub(crate) fn test(&self, calls: usize, entry: &Record) -> Result<(), Refusal>
        requires other { IsNoFlush entry.now }
        ensures passes { OnOk result (MayTake self.now calls entry.now) }
        ensures refuses { IfErr result (MayRefuse self.now calls entry.now) }
    {
        match entry {
            Record::Flushed { .. } => unreachable!(),
            Record::Targeted { site, tree } => self.test_target(calls, *site, tree),
            Record::Invalidated { points } => self.test_points(calls, points),
            Record::Snapped => self.test_snapshot(calls),
            Record::Published { snapshot, plan } => self.test_publish(calls, *snapshot, plan),
            Record::Installed { plan } => self.test_install(calls, *plan),
        }
    }

    // Runs the tests of a flush, and reports the first that fails.
    pub(crate) fn test_flush(&self, calls: usize, ledger: &Ledger) -> Result<(), Refusal>
        requires held { Holds self.now.totals ledger.now }
        ensures passes { OnOk result (MayTake self.now calls (Flushed ledger.now.worker (hits_in ledger.now.unflushed))) }
        ensures refuses { IfErr result
            (λ told. MayRefuse self.now calls (Flushed ledger.now.worker (hits_in ledger.now.unflushed)) told) }
    {
        if self.is_full(calls) {
            return Err(Refusal::HistoryFull);
        }
        if !self.totals.has_room(ledger) {
            return Err(Refusal::TotalTooLarge);
        }
        Ok(())
    }

    // Runs the tests of a retargeting, and reports the first that fails.
    fn test_target(&self, calls: usize, site: usize, tree: &Declared) -> Result<(), Refusal>
        ensures passes { OnOk result (MayTake self.now calls (Targeted site tree.now)) }
        ensures refuses { IfErr result
            (λ told. MayRefuse self.now calls (Targeted site tree.now) told) }
    {
        let handle = tree.handle();
        let sites = self.definition.sites();
        if site >= sites.len() || !invokes_known(sites, handle) {
            return Err(Refusal::NoSite);
        }
        let declared = self.definition.method_type(site);
        if !handle.method_type().equals(declared) || !invokes_of_type(sites, handle) {
            return Err(Refusal::WrongType);
        }
        if handle.point_bound() > self.definition.points().len() {
            return Err(Refusal::NoPoint);
        }
        if !invokes_lower(sites, self.definition.level(site), handle) {
            return Err(Refusal::WrongLevel);
        }
        if self.is_full(calls) {
            return Err(Refusal::HistoryFull);
        }
        Ok(())
    }

    // Runs the tests of an invalidation, and reports the first that fails.
    fn test_points(&self, calls: usize, points: &Listing<u32>) -> Result<(), Refusal>
        ensures passes { OnOk result (MayTake self.now calls (Invalidated points.now)) }
        ensures refuses { IfErr result
            (λ told. MayRefuse self.now calls (Invalidated points.now) told) }
    {
        if !are_below(points.as_slice(), self.definition.points().len()) {
            return Err(Refusal::NoPoint);
        }
        if self.is_full(calls) {
            return Err(Refusal::HistoryFull);
        }
        Ok(())
    }

    // Runs the tests of a snapshot, and reports the first that fails.
    fn test_snapshot(&self, calls: usize) -> Result<(), Refusal>
        ensures passes { OnOk result (MayTake self.now calls Snapped) }
        ensures refuses { IfErr result
            (λ told. MayRefuse self.now calls Snapped told) }
    {
        if self.is_full(calls) || self.snapshots.len() >= MOST_SNAPSHOTS {
            return Err(Refusal::HistoryFull);
        }
        let totals = self.totals.as_slice();
        if !gains_fit(&self.definition, totals, self.world.valid()) {
            return Err(Refusal::GainTooLarge);
        }
        Ok(())
    }

    // Runs the tests of a plan that is offered, and reports the first that fails.
    fn test_publish(&self, calls: usize, snapshot: usize, plan: &SharedPlan) -> Result<(), Refusal>
        ensures passes { OnOk result (MayTake self.now calls (Published snapshot plan.now)) }
        ensures refuses { IfErr result
            (λ told. MayRefuse self.now calls (Published snapshot plan.now)
            told) }
    {
        let problem = self.problem(snapshot)?;
        test_plan(self.alloc, &problem, plan.plan())?;
        if self.plans_are_full(calls) {
            return Err(Refusal::HistoryFull);
        }
        Ok(())
    }

    // Returns whether the limit of events or that of published plans is reached.
    pub(crate) fn plans_are_full(&self, calls: usize) -> bool
        ensures decides { IsTrue result ↔ ((self.now.limits.history
            ≤ length self.now.records + calls) ⊎ (most_plans ≤ plans self.now.records)) }
    {
        self.is_full(calls) || self.plans.len() >= MOST_PLANS
    }

    // Runs the tests of an installation, and reports the first that fails.
    fn test_install(&self, calls: usize, plan: usize) -> Result<(), Refusal>
        ensures passes { OnOk result (MayTake self.now calls (Installed plan)) }
        ensures refuses { IfErr result
            (λ told. MayRefuse self.now calls (Installed plan) told) }
    {
        let newest = self.plans.len();
        if plan == 0 || plan > newest {
            return Err(Refusal::NoPlan);
        }
        if plan != newest {
            return Err(Refusal::OldPlan(newest));
        }
        if self.is_full(calls) {
            return Err(Refusal::HistoryFull);
        }
        Ok(())
    }
}

// Tests whether a plan matches its problem. If it does not, reports its first part that is wrong.
fn test_plan(alloc: Global, problem: &Problem, plan: &Plan) -> Result<(), Refusal>
    ensures matching { OnOk result (Matches problem.now plan.now) }
    ensures refused { IfErr result (λ told. (told ≡ Refusal.NoMemory)
        ⊎ ((Matches problem.now plan.now → ⊥)
        × ((fault : CheckFault) × (told ≡ Refusal.PlanRefused fault)
        × Refuses (plan_tests problem.now plan.now) fault))) }
{
    match check(alloc, problem, plan) {
        Ok(()) => Ok(()),
        Err(CheckFault::NoMemory) => Err(Refusal::NoMemory),
        Err(fault) => Err(Refusal::PlanRefused(fault)),
    }
}
