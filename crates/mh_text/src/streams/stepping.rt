//! Answering the steps of a script.
ghost use Rattle.std.specs.Prelude.{◌≡◌, ◌<◌, ◌≤◌, IfOk, IfErr, OnOk};
ghost use Rattle.mh_network.specs.Selection.{IsLeast, member};
ghost use Rattle.mh_cert.specs.Plans.{Matches};
ghost use Rattle.mh_core.specs.Histories.{records};
ghost use Rattle.mh_core.specs.Legal.{Step as legal_step};
ghost use Rattle.mh_core.specs.Problems.{IsTaken, problem_at};
ghost use Rattle.mh_core.specs.declared.event.Event.TheVariants.{Publish};
ghost use Rattle.mh_base.specs.Limits.{most_workers};
ghost use Rattle.mh_text.specs.Steps.{Answers, IsUnplanned, IsBestFor};
ghost use Rattle.mh_json.specs.declared.json.step.Step.TheVariants.{Plan as ask_plan};

use mh_base::MOST_WORKERS;
use mh_core::{Machine, Refusal, Reply, SharedPlan};
use mh_json::Step;
use mh_network::Problem;
use mh_plan::{OpenGate, plan};
use std::alloc::Global;
use std::thread::Threads;

/// Answers one step.
pub(crate) fn answer<T: Threads + Sync>(
    rt: &T,
    alloc: Global,
    machine: &mut Machine,
    step: Step,
) -> Reply
    ensures step { Answers machine.old.setting machine.old.history step result machine.new.history }
    ensures setting { machine.new.setting ≡ machine.old.setting }
{
    match step {
        Step::Ask(event) => machine.step(event),
        Step::Plan { snapshot } => publish(rt, alloc, machine, snapshot),
    }
}

/// Makes a plan for a snapshot, and publishes it. The problem is made once.
fn publish<T: Threads + Sync>(
    rt: &T,
    alloc: Global,
    machine: &mut Machine,
    snapshot: usize,
) -> Reply
    ensures step { Answers machine.old.setting machine.old.history
        (ask_plan snapshot) result machine.new.history }
    ensures setting { machine.new.setting ≡ machine.old.setting }
{
    match make_plan(rt, alloc, machine, snapshot) {
        Ok(plan) => offer(machine, snapshot, plan),
        Err(refusal) => Reply::Refused(refusal),
    }
}

/// Publishes a plan that matches the problem of a snapshot.
fn offer(machine: &mut Machine, snapshot: usize, plan: SharedPlan) -> Reply
    requires taken { IsTaken (records machine.old.setting.definition machine.old.history) snapshot }
    requires matching { Matches (problem_at machine.old.setting.definition
        (records machine.old.setting.definition machine.old.history) snapshot) plan }
    ensures step { legal_step machine.old.setting machine.old.history (Publish snapshot plan) result
        machine.new.history }
    ensures setting { machine.new.setting ≡ machine.old.setting }
{
    match machine.publish_for(snapshot, plan) {
        Ok(reply) => reply,
        Err(refusal) => Reply::Refused(refusal),
    }
}

/// Returns the best plan for the problem of a snapshot, with the fewest links.
fn make_plan<T: Threads + Sync>(
    rt: &T,
    alloc: Global,
    machine: &Machine,
    snapshot: usize,
) -> Result<SharedPlan, Refusal>
    ensures taken { OnOk result
        (IsTaken (records machine.now.setting.definition machine.now.history) snapshot) }
    ensures best { IfOk result (IsBestFor machine.now.setting machine.now.history snapshot) }
    ensures refused { IfErr result
        (λ told. IsUnplanned machine.now.setting machine.now.history snapshot
        (Reply.Refused told)) }
{
    let problem = machine.book().problem(snapshot)?;
    let workers = (machine.workers() as usize).clamp(1, MOST_WORKERS as usize);
    let plan = best_plan(rt, alloc, &problem, workers)?;
    Ok(plan)
}

/// Returns the best plan of a problem, with the fewest links, made by `workers` workers, 1 to 64.
///
/// Fails only with `NoMemory`, if an allocation is refused.
pub fn best_plan<T: Threads + Sync>(
    rt: &T,
    alloc: Global,
    problem: &Problem,
    workers: usize,
) -> Result<SharedPlan, Refusal>
    requires some { 0 < workers }
    requires few { workers ≤ most_workers }
    ensures matching { IfOk result (λ plan. Matches problem.now plan) }
    ensures least { IfOk result (λ plan. IsLeast problem.now (member plan.links)) }
    ensures refused { IfErr result (λ told. told ≡ Refusal.NoMemory) }
{
    let Ok(plan) = plan(rt, alloc, problem, workers, &OpenGate) else {
        return Err(Refusal::NoMemory);
    };
    SharedPlan::new(alloc, plan).map_err(|_| Refusal::NoMemory)
}
