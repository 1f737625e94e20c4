//! Scenarios: the steps of an office and its passes, one after another, and the answer to each.

ghost use Rattle.std.specs.Prelude.{◌≡◌};

use crate::calling::hits;
use crate::definitions::{negation, successor, sum};
use mh_base::Listing;
use mh_cert::Plan;
use mh_core::{Refusal, SharedPlan};
use mh_live::{Declared, ListName, Live, Opening, Pass, Receipt};
use mh_plan::{OpenGate, plan};
use mh_type::Value;
use std::alloc::Global;
use std::marker::Brand;
use std::sync::Wait;
use std::test::Fail;
use std::thread::Threads;

/// A tree that a site is given.
#[derive(Clone, Copy)]
pub(crate) enum Tree {
    /// The argument negated: 1 step.
    Negation,
    /// One more than the argument: 2 steps.
    Successor,
    /// A tree of the type (int,int)int.
    Sum,
}

/// A step of a scenario. Passes, sites, points and receipts are numbered from 0, snapshots and
/// plans from 1.
#[derive(Clone, Copy)]
pub(crate) enum Step {
    /// A pass calls the site 0 with an int.
    Call(usize, i32),
    /// A pass calls a site with no argument.
    CallBare(usize, usize),
    /// The counts of a pass for the link 0 are asked for.
    Count(usize),
    /// A pass is flushed.
    Flush(usize),
    /// A site gets a tree.
    Target(usize, Tree),
    /// The site 0 gets a tree through the locked office.
    TargetByOffice(Tree),
    /// A point becomes invalid.
    Invalidate(u32),
    /// A snapshot is taken.
    Snapshot,
    /// The problem of a snapshot is asked for.
    Problem(usize),
    /// The planner's plan of a snapshot is published.
    Plan(usize),
    /// The link 0, without a point, is published for a snapshot with this value.
    Publish(usize, i64),
    /// A plan is installed.
    Install(usize),
    /// A pass learns a receipt.
    Learn(usize, usize),
    /// Each pass learns the last receipt.
    LearnAll,
}

/// An office with its passes, and the receipts of what it accepted.
#[derive(Drop)]
struct Running<N: ListName> {
    live: Live<N>,
    passes: Vec<Pass<N>>,
    receipts: Vec<Receipt<N>>,
}

fn tree_of(alloc: Global, tree: &Tree) -> Result<Declared, Fail> {
    match tree {
        Tree::Negation => negation(alloc),
        Tree::Successor => successor(alloc),
        Tree::Sum => sum(alloc),
    }
}

/// Returns the pass at an index.
fn pass_at<N: ListName>(passes: &mut Vec<Pass<N>>, place: usize) -> Result<&mut Pass<N>, Fail> {
    match passes.get_mut(place) {
        Some(pass) => Ok(pass),
        None => Err(Fail::from("there is no such pass")),
    }
}

/// Returns the outcome of a call, its steps, and the number of changes of the world that answers
/// it.
fn call<N: ListName>(
    alloc: Global,
    pass: &mut Pass<N>,
    site: usize,
    arguments: &[Value],
) -> Result<String, Fail> {
    match pass.call(site, arguments) {
        Ok(answer) => {
            let (steps, front) = (answer.steps, answer.front);
            Ok(format!(in alloc; "{}, steps {steps}, front {front}", answer.outcome)?)
        }
        Err(fault) => Ok(format!(in alloc; "refused {fault}")?),
    }
}

/// Returns the number of a pass's worker, the hits of the link 0, and how many changes the pass has
/// seen.
fn count<N: ListName>(alloc: Global, pass: &Pass<N>) -> Result<String, Fail> {
    let Some((unflushed, made)) = hits(pass) else {
        return Err(Fail::from("there is no link"));
    };
    let (worker, front) = (pass.worker(), pass.front().len());
    Ok(format!(in alloc; "worker {worker}, unflushed {unflushed} of {made}, front {front}")?)
}

/// Returns the text of a receipt.
fn read<N: ListName>(alloc: Global, receipt: &Receipt<N>) -> Result<String, Fail> {
    let front = receipt.front().len();
    Ok(format!(in alloc; "{}, front {front}", receipt.reply())?)
}

/// Stores the receipt of an accepted event, and returns its text.
fn keep<N: ListName>(
    alloc: Global,
    receipts: &mut Vec<Receipt<N>>,
    receipt: Receipt<N>,
) -> Result<String, Fail> {
    receipts.push(receipt)?;
    match receipts.last() {
        Some(receipt) => read(alloc, receipt),
        None => Err(Fail::from("there is no receipt")),
    }
}

/// Stores the receipt of an event, and returns its text, or the reason why there is none.
fn keep_or_tell<N: ListName>(
    alloc: Global,
    receipts: &mut Vec<Receipt<N>>,
    told: Result<Receipt<N>, Refusal>,
) -> Result<String, Fail> {
    match told {
        Ok(receipt) => keep(alloc, receipts, receipt),
        Err(refusal) => Ok(format!(in alloc; "refused {refusal}")?),
    }
}

/// Returns the plan of the link 0, no point, and this value.
fn one_link(alloc: Global, value: i64) -> Result<SharedPlan, Fail> {
    let plan = Plan {
        links: Listing::from_vec(Vec::from_slice(alloc, &[0])?),
        points: Listing::from_vec(Vec::new(alloc)),
        value,
        flow: Listing::from_vec(Vec::new(alloc)),
        charges: Listing::from_vec(Vec::new(alloc)),
    };
    Ok(SharedPlan::new(alloc, plan)?)
}

/// Returns the planner's plan of a snapshot.
fn planned<N: ListName, R: Wait + Threads + Sync>(
    rt: &R,
    alloc: Global,
    live: &Live<N>,
    snapshot: usize,
) -> Result<SharedPlan, Fail> {
    let problem = live.problem(rt, snapshot)?;
    Ok(SharedPlan::new(alloc, plan(rt, alloc, &problem, 1, &OpenGate)?)?)
}

/// Returns how many links the problem of a snapshot has.
fn problem<N: ListName, R: Wait>(
    rt: &R,
    alloc: Global,
    live: &Live<N>,
    snapshot: usize,
) -> Result<String, Fail> {
    match live.problem(rt, snapshot) {
        Ok(problem) => Ok(format!(in alloc; "links {}", problem.links())?),
        Err(refusal) => Ok(format!(in alloc; "refused {refusal}")?),
    }
}

/// Retargets the site 0 through the locked office, and returns whether the office is closed
/// afterwards, and how many changes it counts.
fn target_by_office<N: ListName, R: Wait>(
    rt: &R,
    alloc: Global,
    live: &Live<N>,
    tree: &Tree,
) -> Result<String, Fail> {
    let tree = tree_of(alloc, tree)?;
    let mut office = live.office(rt);
    office.target(rt, 0, tree)?;
    let (closed, front) = (office.closed(), office.front().len());
    Ok(format!(in alloc; "closed {closed}, front {front}")?)
}

/// Invalidates a point.
fn invalidate<N: ListName, R: Wait>(
    rt: &R,
    alloc: Global,
    running: &mut Running<N>,
    point: u32,
) -> Result<String, Fail> {
    let points = Listing::from_vec(Vec::from_slice(alloc, &[point])?);
    let told = running.live.invalidate(rt, points);
    keep_or_tell(alloc, &mut running.receipts, told)
}

/// Gives a site a tree.
fn target<N: ListName, R: Wait>(
    rt: &R,
    alloc: Global,
    running: &mut Running<N>,
    site: usize,
    tree: &Tree,
) -> Result<String, Fail> {
    let tree = tree_of(alloc, tree)?;
    let told = running.live.set_target(rt, site, tree);
    keep_or_tell(alloc, &mut running.receipts, told)
}

/// Publishes a plan for a snapshot.
fn publish<N: ListName, R: Wait>(
    rt: &R,
    alloc: Global,
    running: &mut Running<N>,
    snapshot: usize,
    plan: SharedPlan,
) -> Result<String, Fail> {
    let told = running.live.publish(rt, snapshot, plan);
    keep_or_tell(alloc, &mut running.receipts, told)
}

/// Flushes a pass.
fn flush<N: ListName, R: Wait>(
    rt: &R,
    alloc: Global,
    running: &mut Running<N>,
    pass: usize,
) -> Result<String, Fail> {
    let pass = pass_at(&mut running.passes, pass)?;
    match running.live.flush(rt, pass) {
        Ok(receipt) => keep(alloc, &mut running.receipts, receipt),
        Err(fault) => Ok(format!(in alloc; "refused {fault}")?),
    }
}

/// Makes a pass learn a receipt.
fn learn<N: ListName>(
    alloc: Global,
    running: &mut Running<N>,
    pass: usize,
    receipt: usize,
) -> Result<String, Fail> {
    let Some(receipt) = running.receipts.get(receipt) else {
        return Err(Fail::from("there is no such receipt"));
    };
    let pass = pass_at(&mut running.passes, pass)?;
    pass.learn(receipt);
    Ok(format!(in alloc; "front {}", pass.front().len())?)
}

/// Makes each pass learn the last receipt.
fn learn_all<N: ListName>(alloc: Global, running: &mut Running<N>) -> Result<String, Fail> {
    let Some(receipt) = running.receipts.last() else {
        return Err(Fail::from("there is no receipt"));
    };
    for pass in running.passes.iter_mut() {
        pass.learn(receipt);
    }
    Ok(format!(in alloc; "front {}", receipt.front().len())?)
}

/// Takes a snapshot.
fn take<N: ListName, R: Wait>(
    rt: &R,
    alloc: Global,
    running: &mut Running<N>,
) -> Result<String, Fail> {
    let told = running.live.snapshot(rt);
    keep_or_tell(alloc, &mut running.receipts, told)
}

/// Publishes the planner's plan of a snapshot.
fn publish_planned<N: ListName, R: Wait + Threads + Sync>(
    rt: &R,
    alloc: Global,
    running: &mut Running<N>,
    snapshot: usize,
) -> Result<String, Fail> {
    let plan = planned(rt, alloc, &running.live, snapshot)?;
    publish(rt, alloc, running, snapshot, plan)
}

/// Installs a plan.
fn install<N: ListName, R: Wait>(
    rt: &R,
    alloc: Global,
    running: &mut Running<N>,
    plan: usize,
) -> Result<String, Fail> {
    let told = running.live.install(rt, plan);
    keep_or_tell(alloc, &mut running.receipts, told)
}

/// Makes one step, and returns its answer.
fn ask<N: ListName, R: Wait + Threads + Sync>(
    rt: &R,
    alloc: Global,
    running: &mut Running<N>,
    step: &Step,
) -> Result<String, Fail> {
    match step {
        Step::Call(pass, argument) => {
            let pass = pass_at(&mut running.passes, *pass)?;
            call(alloc, pass, 0, &[Value::Int(*argument)])
        }
        Step::CallBare(pass, site) => call(alloc, pass_at(&mut running.passes, *pass)?, *site, &[]),
        Step::Count(pass) => count(alloc, pass_at(&mut running.passes, *pass)?),
        Step::Flush(pass) => flush(rt, alloc, running, *pass),
        Step::Target(site, tree) => target(rt, alloc, running, *site, tree),
        Step::TargetByOffice(tree) => target_by_office(rt, alloc, &running.live, tree),
        Step::Invalidate(point) => invalidate(rt, alloc, running, *point),
        Step::Snapshot => take(rt, alloc, running),
        Step::Problem(snapshot) => problem(rt, alloc, &running.live, *snapshot),
        Step::Plan(snapshot) => publish_planned(rt, alloc, running, *snapshot),
        Step::Publish(snapshot, value) => {
            publish(rt, alloc, running, *snapshot, one_link(alloc, *value)?)
        }
        Step::Install(plan) => install(rt, alloc, running, *plan),
        Step::Learn(pass, receipt) => learn(alloc, running, *pass, *receipt),
        Step::LearnAll => learn_all(alloc, running),
    }
}

/// Makes all steps, and returns how many of them had the answers next to them, which are all. Fails
/// with the first answer that differs.
fn ask_all<N: ListName, R: Wait + Threads + Sync>(
    rt: &R,
    alloc: Global,
    running: &mut Running<N>,
    table: &[(Step, &str)],
) -> Result<usize, Fail> {
    for (step, wanted) in table {
        let told = ask(rt, alloc, running, step)?;
        if told.as_str() != *wanted {
            return Err(Fail::from(format!(in alloc; "{told}, where {wanted} was to come")?));
        }
    }
    Ok(table.len())
}

/// Plays the scenario under a name.
fn play_named<N: ListName, R: Wait + Threads + Sync>(
    rt: &R,
    alloc: Global,
    opening: Opening,
    table: &[(Step, &str)],
) -> Result<usize, Fail>
    requires name { opening.name ≡ N.book }
    requires definition { opening.definition ≡ N.definition }
    requires limits { opening.limits ≡ N.limits }
    requires workers { opening.workers ≡ N.workers }
{
    let (live, passes) = opening.open::<N>()?;
    let mut running = Running {
        live,
        passes,
        receipts: Vec::new(alloc),
    };
    ask_all(rt, alloc, &mut running, table)
}

/// Plays the steps of a table on a newly opened office and its passes, and returns how many of them
/// had the answers next to them, which are all. Fails with the first answer that differs.
pub(crate) fn play<R: Wait + Threads + Sync>(
    rt: &R,
    alloc: Global,
    opening: Opening,
    table: &[(Step, &str)],
) -> Result<usize, Fail> {
    play_named::<Brand, _>(rt, alloc, opening, table)
}
