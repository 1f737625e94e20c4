//! The changes that the main thread makes while workers call.
ghost use Rattle.std.specs.Prelude.{◌<◌, ◌≤◌};
ghost use Rattle.mh_base.specs.Limits.{most_workers};

use mh_core::{Event, Refusal};
use mh_json::Step;
use mh_live::{ListName, Live, Receipt};
use mh_text::best_plan;
use std::alloc::Global;
use std::sync::Wait;
use std::thread::Threads;

/// Makes the changes, one after another, each once. Refused changes are skipped.
pub(crate) fn make_changes<N: ListName, T: Threads + Wait + Sync>(
    rt: &T,
    alloc: Global,
    live: &Live<N>,
    changes: Vec<Step>,
    workers: usize,
)
    requires some { 0 < workers }
    requires few { workers ≤ most_workers }
{
    for step in changes {
        let _receipt = make_change(rt, alloc, live, step, workers);
    }
}

/// Makes one change. Returns `None` if the step is a call or a flush, which workers make.
fn make_change<N: ListName, T: Threads + Wait + Sync>(
    rt: &T,
    alloc: Global,
    live: &Live<N>,
    step: Step,
    workers: usize,
) -> Option<Result<Receipt<N>, Refusal>>
    requires some { 0 < workers }
    requires few { workers ≤ most_workers }
{
    match step {
        Step::Plan { snapshot } => Some(publish(rt, alloc, live, snapshot, workers)),
        Step::Ask(event) => ask(rt, live, event),
    }
}

/// Makes a plan for a snapshot, and publishes it.
fn publish<N: ListName, T: Threads + Wait + Sync>(
    rt: &T,
    alloc: Global,
    live: &Live<N>,
    snapshot: usize,
    workers: usize,
) -> Result<Receipt<N>, Refusal>
    requires some { 0 < workers }
    requires few { workers ≤ most_workers }
{
    let problem = live.problem(rt, snapshot)?;
    let plan = best_plan(rt, alloc, &problem, workers)?;
    live.publish(rt, snapshot, plan)
}

/// Asks the office to apply an event, and returns its reply.
fn ask<N: ListName, R: Wait>(
    rt: &R,
    live: &Live<N>,
    event: Event,
) -> Option<Result<Receipt<N>, Refusal>> {
    match event {
        Event::Call { .. } | Event::Flush { .. } => None,
        Event::Target { site, tree } => Some(live.set_target(rt, site, tree)),
        Event::Invalidate { points } => Some(live.invalidate(rt, points)),
        Event::Snapshot => Some(live.snapshot(rt)),
        Event::Publish { snapshot, plan } => Some(live.publish(rt, snapshot, plan)),
        Event::Install { plan } => Some(live.install(rt, plan)),
    }
}
