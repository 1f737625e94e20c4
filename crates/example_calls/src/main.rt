//! The program `example_calls`: how code makes a definition, opens a runtime, calls, plans for what the
//! calls hit, installs the plan, invalidates and retargets. It has the point, the site and the first
//! link of `examples/counted-calls.json`, and prints a line for each event.
#![tactic(auto)]

mod definition;
mod events;
mod planning;
mod telling;

use crate::definition::{F, G, open};
use crate::events::{flush, invalidate, retarget, take_snapshot};
use crate::planning::{install, publish};
use crate::telling::tell_call;
use mh_core::Runtime;
use std::alloc::Global;
use std::thread::Threads;

fn main(rt: HostRuntime) -> anyhow::Result<()> {
    let alloc = rt.alloc();
    let mut runtime = open(alloc)?;
    count_hits(&rt, &mut runtime)?;
    link_site(&rt, alloc, &mut runtime)?;
    change_site(&rt, alloc, &mut runtime)
}

/// Makes calls, of which two hit the link, and takes a snapshot of the hits.
fn count_hits(rt: &impl Print, runtime: &mut Runtime) -> anyhow::Result<()> {
    tell_call(rt, runtime, F, 1)?;
    tell_call(rt, runtime, F, 1)?;
    tell_call(rt, runtime, F, 2)?;
    flush(rt, runtime)?;
    take_snapshot(rt, runtime)
}

/// Publishes a plan for the snapshot, installs it, and makes calls through the inline cache and
/// past it.
fn link_site<R: Print + Threads + Sync>(
    rt: &R,
    alloc: Global,
    runtime: &mut Runtime,
) -> anyhow::Result<()> {
    publish(rt, alloc, runtime)?;
    install(rt, runtime)?;
    tell_call(rt, runtime, F, 1)?;
    tell_call(rt, runtime, F, 2)
}

/// Makes calls after an invalidation, and after a retargeting, which `g` sees, too.
fn change_site(rt: &impl Print, alloc: Global, runtime: &mut Runtime) -> anyhow::Result<()> {
    invalidate(rt, alloc, runtime)?;
    tell_call(rt, runtime, F, 1)?;
    retarget(rt, alloc, runtime)?;
    tell_call(rt, runtime, F, 1)?;
    tell_call(rt, runtime, G, 3)
}
