//! Tests that as many workers plan as are asked for.

ghost use Rattle.std.specs.Prelude.{◌<◌, ◌≤◌};

use crate::failed::Failed;
use mh_network::{LinkRow, Listing, Problem};
use mh_plan::{Gate, plan};
use std::alloc::Global;
use std::sync::atomic::{AtomicU64, Ordering};
use std::test::Fail;
use std::thread::{Threads, yield_now};

/// The number of times that a gate checks for the others, and lets other threads run, before it
/// continues: some seconds.
const TURNS: u64 = 10_000_000;

/// A gate that lets a worker continue when all have come, or after many turns, and counts those
/// that saw all come.
#[derive(Drop)]
struct MeetingGate {
    awaited: u64,
    come: AtomicU64,
    met: AtomicU64,
}

impl Gate for MeetingGate {
    fn enter(&self, _part: usize) {
        self.come.fetch_add(1, Ordering::SeqCst);
        for _ in 0..TURNS {
            if self.come.load(Ordering::SeqCst) >= self.awaited {
                self.met.fetch_add(1, Ordering::SeqCst);
                return;
            }
            yield_now();
        }
    }

    fn leave(&self, _part: usize) {}
}

/// Returns a problem of `links` links that gain 3 each, and need a point each, which costs 1.
fn links(alloc: Global, links: u32) -> Result<Problem, Failed> {
    let mut rows = Vec::new(alloc);
    let mut costs = Vec::new(alloc);
    for link in 0..links {
        rows.push(link_to(Vec::from_slice(alloc, &[link])?))?;
        costs.push(1u64)?;
    }
    Ok(Problem::new(alloc, &rows, &costs)?)
}

/// Returns a link that needs these points.
fn link_to(needs: Vec<u32>) -> LinkRow {
    LinkRow {
        gain: 3,
        eligible: true,
        needs: Listing::from_vec(needs),
        charge: 0,
    }
}

/// Returns how many of the workers see all of them at work at the same time: each waits in its part
/// for all the others.
fn meeting<R: Threads + Sync>(
    rt: &R,
    alloc: Global,
    problem: &Problem,
    workers: usize,
) -> Result<u64, Failed>
    requires some { 0 < workers }
    requires few { workers ≤ 64 }
{
    let gate = MeetingGate {
        awaited: workers as u64,
        come: AtomicU64::new(0),
        met: AtomicU64::new(0),
    };
    plan(rt, alloc, problem, workers, &gate)?;
    Ok(gate.met.load(Ordering::SeqCst))
}

#[test]
fn as_many_workers_plan_as_are_asked_for(rt: HostRuntime) -> Result<(), Fail> {
    let alloc = rt.alloc();
    assert_eq!(rt; meeting(&rt, alloc, &links(alloc, 2)?, 2)?, 2);
    assert_eq!(rt; meeting(&rt, alloc, &links(alloc, 5)?, 5)?, 5);
    Ok(())
}
