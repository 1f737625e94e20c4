//! Calls a site in several threads while another thread retargets a site that it invokes.

ghost use Rattle.std.specs.Prelude.{◌≡◌};

use crate::calling::{CallAnswer, call, given, sums};
use crate::definitions::{negation, open_invoking, successor};
use mh_live::{Declared, ListName, Live, Opening, Pass, cross_threads};
use std::alloc::Global;
use std::marker::Brand;
use std::sync::Wait;
use std::sync::atomic::{AtomicU64, Ordering};
use std::test::Fail;
use std::thread::{Threads, join, map_vec, yield_now};

/// The number of calls between two retargetings.
const CALLS_BETWEEN: u64 = 200;

/// The number of times that a retargeting checks for the calls that it awaits before it continues.
const TURNS: u64 = 10_000;

/// The number of calls of each pass.
const CALLS: u64 = 25_000;

/// The number of retargetings.
const RETARGETINGS: u64 = 400;

/// The site that is retargeted. The site 1 invokes it, and the site 0 invokes the site 1.
const RETARGETED: usize = 2;

/// The steps of the two invocations between the site 0 and the retargeted site.
const INVOCATIONS: u128 = 2;

/// A pass after its calls, and whether each call returned the right answer.
#[derive(Drop)]
struct Called<N: ListName> {
    pass: Pass<N>,
    right: bool,
}

/// Returns the answer of a call with 1 after this many retargetings, which alternate between the
/// successor and the negation.
fn after(retargetings: u64) -> CallAnswer {
    if retargetings % 2 == 0 {
        given(-1, INVOCATIONS.saturating_add(1), retargetings)
    } else {
        given(2, INVOCATIONS.saturating_add(2), retargetings)
    }
}

/// Calls once, and returns whether the answer is that of the front that it names, which is not
/// before the front that the pass had reached.
fn is_right<N: ListName>(pass: &mut Pass<N>) -> bool {
    let reached = pass.front().len();
    match call(pass, 1) {
        Ok(answer) => answer == after(answer.front()) && reached <= answer.front(),
        Err(_) => false,
    }
}

/// Makes the calls of one pass.
fn call_many<N: ListName>(mut pass: Pass<N>, made: &AtomicU64) -> Called<N> {
    let mut right = true;
    for _ in 0..CALLS {
        right = is_right(&mut pass) && right;
        made.fetch_add(1, Ordering::SeqCst);
    }
    Called { pass, right }
}

/// Waits until this many calls were made, or for many turns.
fn await_calls(made: &AtomicU64, calls: u64) {
    for _ in 0..TURNS {
        if made.load(Ordering::SeqCst) >= calls {
            return;
        }
        yield_now();
    }
}

/// Returns the passes, or `None` if a call returned a wrong answer or memory ran out.
fn take_back<N: ListName>(alloc: Global, workers: Vec<Called<N>>) -> Option<Vec<Pass<N>>> {
    let mut passes = Vec::new(alloc);
    for worker in workers {
        let Called { pass, right } = worker;
        if !right {
            return None;
        }
        passes.push(pass).ok()?;
    }
    Some(passes)
}

/// Makes the calls of each pass in a thread of its own, and returns the passes.
fn call_in_threads<N: ListName + Send + Sync, R: Threads + Sync>(
    rt: &R,
    alloc: Global,
    passes: Vec<Pass<N>>,
    made: &AtomicU64,
) -> Option<Vec<Pass<N>>> {
    cross_threads::<N>();
    let work = |pass: Pass<N>| -> Called<N> { call_many(pass, made) };
    take_back(alloc, map_vec(rt, passes, &work).ok()?)
}

/// Returns the tree of a turn.
fn tree_of(alloc: Global, turn: u64) -> Result<Declared, Fail> {
    if turn % 2 == 0 {
        successor(alloc)
    } else {
        negation(alloc)
    }
}

/// Retargets the site in a turn.
fn retarget<N: ListName, R: Wait>(
    rt: &R,
    alloc: Global,
    live: &Live<N>,
    turn: u64,
) -> Result<(), Fail> {
    live.set_target(rt, RETARGETED, tree_of(alloc, turn)?)?;
    Ok(())
}

/// Makes all retargetings, with some calls before each.
fn retarget_many<N: ListName, R: Wait>(
    rt: &R,
    alloc: Global,
    live: &Live<N>,
    made: &AtomicU64,
) -> Result<(), Fail> {
    for turn in 0..RETARGETINGS {
        await_calls(made, turn.saturating_add(1).saturating_mul(CALLS_BETWEEN));
        retarget(rt, alloc, live, turn)?;
    }
    Ok(())
}

/// Makes the calls of all passes and, concurrently, all retargetings.
fn call_beside<N: ListName + Send + Sync, R: Wait + Threads + Sync>(
    rt: &R,
    alloc: Global,
    live: &Live<N>,
    passes: Vec<Pass<N>>,
) -> Result<Vec<Pass<N>>, Fail> {
    cross_threads::<N>();
    let made = AtomicU64::new(0);
    let (called, changed) = join(
        rt,
        || call_in_threads(rt, alloc, passes, &made),
        || retarget_many(rt, alloc, live, &made),
    );
    changed?;
    Ok(called.ok_or("memory, and calls answered by the trees of their fronts")?)
}

/// The hits of the link 0 (made, flushed and unflushed), and the number of changes.
type Counts = (Option<(u128, u64, u128)>, u64);

/// Settles the office and its passes, and returns the counts.
fn counts<N: ListName, R: Wait>(
    rt: &R,
    alloc: Global,
    live: Live<N>,
    passes: Vec<Pass<N>>,
) -> Result<Counts, Fail> {
    let Ok(settled) = live.settle(rt, alloc, passes) else {
        return Err(Fail::from("it is not settled"));
    };
    Ok((sums(&settled), settled.front().len()))
}

/// Opens an office, makes all calls and retargetings, and returns the counts.
fn count_beside<N: ListName + Send + Sync, R: Wait + Threads + Sync>(
    rt: &R,
    alloc: Global,
    opening: Opening,
) -> Result<Counts, Fail>
    requires name { opening.name ≡ N.book }
    requires definition { opening.definition ≡ N.definition }
    requires limits { opening.limits ≡ N.limits }
    requires workers { opening.workers ≡ N.workers }
{
    let (live, passes) = opening.open::<N>()?;
    let passes = call_beside(rt, alloc, &live, passes)?;
    counts(rt, alloc, live, passes)
}

#[test]
fn calls_invoke_a_site_two_below_by_their_front(rt: HostRuntime) -> Result<(), Fail> {
    let opening = open_invoking(rt.alloc(), 4, 1_000, 50_000)?;
    let counts = count_beside::<Brand, _>(&rt, rt.alloc(), opening)?;
    assert_eq!(rt; counts, (Some((100_000, 0, 100_000)), 400));
    Ok(())
}
