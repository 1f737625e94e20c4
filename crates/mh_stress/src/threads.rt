//! The workers in threads of their own, and the changes concurrent with them.
ghost use Rattle.std.specs.Prelude.{◌<◌, ◌≤◌, IfOk, IfSome};
ghost use Rattle.mh_base.specs.Limits.{most_workers};
ghost use Rattle.mh_stress.specs.Rounds.{HasWorked, HaveWorked};

use crate::changes::make_changes;
use crate::division::{Call, Division};
use crate::rounds::make_rounds;
use crate::stage::{ShowRounds, Stage};
use mh_live::{ListName, Live, Pass, cross_threads};
use mh_type::values_cross_threads;
use std::alloc::{AllocError, Global};
use std::sync::Wait;
use std::thread;
use std::thread::Threads;

/// Has each worker make its rounds, in a thread of its own if one can be started, and returns the
/// passes in their order.
fn work<N: ListName + Send + Sync, T: Threads + Wait + Sync, S: ShowRounds + Sync>(
    rt: &T,
    shows: &S,
    live: &Live<N>,
    passes: Vec<Pass<N>>,
    calls: &[Call],
    rounds: u32,
) -> Result<Vec<Pass<N>>, AllocError>
    ensures worked { IfOk result (λ after. HaveWorked N.definition calls.now rounds passes.items
        after.items) }
{
    cross_threads::<N>();
    values_cross_threads();
    let share = |pass: Pass<N>| -> Pass<N>
        ensures { HasWorked N.definition calls.entry.now rounds pass result }
    { make_rounds(rt, shows, live, pass, calls, rounds) };
    thread::map_vec(rt, passes, &share)
}

/// Runs the workers' rounds, and makes the changes meanwhile. If no thread can be started, the
/// rounds are made after the changes. Returns `None` if an allocation is refused.
pub(crate) fn work_beside<
    N: ListName + Send + Sync,
    T: Threads + Wait + Sync,
    S: ShowRounds + Sync,
>(
    stage: &Stage<'_, T, S>,
    alloc: Global,
    live: &Live<N>,
    passes: Vec<Pass<N>>,
    division: Division,
    rounds: u32,
    workers: usize,
) -> Option<Vec<Pass<N>>>
    requires some { 0 < workers }
    requires few { workers ≤ most_workers }
    ensures worked { IfSome result
        (λ after. HaveWorked N.definition division.calls.items rounds passes.items after.items) }
{
    cross_threads::<N>();
    values_cross_threads();
    let Division { calls, changes } = division;
    let calls = calls.as_slice();
    let (after, _) = thread::join(
        stage.rt,
        || work(stage.rt, &stage.shows, live, passes, calls, rounds).ok(),
        ||
            requires { (0 < workers) × (workers ≤ most_workers) }
        { make_changes(stage.rt, alloc, live, changes, workers) },
    );
    after
}
