//! Settles an office and its passes.

ghost use Rattle.std.specs.Prelude.{◌≡◌};

use crate::offices::{Running, ask_before, tell};
use crate::script::Input;
use crate::telling::{tell_again, tell_opened, tell_worked};
use mh_live::{ListName, Opening, SettleFault, Settled, Unsettled};
use std::alloc::Global;
use std::marker::Brand;
use std::sync::Wait;

/// Asks a new office for all events, and settles it, again if that is refused.
pub(crate) fn try_settle<R: Print + Wait>(rt: &R, input: Input<'_>) -> anyhow::Result<()> {
    let opening = input.opening()?;
    try_opened::<Brand, R>(rt, input, opening)
}

fn try_opened<N: ListName, R: Print + Wait>(
    rt: &R,
    input: Input<'_>,
    opening: Opening,
) -> anyhow::Result<()>
    requires name { opening.name ≡ N.book }
    requires definition { opening.definition ≡ N.definition }
    requires limits { opening.limits ≡ N.limits }
    requires workers { opening.workers ≡ N.workers }
{
    let (live, passes) = opening.open::<N>()?;
    let mut running = Running { live, passes };
    make_ready(rt, input, &mut running)?;
    settle_first(rt, input.alloc, running)
}

/// Asks for all events, and prints the state and that all is ready.
fn make_ready<N: ListName, R: Print + Wait>(
    rt: &R,
    input: Input<'_>,
    running: &mut Running<N>,
) -> anyhow::Result<()> {
    ask_before(rt, input, running, input.count()?)?;
    tell(rt, running)?;
    tell_opened(rt)
}

/// Settles while an allocation may be refused, and again if it was.
fn settle_first<N: ListName, R: Print + Wait>(
    rt: &R,
    alloc: Global,
    running: Running<N>,
) -> anyhow::Result<()> {
    match settle(rt, alloc, running) {
        Ok(settled) => tell_worked::<usize, SettleFault>(rt, &Ok(settled.links())),
        Err(unsettled) => settle_again(rt, alloc, unsettled),
    }
}

/// Settles an office and its passes.
fn settle<N: ListName, R: Wait>(
    rt: &R,
    alloc: Global,
    running: Running<N>,
) -> Result<Settled<N>, Unsettled<N>> {
    let Running { live, passes } = running;
    live.settle(rt, alloc, passes)
}

/// Prints why a settlement was refused, and the state of what was handed back, and settles again.
fn settle_again<N: ListName, R: Print + Wait>(
    rt: &R,
    alloc: Global,
    unsettled: Unsettled<N>,
) -> anyhow::Result<()> {
    let Unsettled {
        live,
        passes,
        fault,
    } = unsettled;
    let running = Running { live, passes };
    tell_refused(rt, &running, fault)?;
    settle_last(rt, alloc, running)
}

/// Prints why a settlement was refused, and the state of what was handed back.
fn tell_refused<N: ListName, R: Print + Wait>(
    rt: &R,
    running: &Running<N>,
    fault: SettleFault,
) -> anyhow::Result<()> {
    tell_worked::<usize, SettleFault>(rt, &Err(fault))?;
    tell(rt, running)
}

/// Settles with ample memory.
fn settle_last<N: ListName, R: Print + Wait>(
    rt: &R,
    alloc: Global,
    running: Running<N>,
) -> anyhow::Result<()> {
    match settle(rt, alloc, running) {
        Ok(settled) => tell_again::<usize, SettleFault>(rt, &Ok(settled.links())),
        Err(unsettled) => tell_again::<usize, SettleFault>(rt, &Err(unsettled.fault)),
    }
}
