//! Asks an office, or one of its passes, for an event of the script.

ghost use Rattle.std.specs.Prelude.{◌≡◌};

use crate::script::Input;
use crate::telling::{tell_again, tell_opened, tell_part, tell_worked};
use mh_live::mh_core::{Event, Refusal, Value};
use mh_live::{CallFault, FlushFault, ListName, Live, Opening, Pass, PassAnswer, Receipt};
use std::fmt;
use std::marker::Brand;
use std::sync::Wait;
use thiserror::Error;

/// An office with its passes.
#[derive(Drop)]
pub(crate) struct Running<N: ListName> {
    pub(crate) live: Live<N>,
    pub(crate) passes: Vec<Pass<N>>,
}

/// The answer to an event.
#[derive(Drop)]
enum Answer<N: ListName> {
    Called(PassAnswer),
    Changed(Receipt<N>),
}

impl<N: ListName> fmt::Debug for Answer<N> {
    fn fmt<W: fmt::Write>(&self, f: &mut fmt::Formatter<W>) -> fmt::Result {
        match self {
            Answer::Called(answer) => write!(f, "{answer:?}"),
            Answer::Changed(receipt) => write!(f, "{receipt:?}"),
        }
    }
}

/// The reason why an event was refused.
#[derive(Debug, Drop, Error)]
enum Refused {
    #[error("{0}")]
    Call(CallFault),
    #[error("{0}")]
    Flush(FlushFault),
    #[error("{0}")]
    Change(Refusal),
    #[error("there is no such pass")]
    NoPass,
}

/// Wraps the answer to a change.
fn changed<N: ListName>(told: Result<Receipt<N>, Refusal>) -> Result<Answer<N>, Refused> {
    match told {
        Ok(receipt) => Ok(Answer::Changed(receipt)),
        Err(refusal) => Err(Refused::Change(refusal)),
    }
}

/// Returns the pass of a worker.
fn pass_of<N: ListName>(passes: &mut Vec<Pass<N>>, worker: u32) -> Result<&mut Pass<N>, Refused> {
    match passes.get_mut(worker as usize) {
        Some(pass) => Ok(pass),
        None => Err(Refused::NoPass),
    }
}

/// Calls a site through a pass.
fn call<N: ListName>(
    pass: &mut Pass<N>,
    site: usize,
    arguments: &[Value],
) -> Result<Answer<N>, Refused> {
    match pass.call(site, arguments) {
        Ok(answer) => Ok(Answer::Called(answer)),
        Err(fault) => Err(Refused::Call(fault)),
    }
}

/// Flushes a pass.
fn flush<N: ListName, R: Wait>(
    rt: &R,
    live: &Live<N>,
    pass: &mut Pass<N>,
) -> Result<Answer<N>, Refused> {
    match live.flush(rt, pass) {
        Ok(receipt) => Ok(Answer::Changed(receipt)),
        Err(fault) => Err(Refused::Flush(fault)),
    }
}

/// Asks for an event.
fn ask<N: ListName, R: Wait>(
    rt: &R,
    running: &mut Running<N>,
    event: Event,
) -> Result<Answer<N>, Refused> {
    let Running { live, passes } = running;
    match event {
        Event::Call {
            worker,
            site,
            arguments,
        } => call(pass_of(passes, worker)?, site, arguments.as_slice()),
        Event::Flush { worker } => flush(rt, live, pass_of(passes, worker)?),
        Event::Target { site, tree } => changed(live.set_target(rt, site, tree)),
        Event::Invalidate { points } => changed(live.invalidate(rt, points)),
        Event::Snapshot => changed(live.snapshot(rt)),
        Event::Publish { snapshot, plan } => changed(live.publish(rt, snapshot, plan)),
        Event::Install { plan } => changed(live.install(rt, plan)),
    }
}

/// Asks for the events before a place.
pub(crate) fn ask_before<N: ListName, R: Wait>(
    rt: &R,
    input: Input<'_>,
    running: &mut Running<N>,
    end: usize,
) -> anyhow::Result<()> {
    for place in 0..end {
        ask(rt, running, input.event(place)?)?;
    }
    Ok(())
}

/// Asks a new office for the events before a place, then for the event there, twice.
pub(crate) fn try_event<R: Print + Wait>(
    rt: &R,
    input: Input<'_>,
    place: usize,
) -> anyhow::Result<()> {
    let opening = input.opening()?;
    try_opened::<Brand, R>(rt, input, opening, place)
}

fn try_opened<N: ListName, R: Print + Wait>(
    rt: &R,
    input: Input<'_>,
    opening: Opening,
    place: usize,
) -> anyhow::Result<()>
    requires name { opening.name ≡ N.book }
    requires definition { opening.definition ≡ N.definition }
    requires limits { opening.limits ≡ N.limits }
    requires workers { opening.workers ≡ N.workers }
{
    let (live, passes) = opening.open::<N>()?;
    let mut running = Running { live, passes };
    try_running(rt, input, &mut running, place)
}

fn try_running<N: ListName, R: Print + Wait>(
    rt: &R,
    input: Input<'_>,
    running: &mut Running<N>,
    place: usize,
) -> anyhow::Result<()> {
    ask_before(rt, input, running, place)?;
    tell(rt, running)?;
    ask_first(rt, running, input.event(place)?)?;
    tell(rt, running)?;
    ask_again(rt, running, input.event(place)?)?;
    tell(rt, running)
}

/// Asks for an event while an allocation may be refused.
fn ask_first<N: ListName, R: Print + Wait>(
    rt: &R,
    running: &mut Running<N>,
    event: Event,
) -> anyhow::Result<()> {
    tell_opened(rt)?;
    tell_worked(rt, &ask(rt, running, event))
}

/// Asks for an event with ample memory.
fn ask_again<N: ListName, R: Print + Wait>(
    rt: &R,
    running: &mut Running<N>,
    event: Event,
) -> anyhow::Result<()> {
    tell_again(rt, &ask(rt, running, event))
}

/// Prints the state of an office and its passes.
pub(crate) fn tell<N: ListName, R: Print + Wait>(
    rt: &R,
    running: &Running<N>,
) -> anyhow::Result<()> {
    for pass in running.passes.iter() {
        tell_part(rt, "ledger", pass.ledger())?;
    }
    let office = running.live.office(rt);
    tell_part(rt, "records", &office.book().records())?;
    tell_part(rt, "totals", office.book().totals())?;
    tell_part(rt, "world", office.book().world())?;
    tell_part(rt, "front", office.front())?;
    tell_part(rt, "closed", &office.closed())
}
