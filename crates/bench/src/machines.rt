//! Makes calls of machines.

ghost use Rattle.std.specs.Prelude.{◌≡◌, IfOk};

use crate::request::Way;
use crate::subject::Subject;
use crate::tally::Tally;
use mh_core::{Arguments, Definition, Event, Limits, Machine, NoMemory, Refusal, Reply};
use mh_type::{Outcome, Value};
use std::alloc::Global;
use thiserror::Error;

/// The calls of one machine, so that with their flushes they are at most 2^20 events.
const CALLS_OF_A_MACHINE: u64 = 1_000_000;

/// The calls before each flush.
const CALLS_OF_A_FLUSH: u64 = 1_000;

/// Opens a machine of one worker with the widest limits.
fn open(alloc: Global, definition: &Definition) -> anyhow::Result<Machine> {
    let Some(limits) = Limits::new(1 << 20, 1 << 20, 1 << 40) else {
        anyhow::bail!("the limits are out of range");
    };
    let machine = Machine::open(alloc, definition, 1, limits)?;
    Ok(machine)
}

/// The reason why a call of a machine has no outcome. It is small, so that a call copies little.
#[derive(Clone, Copy, Debug, PartialEq, Eq, Error)]
enum Unanswered {
    /// Memory for the arguments was refused.
    #[error("memory allocation failed")]
    NoMemory,
    /// The machine refused the call.
    #[error("{0}")]
    Refused(Refusal),
    /// The reply is not that of a call.
    #[error("another reply")]
    OtherReply,
}

/// Makes one call of a site.
#[inline(never)]
fn step_once(
    machine: &mut Machine,
    alloc: Global,
    site: usize,
    arguments: &[Value],
) -> Result<(Outcome, u128), Unanswered> {
    let Ok(arguments) = owned(alloc, arguments) else {
        return Err(Unanswered::NoMemory);
    };
    let call = Event::Call {
        worker: 0,
        site,
        arguments,
    };
    match machine.step(call) {
        Reply::Called { outcome, steps } => Ok((outcome, steps)),
        Reply::Refused(refusal) => Err(Unanswered::Refused(refusal)),
        _ => Err(Unanswered::OtherReply),
    }
}

/// Copies the arguments of one call. Two or fewer allocate nothing.
fn owned(alloc: Global, arguments: &[Value]) -> Result<Arguments, NoMemory>
    ensures value { IfOk result (λ a. a ≡ arguments.now) }
{
    match arguments {
        [] => Ok(Arguments::none()),
        [value] => Ok(Arguments::one(shared(value)?)),
        [first, second] => Ok(Arguments::two(shared(first)?, shared(second)?)),
        _ => listed(alloc, arguments).map(Arguments::from_vec),
    }
}

/// Copies the arguments of one call into a list of exactly their number.
fn listed(alloc: Global, arguments: &[Value]) -> Result<Vec<Value>, NoMemory>
    ensures value { IfOk result (λ v. v.items ≡ arguments.now) }
{
    let Ok(mut values) = Vec::with_capacity(alloc, arguments.len()) else {
        return Err(NoMemory);
    };
    for argument in arguments {
        let value = shared(argument)?;
        let Ok(()) = values.push(value) else {
            return Err(NoMemory);
        };
    }
    Ok(values)
}

/// Returns another owner of a value.
fn shared(value: &Value) -> Result<Value, NoMemory>
    ensures value { IfOk result (λ v. v ≡ value.now) }
{
    value.share().map_err(|_| NoMemory)
}

/// Flushes the worker.
fn flush(machine: &mut Machine) -> anyhow::Result<()> {
    match machine.step(Event::Flush { worker: 0 }) {
        Reply::Done => Ok(()),
        Reply::Refused(refusal) => anyhow::bail!("{refusal}"),
        _ => anyhow::bail!("another reply"),
    }
}

/// Makes this many calls, of as many machines as that takes.
pub(crate) fn step_rounds(
    alloc: Global,
    way: Way,
    subject: &Subject,
    rounds: u64,
) -> anyhow::Result<Tally> {
    let mut tally = Tally::new();
    for history in 0..rounds.div_ceil(CALLS_OF_A_MACHINE) {
        let made = history.saturating_mul(CALLS_OF_A_MACHINE);
        let calls = rounds.saturating_sub(made).min(CALLS_OF_A_MACHINE);
        tally = tally.join(step_history(alloc, way, subject, calls)?)?;
    }
    Ok(tally)
}

/// Makes this many calls of a new machine.
fn step_history(alloc: Global, way: Way, subject: &Subject, calls: u64) -> anyhow::Result<Tally> {
    let mut machine = open(alloc, &subject.definition)?;
    make_history(&mut machine, alloc, way, subject, calls)
}

/// Makes this many calls of one machine, with their flushes.
fn make_history(
    machine: &mut Machine,
    alloc: Global,
    way: Way,
    subject: &Subject,
    calls: u64,
) -> anyhow::Result<Tally> {
    let (site, arguments) = (subject.site, subject.arguments.as_slice());
    let mut tally = Tally::new();
    for call in 0..calls {
        let (outcome, steps) = step_once(machine, alloc, site, arguments)?;
        tally = tally.count(&outcome, steps)?;
        if way == Way::Flush && call % CALLS_OF_A_FLUSH == CALLS_OF_A_FLUSH - 1 {
            flush(machine)?;
        }
    }
    Ok(tally)
}
