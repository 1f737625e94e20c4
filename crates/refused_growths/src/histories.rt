//! Answers the events of the script by `Machine::run`.

use crate::script::Input;
use crate::telling::{tell_again, tell_opened, tell_part, tell_worked};
use mh_live::mh_core::{Event, Machine};

/// Runs the events on a machine, and again on another.
pub(crate) fn try_run(rt: &impl Print, input: Input<'_>) -> anyhow::Result<()> {
    try_first(rt, input)?;
    try_again(rt, input)
}

fn try_first(rt: &impl Print, input: Input<'_>) -> anyhow::Result<()> {
    let mut machine = input.machine()?;
    try_machine(rt, input, &mut machine)
}

fn try_machine(rt: &impl Print, input: Input<'_>, machine: &mut Machine) -> anyhow::Result<()> {
    tell(rt, machine)?;
    run_first(rt, input, machine)?;
    tell(rt, machine)
}

/// Runs the events while an allocation may be refused.
fn run_first(rt: &impl Print, input: Input<'_>, machine: &mut Machine) -> anyhow::Result<()> {
    let events = input.events()?;
    run_ready(rt, machine, events)
}

fn run_ready(rt: &impl Print, machine: &mut Machine, events: Vec<Event>) -> anyhow::Result<()> {
    tell_opened(rt)?;
    tell_worked(rt, &machine.run(events))
}

/// Runs the events on another machine, with ample memory.
fn try_again(rt: &impl Print, input: Input<'_>) -> anyhow::Result<()> {
    let mut machine = input.machine()?;
    run_again(rt, input, &mut machine)
}

fn run_again(rt: &impl Print, input: Input<'_>, machine: &mut Machine) -> anyhow::Result<()> {
    run_last(rt, input, machine)?;
    tell(rt, machine)
}

fn run_last(rt: &impl Print, input: Input<'_>, machine: &mut Machine) -> anyhow::Result<()> {
    let events = input.events()?;
    tell_again(rt, &machine.run(events))
}

/// Prints the state of a machine.
fn tell(rt: &impl Print, machine: &Machine) -> anyhow::Result<()> {
    tell_part(rt, "accepted", &machine.accepted())?;
    tell_part(rt, "records", &machine.book().records())?;
    tell_part(rt, "totals", machine.book().totals())?;
    tell_part(rt, "world", machine.book().world())
}
