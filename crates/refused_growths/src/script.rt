//! The script that is read from standard input.

use mh_json::{Script, Step, read_script};
use mh_live::mh_core::{Event, Machine};
use mh_live::{MOST_WORKERS, Opening};
use std::alloc::Global;

/// The bytes of the script, and the allocator.
#[derive(Clone, Copy)]
pub(crate) struct Input<'a> {
    pub(crate) alloc: Global,
    pub(crate) bytes: &'a [u8],
}

impl Input<'_> {
    /// Reads the script.
    pub(crate) fn script(self) -> anyhow::Result<Script> {
        let script = read_script(self.alloc, self.bytes)?;
        Ok(script)
    }

    /// Reads the number of events.
    pub(crate) fn count(self) -> anyhow::Result<usize> {
        Ok(self.script()?.steps.len())
    }

    /// Reads the event at a place, from 0. Fails if there is none, or if it asks for a plan.
    pub(crate) fn event(self, place: usize) -> anyhow::Result<Event> {
        let script = self.script()?;
        match script.steps.into_vec().into_iter().nth(place) {
            Some(Step::Ask(event)) => Ok(event),
            _ => anyhow::bail!("there is no such event"),
        }
    }

    /// Reads the events. Fails if one asks for a plan.
    pub(crate) fn events(self) -> anyhow::Result<Vec<Event>> {
        let mut events = Vec::new(self.alloc);
        for place in 0..self.count()? {
            events.push(self.event(place)?)?;
        }
        Ok(events)
    }

    /// Opens a machine for the script.
    pub(crate) fn machine(self) -> anyhow::Result<Machine> {
        let script = self.script()?;
        let limits = script.limits.copy();
        let machine = Machine::open(self.alloc, &script.definition, script.workers, limits)?;
        Ok(machine)
    }

    /// Makes an opening for the script.
    pub(crate) fn opening(self) -> anyhow::Result<Opening> {
        let script = self.script()?;
        let (workers, limits) = (script.workers.clamp(1, MOST_WORKERS), script.limits.copy());
        let opening = Opening::new(self.alloc, &script.definition, workers, limits)?;
        Ok(opening)
    }
}
