//! Notes on what a script leaves a stress to do.
use crate::division::Call;
use crate::stage::ShowRounds;
use mh_core::Definition;
use std::fmt;

/// A note on a script.
#[derive(Clone, Copy)]
enum Note {
    /// The definition has no links.
    NoLinks,
    /// So many of the workers make no calls.
    Idle { idle: usize, workers: u32 },
    /// So many calls are of workers that do not exist.
    Outside { calls: usize },
}

impl fmt::Display for Note {
    fn fmt<W: fmt::Write>(&self, f: &mut fmt::Formatter<W>) -> fmt::Result {
        match self {
            Note::NoLinks => write!(f, "the script has no links, so there are no hits to add up"),
            Note::Idle { idle, workers } => write!(
                f,
                "{idle} of {workers} workers make no calls; a call is made by the worker that it names"
            ),
            Note::Outside { calls } => write!(
                f,
                "calls of workers that do not exist are not made: {calls}; --workers N sets how many exist"
            ),
        }
    }
}

/// Shows notes on a script whose calls so many workers make.
pub(crate) fn tell_notes<S: ShowRounds>(
    shows: &S,
    definition: &Definition,
    calls: &[Call],
    workers: u32,
) {
    if definition.link_count() == 0 {
        shows.tell(&Note::NoLinks);
    }
    let idle = idle_workers(calls, workers);
    if idle > 0 {
        shows.tell(&Note::Idle { idle, workers });
    }
    let outside = calls_outside(calls, workers);
    if outside > 0 {
        shows.tell(&Note::Outside { calls: outside });
    }
}

/// Returns how many workers make no calls.
fn idle_workers(calls: &[Call], workers: u32) -> usize {
    let mut idle: usize = 0;
    for worker in 0..workers {
        if !calls.iter().any(|call| call.worker == worker) {
            idle = idle.saturating_add(1);
        }
    }
    idle
}

/// Returns how many calls are of workers that do not exist.
fn calls_outside(calls: &[Call], workers: u32) -> usize {
    let mut outside: usize = 0;
    for call in calls {
        if call.worker >= workers {
            outside = outside.saturating_add(1);
        }
    }
    outside
}
