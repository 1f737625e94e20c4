//! Counts of refused calls and flushes, for notes.
use mh_live::{CallFault, FlushFault};
use std::fmt;

/// A number of attempts, and how many of them were refused.
#[derive(Clone, Copy)]
pub(crate) struct Tally<F> {
    noun: &'static str,
    tried: u64,
    refused: u64,
    /// The first reason.
    first: Option<F>,
}

impl<F: Copy> Tally<F> {
    /// Returns a tally of nothing yet.
    pub(crate) fn new(noun: &'static str) -> Tally<F> {
        Tally {
            noun,
            tried: 0,
            refused: 0,
            first: None,
        }
    }

    /// Adds what became of one more.
    pub(crate) fn add<T>(&mut self, answer: &Result<T, F>) {
        self.tried = self.tried.saturating_add(1);
        if let Err(fault) = answer {
            self.refused = self.refused.saturating_add(1);
            if self.first.is_none() {
                self.first = Some(*fault);
            }
        }
    }
}

impl<F: fmt::Display> fmt::Display for Tally<F> {
    fn fmt<W: fmt::Write>(&self, f: &mut fmt::Formatter<W>) -> fmt::Result {
        let (refused, tried, noun) = (self.refused, self.tried, self.noun);
        match &self.first {
            Some(first) => {
                write!(
                    f,
                    "{refused} of {tried} {noun} were refused, first with {first}"
                )
            }
            None => write!(f, "all {tried} {noun} were accepted"),
        }
    }
}

/// The calls and flushes of a worker.
#[derive(Clone, Copy)]
pub(crate) struct Tallies {
    worker: usize,
    pub(crate) calls: Tally<CallFault>,
    pub(crate) flushes: Tally<FlushFault>,
}

impl Tallies {
    /// Returns tallies of nothing yet.
    pub(crate) fn new(worker: usize) -> Tallies {
        Tallies {
            worker,
            calls: Tally::new("calls"),
            flushes: Tally::new("flushes"),
        }
    }

    /// Returns whether all calls and flushes were accepted.
    pub(crate) fn is_clear(&self) -> bool {
        self.calls.first.is_none() && self.flushes.first.is_none()
    }
}

impl fmt::Display for Tallies {
    fn fmt<W: fmt::Write>(&self, f: &mut fmt::Formatter<W>) -> fmt::Result {
        let (worker, calls, flushes) = (self.worker, self.calls, self.flushes);
        write!(f, "worker {worker}: {calls}; {flushes}")
    }
}
