//! The environment of a stress.
use std::fmt;

/// A display of the progress of a stress, and of notes on its work.
pub trait ShowRounds {
    /// Shows that a worker has made `done` of its `rounds` rounds.
    fn show(&self, done: u32, rounds: u32);

    /// Clears what is shown, since all rounds are made.
    fn clear(&self);

    /// Shows a note that is not part of the output.
    fn tell<D: fmt::Display>(&self, note: &D);
}

/// A display that shows nothing.
#[derive(Clone, Copy, Debug)]
pub struct Silent;

impl ShowRounds for Silent {
    fn show(&self, _done: u32, _rounds: u32) {}

    fn clear(&self) {}

    fn tell<D: fmt::Display>(&self, _note: &D) {}
}

/// The threads of a stress, and the display of its progress.
#[derive(Clone, Copy)]
pub struct Stage<'a, T, S> {
    /// The runtime that starts threads.
    pub rt: &'a T,
    /// The display of the rounds of the first worker, and of notes.
    pub shows: S,
}

impl<'a, T> Stage<'a, T, Silent> {
    /// Returns a stage on which nothing is shown.
    pub fn silent(rt: &'a T) -> Stage<'a, T, Silent> {
        Stage { rt, shows: Silent }
    }
}
