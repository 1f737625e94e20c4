//! The progress of the rounds of a stress, on a terminal, and notes.

use mh_command::ShowRounds;
use std::fmt;
use std::io::Write;
use std::time::Instant;

/// The greatest number of times that a line of rounds is shown.
const MOST_LINES: u32 = 100;

/// Shows on a terminal how many rounds are made, once they take more than a second. The next text
/// overwrites that line, and the end of the rounds clears it. Prints notes to standard error, if they
/// are asked for, a line each.
#[derive(Clone, Copy)]
pub(crate) struct Rounds<'a> {
    rt: &'a HostRuntime,
    /// The time when the program began, or `None` if nothing is to be shown.
    start: Option<Instant>,
    /// True if notes are shown.
    tells: bool,
}

impl<'a> Rounds<'a> {
    /// Returns a display of rounds and of notes, if these are asked for.
    pub(crate) fn new(rt: &'a HostRuntime, shows: bool, tells: bool) -> Rounds<'a> {
        let start = if shows { Instant::now(rt).ok() } else { None };
        Rounds { rt, start, tells }
    }

    /// Returns whether rounds are to be shown, and more than a second has passed.
    fn is_slow(&self) -> bool {
        match self.start {
            Some(start) => { matches!(start.elapsed(self.rt), Ok(time) if time.as_secs() >= 1) }
            None => false,
        }
    }
}

impl<'a> ShowRounds for Rounds<'a> {
    fn show(&self, done: u32, rounds: u32) {
        let step = rounds / MOST_LINES + 1;
        if done % step == 0 && self.is_slow() {
            // Failures of the terminal are ignored.
            let _ = write!(self.rt.stderr(), "{done} of {rounds} rounds\x1b[K\r");
        }
    }

    fn clear(&self) {
        if self.is_slow() {
            let _ = self.rt.stderr().write_all(b"\x1b[K");
        }
    }

    fn tell<D: fmt::Display>(&self, note: &D) {
        if !self.tells {
            return;
        }
        // One write, so that the notes of several threads do not mix.
        if let Ok(line) = format!(in self.rt.alloc(); "note: {note}\n") {
            let _ = self.rt.stderr().write_all(line.as_bytes());
        }
    }
}
