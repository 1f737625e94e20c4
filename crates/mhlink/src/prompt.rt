//! The prompt that the program shows on a terminal while it waits for its input.

use std::io;
use std::io::{Read, Write};

/// A reader that says on a terminal, before it reads for the first time, that it reads standard
/// input.
#[derive(Drop)]
pub(crate) struct Prompt<R, W> {
    reader: R,
    terminal: W,
    /// True if that is still to be said.
    waits: bool,
}

impl<R, W> Prompt<R, W> {
    /// Returns a reader that says so, if that is asked for.
    pub(crate) fn new(reader: R, terminal: W, asks: bool) -> Prompt<R, W> {
        Prompt {
            reader,
            terminal,
            waits: asks,
        }
    }
}

impl<R: Read, W: Write> Read for Prompt<R, W> {
    ghost remaining = { λ p. R.remaining p.reader };

    fn read(&mut self, buf: &mut [u8]) -> io::Result<usize> {
        if self.waits {
            self.waits = false;
            // Failures of the terminal are ignored.
            let _ = self
                .terminal
                .write_all(b"mhlink reads standard input; Ctrl-D ends it\n");
        }
        self.reader.read(buf)
    }
}
