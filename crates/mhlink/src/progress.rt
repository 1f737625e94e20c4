//! The progress of reading the input, on a terminal.
ghost use Rattle.std.specs.Prelude.{◌≡◌};

use std::io;
use std::io::{Read, Write};
use std::time::{Clock, Instant};

/// The number of bytes of a mebibyte, as a power of two.
const MEBIBYTE: u32 = 20;

/// A reader that shows on a terminal how many mebibytes it has read, once reading takes more than a
/// second. The next text on the terminal overwrites that line, and the end of the input clears it.
#[derive(Drop)]
pub(crate) struct Progress<'a, R, W, C> {
    reader: R,
    terminal: W,
    clock: &'a C,
    /// The time when reading began, or `None` if nothing is to be shown.
    start: Option<Instant>,
    bytes: u64,
    /// The number of mebibytes shown.
    shown: u64,
}

impl<'a, R, W: Write, C: Clock> Progress<'a, R, W, C> {
    /// Returns a reader that shows what it has read, if that is asked for.
    pub(crate) fn new(clock: &'a C, reader: R, terminal: W, shows: bool) -> Progress<'a, R, W, C>
        ensures reader { result.reader ≡ reader }
    {
        let start = if shows {
            Instant::now(clock).ok()
        } else {
            None
        };
        Progress {
            reader,
            terminal,
            clock,
            start,
            bytes: 0,
            shown: 0,
        }
    }

    /// Returns whether more than a second has passed.
    fn is_slow(&self, start: Instant) -> bool {
        matches!(start.elapsed(self.clock), Ok(time) if time.as_secs() >= 1)
    }

    /// Shows how much is read, if that is a mebibyte more, or clears it at the end. Failures of the
    /// terminal are ignored.
    fn show(&mut self, start: Instant, ended: bool)
        ensures reader { self.new.reader ≡ self.old.reader }
    {
        let mebibytes = self.bytes >> MEBIBYTE;
        if ended && self.shown > 0 {
            let _ = self.terminal.write_all(b"\x1b[K");
        } else if mebibytes > self.shown && self.is_slow(start) {
            self.shown = mebibytes;
            let _ = write!(self.terminal, "{mebibytes} MiB read\x1b[K\r");
        }
    }
}

impl<'a, R: Read, W: Write, C: Clock> Read for Progress<'a, R, W, C> {
    ghost remaining = { λ p. R.remaining p.reader };

    fn read(&mut self, buf: &mut [u8]) -> io::Result<usize> {
        let n = self.reader.read(buf)?;
        self.bytes = self.bytes.saturating_add(n as u64);
        if let Some(start) = self.start {
            self.show(start, n == 0);
        }
        Ok(n)
    }
}
