//! Readers and writers whose failures clauses can state.
ghost use Rattle.std.specs.Prelude.{◌≡◌, ◌≤◌, length, IfOk, OnErr};
ghost use Rattle.std.specs.Io.KnownBytes.{ReadConsumes, WriteAppends, Keeps};

use std::io;
use std::io::{Read, Write};

/// A reader, with the meaning of a failure of its last call. Each reader is a source.
///
/// A function over all sources can report a failure only if a read failed: nothing else states that
/// a source has failed, since each type has a meaning of `has_failed` of its own.
pub trait Source: Read {
    ghost has_failed: { Self → Type 0 };

    /// Reads once, as `Read::read` does.
    fn try_read(&mut self, buffer: &mut [u8]) -> io::Result<usize>
        ensures bound { IfOk result (λ n. n ≤ length buffer.new) }
        ensures bytes { ReadConsumes (Self.remaining self.old)
            (Self.remaining self.new) result buffer.new }
        ensures failed { OnErr result (has_failed self.new) };
}

/// A writer, with the meaning of a failure of its last call, as for a `Source`. Each writer is a
/// sink.
pub trait Sink: Write {
    ghost has_failed: { Self → Type 0 };

    /// Writes once, as `Write::write` does. A write that accepts no byte has failed, too.
    fn try_write(&mut self, bytes: &[u8]) -> io::Result<usize>
        ensures bound { IfOk result (λ n. n ≤ length bytes.now) }
        ensures bytes { WriteAppends (Self.contents self.old)
            (Self.contents self.new) result bytes.now }
        ensures failed { OnErr result (has_failed self.new) }
        ensures none { IfOk result (λ n. n ≡ 0 → has_failed self.new) };

    /// Flushes, as `Write::flush` does.
    fn try_flush(&mut self) -> io::Result<()>
        ensures bytes { Keeps (Self.contents self.old) (Self.contents self.new) }
        ensures failed { OnErr result (has_failed self.new) };
}

impl<R: Read> Source for R {
    ghost has_failed = { λ _. Unit {0} };

    fn try_read(&mut self, buffer: &mut [u8]) -> io::Result<usize> {
        self.read(buffer)
    }
}

impl<W: Write> Sink for W {
    ghost has_failed = { λ _. Unit {0} };

    fn try_write(&mut self, bytes: &[u8]) -> io::Result<usize> {
        self.write(bytes)
    }

    fn try_flush(&mut self) -> io::Result<()> {
        self.flush()
    }
}
