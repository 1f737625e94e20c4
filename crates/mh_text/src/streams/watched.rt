//! Readers and writers that count their failures.
ghost use Rattle.std.specs.Prelude.{◌≡◌, ◌<◌, ◌≤◌, length, true, IfOk, IfErr, IsErr, OnOk, OnErr};
ghost use Rattle.std.specs.Io.KnownBytes.{ReadConsumes, WriteAppends, Appends, Keeps};
ghost use Rattle.mh_text.specs.Bytes.{AppendsFront, one_more};

use crate::streams::failing::{Sink, Source};
use mh_json::TextFault;
use std::io;
use std::io::ErrorKind;

/// A reader or a writer, and the number of its failures since it was wrapped.
///
/// A read, a write or a flush that returns an error is a failure, and so is a write that accepts
/// none of its bytes. A call that a signal interrupted (`ErrorKind::Interrupted`) is repeated, as
/// in `std::io::Write::write_all`, and is not a failure. The count is private, so that it only
/// counts calls that were made; it wraps to 0 after 2^64 - 1.
#[derive(Debug, Drop)]
pub struct Watched<T> {
    pub inner: T,
    failures: u64,
}

impl<T> Watched<T> {
    pub fn new(inner: T) -> Watched<T>
        ensures inner { result.inner ≡ inner }
        ensures fresh { result.failures ≡ 0 }
    {
        Watched { inner, failures: 0 }
    }

    /// Returns the number of failures.
    pub fn failures(&self) -> u64
        ensures value { result ≡ self.now.failures }
    {
        self.failures
    }
}

/// Returns the number of failures after one more.
fn count_failure(failures: u64) -> u64
    ensures value { result ≡ one_more failures }
{
    failures.wrapping_add(1)
}

/// Returns whether a signal interrupted a call.
fn was_interrupted(answer: &io::Result<usize>) -> bool
    ensures failed { result ≡ true → IsErr answer.now }
{
    match answer {
        Ok(_) => false,
        Err(error) => error.kind() == ErrorKind::Interrupted,
    }
}

/// Reads once, and repeats the read if a signal interrupts it.
fn read_once<R: Source>(reader: &mut R, buffer: &mut [u8]) -> Result<usize, TextFault>
    ensures bound { IfOk result (λ n. n ≤ length buffer.new) }
    ensures bytes { ReadConsumes (R.remaining reader.old)
        (R.remaining reader.new) result buffer.new }
    ensures fault { IfErr result (λ e. e ≡ TextFault.ReadFailed) }
    ensures told { OnErr result (R.has_failed reader.new) }
{
    let mut answer = reader.try_read(buffer);
    for _ in 0..u64::MAX {
        if !was_interrupted(&answer) {
            break;
        }
        answer = reader.try_read(buffer);
    }
    answer.map_err(|_| TextFault::ReadFailed)
}

/// Writes once, and repeats the write if a signal interrupts it. Fails if the write accepts no
/// byte.
fn write_once<W: Sink>(writer: &mut W, bytes: &[u8]) -> Result<usize, TextFault>
    ensures some { IfOk result (λ n. 0 < n) }
    ensures bound { IfOk result (λ n. n ≤ length bytes.now) }
    ensures bytes { WriteAppends (W.contents writer.old) (W.contents writer.new) result bytes.now }
    ensures fault { IfErr result (λ e. e ≡ TextFault.WriteFailed) }
    ensures told { OnErr result (W.has_failed writer.new) }
{
    let mut answer = writer.try_write(bytes);
    for _ in 0..u64::MAX {
        if !was_interrupted(&answer) {
            break;
        }
        answer = writer.try_write(bytes);
    }
    match answer {
        Ok(0) | Err(_) => Err(TextFault::WriteFailed),
        Ok(n) => Ok(n),
    }
}

impl<R: Source> Watched<R> {
    /// Reads once. Fails only if the reader's read failed in this call.
    pub fn read(&mut self, buffer: &mut [u8]) -> Result<usize, TextFault>
        ensures bound { IfOk result (λ n. n ≤ length buffer.new) }
        ensures bytes { ReadConsumes (R.remaining self.old.inner)
            (R.remaining self.new.inner) result buffer.new }
        ensures kept { OnOk result (self.new.failures ≡ self.old.failures) }
        ensures failed { OnErr result (self.new.failures ≡ one_more self.old.failures) }
        ensures fault { IfErr result (λ e. e ≡ TextFault.ReadFailed) }
        ensures told { OnErr result (R.has_failed self.new.inner) }
    {
        match read_once(&mut self.inner, buffer) {
            Ok(n) => Ok(n),
            Err(fault) => {
                self.failures = count_failure(self.failures);
                Err(fault)
            }
        }
    }
}

impl<W: Sink> Watched<W> {
    /// Writes the bytes, up to the first write that fails or accepts none. Fails only if the
    /// writer's write failed in this call.
    pub fn write_all(&mut self, bytes: &[u8]) -> Result<(), TextFault>
        ensures ok { OnOk result (Appends (W.contents self.old.inner)
            (W.contents self.new.inner) bytes.now) }
        ensures begun { OnErr result (AppendsFront (W.contents self.old.inner)
            (W.contents self.new.inner) bytes.now) }
        ensures kept { OnOk result (self.new.failures ≡ self.old.failures) }
        ensures failed { OnErr result (self.new.failures ≡ one_more self.old.failures) }
        ensures fault { IfErr result (λ e. e ≡ TextFault.WriteFailed) }
        ensures told { OnErr result (W.has_failed self.new.inner) }
    {
        let mut rest = bytes;
        while !rest.is_empty() {
            match write_once(&mut self.inner, rest) {
                Ok(n) => rest = &rest[n..],
                Err(fault) => {
                    self.failures = count_failure(self.failures);
                    return Err(fault);
                }
            }
        }
        Ok(())
    }

    /// Flushes the bytes that were written. Fails only if the writer's flush failed in this call.
    pub fn flush(&mut self) -> Result<(), TextFault>
        ensures bytes { Keeps (W.contents self.old.inner) (W.contents self.new.inner) }
        ensures kept { OnOk result (self.new.failures ≡ self.old.failures) }
        ensures failed { OnErr result (self.new.failures ≡ one_more self.old.failures) }
        ensures fault { IfErr result (λ e. e ≡ TextFault.WriteFailed) }
        ensures told { OnErr result (W.has_failed self.new.inner) }
    {
        match self.inner.try_flush() {
            Ok(()) => Ok(()),
            Err(_) => {
                self.failures = count_failure(self.failures);
                Err(TextFault::WriteFailed)
            }
        }
    }
}
