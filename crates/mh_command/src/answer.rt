//! Output at the end of the work for a request, and for command lines that ask for none.
ghost use Rattle.std.specs.Prelude.{◌≡◌, ◌≢◌, ◌++◌, ◌<◌, ◌⊎◌, string_bytes, IfOk, IfErr, OnOk, OnErr};
ghost use Rattle.std.specs.Io.KnownBytes.{Appends, Keeps};
ghost use Rattle.clap.specs.Words.{kind_of};
ghost use Rattle.clap.specs.declared.error.kind.ErrorKind.{ErrorKind};
ghost use Rattle.mh_text.specs.Bytes.{HasFailed, one_more};
ghost use Rattle.mh_json.specs.Gives.{outside};
ghost use Rattle.mh_json.specs.declared.fault.TextFault.TheVariants.{WriteFailed};
ghost use Rattle.mh_command.specs.CommandLine.{IsReply};
ghost use Rattle.mh_command.specs.Statuses.{status_answered};
ghost use Rattle.mh_command.specs.Streams.{IsCut, IsTold, IsShown, IsDone};

use crate::status::{COMMAND_LINE, DONE, IO_FAILED, NO_MEMORY, status_of_fault};
use crate::wording::worded;
use crate::work::Ending;
use clap::Error;
use clap::error::ErrorKind;
use mh_json::{Fault, TextFault};
use mh_text::Watched;
use std::alloc::{AllocError, Global};
use std::io::Write;

/// Writes a text and its explanation, and flushes both streams.
fn write_text<W: Write>(stream: &mut Watched<W>, text: &str, help: &str) -> Result<(), TextFault>
    ensures ok { OnOk result (Appends (W.contents stream.old.inner)
        (W.contents stream.new.inner) (text.now ++ help.now)) }
    ensures kept { OnOk result (stream.new.failures ≡ stream.old.failures) }
    ensures cut { OnErr result (IsCut (W.contents stream.old.inner) (W.contents stream.new.inner)
        stream.old.failures stream.new.failures (text.now ++ help.now)) }
{
    stream.write_all(text.as_bytes())?;
    stream.write_all(help.as_bytes())?;
    stream.flush()
}

/// Writes the line of a fault and its explanation. Returns the fault's status, or that of the
/// failure to write them.
fn tell<E: Write>(alloc: Global, fault: Fault, help: &str, err: &mut Watched<E>) -> u8
    ensures told { IsTold (E.contents err.old.inner) (E.contents err.new.inner) err.old.failures
        err.new.failures help.now result fault }
{
    let Ok(line) = format!(in alloc; "{fault}\n") else {
        return NO_MEMORY;
    };
    match write_text(err, line.as_str(), help) {
        Ok(()) => status_of_fault(fault.kind),
        Err(_) => IO_FAILED,
    }
}

/// Writes the notes of work that ended without a fault. Returns its status, or that of the failure
/// to write them.
fn tell_alone<E: Write>(help: &str, err: &mut Watched<E>, status: u8) -> u8
    ensures done { IsDone (E.contents err.old.inner) (E.contents err.new.inner) err.old.failures
        err.new.failures help.now result status }
{
    if help.is_empty() {
        return status;
    }
    match write_text(err, help, "") {
        Ok(()) => status,
        Err(_) => IO_FAILED,
    }
}

/// Flushes what was written, also after a fault, reports the fault with its help, and returns the
/// status.
pub(crate) fn end<W: Write, E: Write>(
    alloc: Global,
    outcome: &Ending,
    out: &mut Watched<W>,
    err: &mut Watched<E>,
) -> u8
    ensures kept { Keeps (W.contents out.old.inner) (W.contents out.new.inner) }
    ensures done { IfOk outcome.now.end (λ status.
        (IsDone (E.contents err.old.inner) (E.contents err.new.inner) err.old.failures
        err.new.failures (string_bytes outcome.now.help) result status
        × (out.new.failures ≡ out.old.failures))
        ⊎ (IsTold (E.contents err.old.inner) (E.contents err.new.inner) err.old.failures
        err.new.failures (string_bytes outcome.now.help) result (outside WriteFailed)
        × (out.new.failures ≡ one_more out.old.failures))) }
    ensures told { IfErr outcome.now.end (λ e. IsTold (E.contents err.old.inner)
        (E.contents err.new.inner) err.old.failures err.new.failures
        (string_bytes outcome.now.help) result e × (out.new.failures ≡ out.old.failures)) }
{
    let help = outcome.help.as_str();
    match outcome.end {
        Ok(status) => match out.flush() {
            Ok(()) => tell_alone(help, err, status),
            Err(kind) => tell(alloc, Fault::from(kind), help, err),
        },
        Err(fault) => {
            // The fault's own status is returned, whether or not this flush fails.
            let _ = out.inner.flush();
            tell(alloc, fault, help, err)
        }
    }
}

/// Returns the text of help or of an error, in the words of this program.
fn text_of(alloc: Global, error: &Error) -> Result<String, AllocError> {
    let text = error.to_string(alloc)?;
    match error.kind() {
        ErrorKind::ValueValidation | ErrorKind::UnknownArgument => worded(alloc, text.as_str()),
        _ => Ok(text),
    }
}

/// Writes the answer to a command line. Returns its status, or that of the failure to write it.
fn show<W: Write>(alloc: Global, error: &Error, stream: &mut Watched<W>, status: u8) -> u8
    ensures shown { IsShown (W.contents stream.old.inner)
        (W.contents stream.new.inner) stream.old.failures stream.new.failures result status }
{
    let Ok(text) = text_of(alloc, error) else {
        return NO_MEMORY;
    };
    // clap has a text for each answer, and only running out of memory prevents it.
    if text.is_empty() {
        return NO_MEMORY;
    }
    match write_text(stream, text.as_str(), "") {
        Ok(()) => status,
        Err(_) => IO_FAILED,
    }
}

/// Answers a command line that does not run a subcommand: help and the version on `out`, an error
/// on `err`.
pub(crate) fn reply<W: Write, E: Write>(
    alloc: Global,
    error: &Error,
    out: &mut Watched<W>,
    err: &mut Watched<E>,
) -> u8
    ensures value { IsReply result (kind_of error.now) }
    ensures memory { kind_of error.now ≡ ErrorKind.OutOfMemory
        → (result ≡ 4) × (out.new ≡ out.old) × (err.new ≡ err.old) }
    ensures shown { status_answered (kind_of error.now) ≡ 0
        → IsShown (W.contents out.old.inner) (W.contents out.new.inner) out.old.failures
        out.new.failures result 0 }
    ensures told { status_answered (kind_of error.now) ≡ 2
        → IsShown (E.contents err.old.inner) (E.contents err.new.inner) err.old.failures
        err.new.failures result 2 }
    ensures output { status_answered (kind_of error.now) ≡ 2 → out.new ≡ out.old }
    ensures errors { status_answered (kind_of error.now) ≡ 0 → err.new ≡ err.old }
    ensures unread { result ≢ 1 }
    ensures help { result ≡ 0 → err.new ≡ err.old }
    ensures wrong { result ≡ 2 → out.new ≡ out.old }
    ensures done { result < 3 → (out.new.failures ≡ out.old.failures)
        × (err.new.failures ≡ err.old.failures) }
    ensures failed { result ≡ 3 → HasFailed out.old.failures out.new.failures
        ⊎ HasFailed err.old.failures err.new.failures }
{
    match error.kind() {
        ErrorKind::OutOfMemory => NO_MEMORY,
        ErrorKind::DisplayHelp | ErrorKind::DisplayVersion => show(alloc, error, out, DONE),
        _ => show(alloc, error, err, COMMAND_LINE),
    }
}
