//! Runs one command line, over a reader and two writers.
ghost use Rattle.std.specs.Prelude.{◌≡◌, ◌≢◌, ◌⊎◌, ◌<◌, ◌≤◌, [], ◌∷◌, false, map, IfSome};
ghost use Rattle.clap.specs.Words.{fault_of};
ghost use Rattle.clap.specs.declared.error.kind.ErrorKind.{ErrorKind};
ghost use Rattle.std.specs.Io.KnownBytes.{IsAtEnd, Keeps};
ghost use Rattle.mh_text.specs.Bytes.{HasFailed};
ghost use Rattle.mh_command.specs.Answers.{Answers, IsStopped, IsTurnedDown};
ghost use Rattle.mh_command.specs.CommandLine.{program, AsksFor, AsksNoExplanation, AsksHelp, AsksVersion, HasWorkers, IsReply};
ghost use Rattle.mh_command.specs.Statuses.{status_answered};
ghost use Rattle.mh_command.specs.Streams.{IsShown};
ghost use Rattle.mh_command.specs.declared.request.Asked.{Asked};

use crate::answer::{end, reply};
use crate::request::{Asked, parse};
use crate::status::COMMAND_LINE;
use crate::work::work_asked;
use mh_stress::{ShowRounds, Stage};
use mh_text::Watched;
use std::alloc::Global;
use std::convert::AsStr;
use std::io::{Read, Write};
use std::sync::Wait;
use std::thread::Threads;

/// Does the work of a request, and returns the status.
fn perform<T: Threads + Wait + Sync, P: ShowRounds + Sync, R: Read, W: Write, E: Write>(
    stage: &Stage<'_, T, P>,
    alloc: Global,
    asked: Asked,
    reader: &mut Watched<R>,
    out: &mut Watched<W>,
    err: &mut Watched<E>,
) -> u8
    requires workers { HasWorkers asked.request }
    ensures known { result ≤ 4 }
    ensures asked { result ≢ 2 }
    ensures answers { result < 2 → Answers asked (R.remaining reader.old.inner) result
        (W.contents out.old.inner) (W.contents out.new.inner) (E.contents err.old.inner)
        (E.contents err.new.inner) }
    ensures stopped { 2 ≤ result → IsStopped asked (R.remaining reader.old.inner)
        (W.contents out.old.inner) (W.contents out.new.inner)
        (HasFailed reader.old.failures reader.new.failures)
        (HasFailed out.old.failures out.new.failures) (E.contents err.old.inner)
        (E.contents err.new.inner) err.old.failures err.new.failures result }
    ensures failed { result ≡ 3 → HasFailed reader.old.failures reader.new.failures
        ⊎ HasFailed out.old.failures out.new.failures
        ⊎ HasFailed err.old.failures err.new.failures }
    ensures done { result < 3 → (reader.new.failures ≡ reader.old.failures)
        × (out.new.failures ≡ out.old.failures) × (err.new.failures ≡ err.old.failures) }
    ensures end { result ≡ 0 → IsAtEnd (R.remaining reader.new.inner) }
    ensures unexplained { result ≡ 0 → asked.reading.explain ≡ false
        → Keeps (E.contents err.old.inner) (E.contents err.new.inner) }
{
    let outcome = work_asked(stage, alloc, asked, reader, out);
    end(alloc, &outcome, out, err)
}

/// Runs one command line, whose first word is the program's name, and returns the exit status.
///
/// - `mhlink run` reads a script from `reader`, and writes a line for each reply to `out`. Option:
///   `--report`.
/// - `mhlink check` reads a problem and a plan, and writes to `out` whether the plan is accepted.
///   With `--profile` it reads a profile followed by a plan.
/// - `mhlink plan` reads a problem, and writes its optimal plan to `out`. Options: `--workers N`, 1
///   to 64, `--certificate` and `--phases`. The stage starts its threads.
/// - `mhlink stress` reads a script, runs its calls in threads, and writes the sums of their hits
///   to `out`. Options: `--workers N`, 1 to 64, `--rounds N`, 1 to 1,000,000, and `--report`. The
///   stage shows the rounds that are done.
/// - `mhlink profile` reads a profile line by line, and writes to `out` the decision for each of
///   its names in an optimal plan. Options: `--workers N`, 1 to 64, `--certificate` and `--sweep`.
///   The stage starts its threads.
///
/// A fault is one line on `err`. Each subcommand takes `--explain`, and each but `profile` takes
/// `--strict`.
///
/// With `--explain` the input is first read into memory. The line of a fault is followed on `err`
/// by lines that say where it is and why (`mh_explain::explanation`), and by a line for each
/// unknown key (`mh_explain::unread_keys`), which are also written if the input is accepted. If a
/// run refuses events, the last lines say which tests failed
/// (`mh_explain::explanation_of_refused`). For a profile the lines say what the faulty line
/// contains and why it is a fault; its keys are not looked at.
///
/// With `--strict` an input with an unknown key is refused before anything runs, by the fault
/// `BadShape` in the event of the first such key, or at 0. With `check --profile` the option has no
/// effect.
///
/// The exit statuses: 0 success, help and the version, which go to `out`; 1 the input is refused,
/// or its plan; 2 the command line is wrong, and nothing is read; 3 a read, a write or a flush
/// failed; 4 memory ran out outside an event, or readers of a published world did.
pub fn command<
    T: Threads + Wait + Sync,
    P: ShowRounds + Sync,
    S: AsStr,
    R: Read,
    W: Write,
    E: Write,
>(
    stage: &Stage<'_, T, P>,
    alloc: Global,
    words: &[S],
    reader: &mut Watched<R>,
    out: &mut Watched<W>,
    err: &mut Watched<E>,
) -> u8
    ensures known { result ≤ 4 }
    ensures asked { (asked : Asked) → AsksFor asked (map S.text words.now) → result ≢ 2 }
    ensures answers { (asked : Asked) → AsksFor asked (map S.text words.now) → result < 2
        → Answers asked (R.remaining reader.old.inner) result (W.contents out.old.inner)
        (W.contents out.new.inner) (E.contents err.old.inner) (E.contents err.new.inner) }
    ensures stopped { (asked : Asked) → AsksFor asked (map S.text words.now) → 2 ≤ result
        → IsStopped asked (R.remaining reader.old.inner) (W.contents out.old.inner)
        (W.contents out.new.inner) (HasFailed reader.old.failures reader.new.failures)
        (HasFailed out.old.failures out.new.failures) (E.contents err.old.inner)
        (E.contents err.new.inner) err.old.failures err.new.failures result }
    ensures turned_down { result ≡ 1 → IfSome (R.remaining reader.old.inner) IsTurnedDown }
    ensures failed { result ≡ 3 → HasFailed reader.old.failures reader.new.failures
        ⊎ HasFailed out.old.failures out.new.failures
        ⊎ HasFailed err.old.failures err.new.failures }
    ensures done { result < 3 → (reader.new.failures ≡ reader.old.failures)
        × (out.new.failures ≡ out.old.failures) × (err.new.failures ≡ err.old.failures) }
    ensures end { (asked : Asked) → AsksFor asked (map S.text words.now) → result ≡ 0
        → IsAtEnd (R.remaining reader.new.inner) }
    ensures unexplained { result ≡ 0 → AsksNoExplanation (map S.text words.now)
        → Keeps (E.contents err.old.inner) (E.contents err.new.inner) }
    ensures wrong { result ≡ 2 → (out.new ≡ out.old) × (reader.new ≡ reader.old) }
    ensures replied { (kind : ErrorKind) → fault_of program (map S.text words.now) ≡ kind ∷ []
        → IsReply result kind × (reader.new ≡ reader.old) }
    ensures told { (kind : ErrorKind) → fault_of program (map S.text words.now) ≡ kind ∷ []
        → status_answered kind ≡ 2 → IsShown (E.contents err.old.inner) (E.contents err.new.inner)
        err.old.failures err.new.failures result 2 × (out.new ≡ out.old) }
    ensures shown { (kind : ErrorKind) → fault_of program (map S.text words.now) ≡ kind ∷ []
        → status_answered kind ≡ 0 → IsShown (W.contents out.old.inner) (W.contents out.new.inner)
        out.old.failures out.new.failures result 0 × (err.new ≡ err.old) }
    ensures help { AsksHelp (map S.text words.now) → IsShown (W.contents out.old.inner)
        (W.contents out.new.inner) out.old.failures out.new.failures result 0
        × (err.new ≡ err.old) × (reader.new ≡ reader.old) }
    ensures version { AsksVersion (map S.text words.now) → IsShown (W.contents out.old.inner)
        (W.contents out.new.inner) out.old.failures out.new.failures result 0
        × (err.new ≡ err.old) × (reader.new ≡ reader.old) }
{
    match parse(alloc, words) {
        Ok(Some(asked)) => perform(stage, alloc, asked, reader, out, err),
        Ok(None) => COMMAND_LINE,
        Err(error) => reply(alloc, &error, out, err),
    }
}
